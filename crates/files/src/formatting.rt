// Format: a fresh disk, whatever the image held, with the bad blocks of a list.
ghost use Rattle.std.specs.Prelude.{◌≡◌, true, List, [], ℕ, ◌+◌, ◌≤◌, ◌<◌, length};
ghost use Rattle.laws.specs.Below.{count};
ghost use Rattle.laws.specs.Lists.{tab};
ghost use Rattle.sector_rules.specs.Geometry.{blocks, image_bytes};
ghost use Rattle.file_rules.specs.Sizes.{map_start, title_most};
ghost use Rattle.file_rules.specs.Disk.{disk_of, image_of};
ghost use Rattle.file_rules.specs.Arguments.{arguments_of, bad_list_right, count_listed};
ghost use Rattle.file_rules.specs.Calls as Calls;
ghost use Rattle.file_rules.specs.Calls.{fresh_header, format_disk};
ghost use Rattle.files.specs.Laws.Calling.BadNoted.{BadNoted, is_noted, fresh_record};
ghost use Rattle.files.specs.Laws.Calling.Fresh.{titled, sized, started, with_records};
ghost use Rattle.files.specs.Refusals.{disk_replied};

use crate::refusals::DiskRefusal;
use crate::sizes::{MAP_START, SLOT_BYTES, TITLE_MOST};
use crate::steps::set_record;
use crate::store::put_bytes;
use file_rules::Record;
use sectors::Geometry;

// What fills a disk's name to ten bytes (§6.2).
const SPACE: u8 = 32;

// Which blocks a list of bad blocks has.
type BadBlocks = [bool; Geometry::BLOCKS];

// The lowest block that can be bad: the format itself uses those below (§7.12).
const LOWEST_BAD: usize = 2;

// Whether each number in a list of bad blocks is that of a block, and neither 0 nor 1 (§7.12).
fn bad_list_right(bad: &[u16]) -> bool
    ensures { result ≡ bad_list_right bad.now }
{
    bad.iter().all(|b| (LOWEST_BAD..Geometry::BLOCKS).contains(&usize::from(*b)))
}

// The blocks of a list, which may have one more than once (§8.4).
fn note_bad(bad: &[u16]) -> BadBlocks
    requires { bad_list_right bad.now ≡ true }
    ensures { BadNoted result bad.now }
{
    let mut noted = [false; Geometry::BLOCKS];
    for b in bad {
        noted[usize::from(*b)] = true;
    }
    noted
}

// How many different blocks were noted (§8.4).
fn count_noted(noted: &BadBlocks) -> usize
    ensures { (result ≡ count blocks (is_noted noted.now)) × (result ≤ blocks) }
{
    noted.iter().filter(|is_bad| **is_bad).count()
}

// The letters (§6.1), the name filled with spaces, and the number (§6.2), as in `fixed_byte`.
fn put_title(head: &mut [u8], name: &[u8], number: u16)
    requires { length name.now ≤ title_most }
    ensures { head.new ≡ titled head.old name.now number }
{
    fields::copy_into(head, 0, b"QL5A");
    fields::fill(head, 4, TITLE_MOST, SPACE);
    fields::copy_into(head, 4, name);
    fields::put_high2(head, 14, number);
}

// The good word for n bad blocks (§6.18), the sizes of the disk kind (§6.5), and its track offset (§6.7), as in
// `fixed_byte`.
fn put_dimensions(head: &mut [u8], n: usize)
    requires { n + 2 ≤ blocks }
    ensures { head.new ≡ sized head.old n }
{
    let good = Geometry::ALL_SECTORS - Geometry::BLOCK_SECTORS * n;
    fields::put_high2(head, 22, good as u16);
    fields::put_high2(head, 24, Geometry::ALL_SECTORS as u16);
    fields::put_high2(head, 26, Geometry::SECTORS as u16);
    fields::put_high2(head, 28, Geometry::TRACK_SECTORS as u16);
    fields::put_high2(head, 30, Geometry::TRACKS as u16);
    fields::put_high2(head, 32, Geometry::BLOCK_SECTORS as u16);
    fields::put_high2(head, 38, Geometry::TRACK_OFFSET as u16);
}

// The two tables (§6.7), no update yet, all sectors free but those of two blocks and of n bad ones, and a directory of
// one slot (§8.4), as in `fresh_header`.
fn put_start(head: &mut [u8], n: usize)
    requires { n + 2 ≤ blocks }
    ensures { head.new ≡ started head.old n }
{
    let first = Geometry::side_place_table();
    fields::copy_into(head, 40, &first);
    let second = Geometry::backward_table();
    fields::copy_into(head, 58, &second);
    fields::put_high4(head, 16, 0);
    let free = Geometry::BLOCK_SECTORS * (Geometry::BLOCKS - 2 - n);
    fields::put_high2(head, 20, free as u16);
    fields::put_high2(head, 34, 0);
    fields::put_high2(head, 36, SLOT_BYTES as u16);
}

// The header of a fresh disk with n bad blocks (§8.4).
fn header_bytes(name: &[u8], number: u16, n: usize) -> [u8; MAP_START]
    requires { (length name.now ≤ title_most) × (n + 2 ≤ blocks) }
    ensures { (bad : List ℕ) → n ≡ count_listed bad → result ≡ tab (fresh_header (arguments_of name.now number bad)) map_start }
{
    let mut head = [0xFFu8; MAP_START];
    put_title(&mut head, name, number);
    put_dimensions(&mut head, n);
    put_start(&mut head, n);
    head
}

// The record of block b of a fresh disk: block 1 is the directory's first, and those that were noted are bad (§8.4).
fn fresh_record(noted: &BadBlocks, b: usize) -> Record
    requires { b < blocks }
    ensures { result ≡ fresh_record noted.now b }
{
    match b {
        0 => Record::System,
        1 => Record::File(0, 0),
        _ if noted[b] => Record::Bad,
        _ => Record::Free,
    }
}

// The map of a fresh disk (§8.4): `set_record` of `fresh_owner` for each block.
fn write_map(image: &mut [u8], noted: &BadBlocks)
    requires { length image.old ≡ image_bytes }
    ensures { image.new ≡ image_of (with_records (disk_of image.old) (fresh_record noted.now) blocks) }
{
    for b in 0..Geometry::BLOCKS {
        set_record(image, b, fresh_record(noted, b));
    }
}

// A fresh disk: all zero but the header and the map (§8.4).
fn write_fresh(image: &mut [u8], name: &[u8], number: u16, bad: &[u16])
    requires { (length image.old ≡ image_bytes) × (length name.now ≤ title_most) × (bad_list_right bad.now ≡ true) }
    ensures { image.new ≡ image_of (format_disk (arguments_of name.now number bad.now)) }
{
    let noted = note_bad(bad);
    let head = header_bytes(name, number, count_noted(&noted));
    fields::fill(image, 0, Geometry::IMAGE_BYTES, 0);
    put_bytes(image, 0, 0, &head);
    write_map(image, &noted);
}

// The call format with a list of bad blocks (§8.4), or 1 (§7.1), or 12 (§7.12) where the disk's name has more than ten
// bytes (§6.15) or the list has a number that cannot be a bad block's. A refusal leaves the image as it was (§7.19). A
// history begins with it (§9.1), and its arguments are all that the model knows then (§9.2); what it does not name is
// zero, bad blocks too (§9.8).
pub fn format_bad(
    image: &mut [u8],
    name: &[u8],
    number: u16,
    bad: &[u16],
) -> Result<(), DiskRefusal>
    ensures { (disk_replied result ≡ (Calls.format image.old (arguments_of name.now number bad.now)).answer) × (image.new ≡ (Calls.format image.old (arguments_of name.now number bad.now)).image) }
{
    if image.len() != Geometry::IMAGE_BYTES {
        return Err(DiskRefusal::ImageLength);
    }
    if name.len() > TITLE_MOST {
        return Err(DiskRefusal::OutOfRange);
    }
    if !bad_list_right(bad) {
        return Err(DiskRefusal::OutOfRange);
    }
    write_fresh(image, name, number, bad);
    Ok(())
}

// The call format without bad blocks: with an empty list (§8.4).
pub fn format(image: &mut [u8], name: &[u8], number: u16) -> Result<(), DiskRefusal>
    ensures { (disk_replied result ≡ (Calls.format image.old (arguments_of name.now number [])).answer) × (image.new ≡ (Calls.format image.old (arguments_of name.now number [])).image) }
{
    format_bad(image, name, number, &[])
}
