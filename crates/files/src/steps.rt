// The single steps of format, add and remove on the block image.
ghost use Rattle.std.specs.Prelude.{◌≡◌, ℕ, ◌+◌, ◌*◌, ◌<◌, ◌^◌, length};
ghost use Rattle.laws.specs.Lists.{tab};
ghost use Rattle.sector_rules.specs.Geometry.{sector_bytes, block_sectors, blocks, image_bytes};
ghost use Rattle.file_rules.specs.Sizes.{slot_bytes};
ghost use Rattle.file_rules.specs.Disk.{disk_of, image_of};
ghost use Rattle.file_rules.specs.Map.{sequences};
ghost use Rattle.file_rules.specs.Directory.{entry_byte};
ghost use Rattle.file_rules.specs.Written.{part, zeros, set_block, set_record, set_end, step_update};
ghost use Rattle.files.specs.Laws.Writing.Steps.{FitsRecord, stored_row};
ghost use Rattle.files.specs.Laws.Writing.Stored.{patched};

use crate::blocks::block_word4;
use crate::records::encoded_record;
use crate::sizes::{BLOCK_BYTES, MAP_START, RECORD_BYTES, SLOT_BYTES};
use crate::store::{put_bytes, put_run, put_word, zero_bytes};
use file_rules::{Entry, Record};
use sectors::Geometry;
use std::array;

// The record of block b (§6.8).
pub fn set_record(image: &mut [u8], b: usize, r: Record)
    requires { (length image.old ≡ image_bytes) × (b < blocks) × FitsRecord r }
    ensures { image.new ≡ image_of (set_record (disk_of image.old) b r) }
{
    let bytes = encoded_record(r);
    put_bytes(image, 0, MAP_START + RECORD_BYTES * b, &bytes);
}

// Block b becomes zero.
pub fn zero_block(image: &mut [u8], b: usize)
    requires { length image.old ≡ image_bytes }
    ensures { image.new ≡ image_of (set_block (disk_of image.old) b zeros) }
{
    zero_bytes(image, b, 0, BLOCK_BYTES);
}

// The 64 bytes of an entry as written (§6.13).
pub fn entry_bytes(e: Entry) -> [u8; SLOT_BYTES]
    ensures { result ≡ tab (entry_byte e) slot_bytes }
{
    let mut row = [0u8; SLOT_BYTES];
    fields::put_high4(&mut row, 0, e.length);
    fields::put_high2(&mut row, 14, e.namelen);
    fields::copy_into(&mut row, 16, &e.name);
    fields::put_high4(&mut row, 52, e.date);
    row
}

// A file as it is written: the bytes of its entry, then its data, then zeros (§6.16).
#[derive(Clone, Copy)]
pub struct Stored<'a> {
    pub head: &'a [u8],
    pub content: &'a [u8],
}

impl<'a> Stored<'a> {
    // Byte i of the file (§6.16). With an entry's bytes this is `stored_byte`.
    fn byte(&self, i: usize) -> u8
        ensures { result ≡ stored_row self.now.head.now self.now.content.now i }
    {
        if i < SLOT_BYTES {
            fields::byte(self.head, i, 0)
        } else {
            fields::byte(self.content, i - SLOT_BYTES, 0)
        }
    }

    // The 512 bytes of the file from byte i on.
    fn sector(&self, i: usize) -> [u8; Geometry::SECTOR_BYTES]
        requires { i < 2 ^ 32 }
        ensures { result ≡ tab (λ (k : ℕ). stored_row self.now.head.now self.now.content.now (i + k)) sector_bytes }
    {
        array::from_fn(|k| self.byte(i + k))
    }
}

// Sector p of block b becomes the bytes of a file from byte i on: as they stand in its data where all of them lie there.
fn put_sector(image: &mut [u8], b: usize, p: usize, i: usize, file: &Stored)
    requires { (length image.old ≡ image_bytes) × (p < block_sectors) × (i < 2 ^ 32) }
    ensures { image.new ≡ image_of (patched (disk_of image.old) b (p * sector_bytes) sector_bytes (λ (k : ℕ). stored_row file.now.head.now file.now.content.now (i + k))) }
{
    let end = i + Geometry::SECTOR_BYTES - SLOT_BYTES;
    if SLOT_BYTES <= i && end <= file.content.len() {
        let from = i - SLOT_BYTES;
        put_run(
            image,
            b,
            p * Geometry::SECTOR_BYTES,
            &file.content[from..end],
        );
        return;
    }
    put_run(image, b, p * Geometry::SECTOR_BYTES, &file.sector(i));
}

// Block b becomes part s of a file, sector by sector.
pub fn put_part(image: &mut [u8], b: usize, s: usize, file: &Stored)
    requires { (length image.old ≡ image_bytes) × (s < sequences) }
    ensures { image.new ≡ image_of (set_block (disk_of image.old) b (part (stored_row file.now.head.now file.now.content.now) s)) }
{
    for p in 0..Geometry::BLOCK_SECTORS {
        put_sector(
            image,
            b,
            p,
            s * BLOCK_BYTES + p * Geometry::SECTOR_BYTES,
            file,
        );
    }
}

// The directory's length becomes k slots, in whole blocks and bytes more (§6.6).
pub fn set_end(image: &mut [u8], k: usize)
    requires { (length image.old ≡ image_bytes) × (k < 2 ^ 32) }
    ensures { image.new ≡ image_of (set_end (disk_of image.old) k) }
{
    put_word::<2>(image, 0, 34, k * SLOT_BYTES / BLOCK_BYTES);
    put_word::<2>(image, 0, 36, k * SLOT_BYTES % BLOCK_BYTES);
}

// The update count grows by 1; what no longer fits its four bytes is left out, so that 0 follows 2^32 - 1 (§6.3).
pub fn step_update(image: &mut [u8])
    requires { length image.old ≡ image_bytes }
    ensures { image.new ≡ image_of (step_update (disk_of image.old)) }
{
    let updates = block_word4(image, 0, 16) as usize;
    put_word::<4>(image, 0, 16, updates + 1);
}
