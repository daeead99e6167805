// The directory: where its slots stand in the image, what they hold, and the search for a name.
ghost use Rattle.std.specs.Prelude.{◌≡◌, not, ◌&&◌, ℕ, ◌≤◌, ◌<◌, min, eqb, ltb, length};
ghost use Rattle.laws.specs.Lists.{tab, element_at};
ghost use Rattle.laws.specs.Below.{all, first_below};
ghost use Rattle.laws.specs.Numbers.{at16};
ghost use Rattle.sector_rules.specs.Geometry.{image_bytes};
ghost use Rattle.file_rules.specs.Sizes.{slot_bytes, slot_count, name_most};
ghost use Rattle.file_rules.specs.Disk.{disk_of};
ghost use Rattle.file_rules.specs.Directory.{lowered, name_eq, entry_of, name_of, slot_byte, slot_entry, slot_name, held, dir_end};
ghost use Rattle.files.specs.Laws.Loading.Slots.{slot_place, Located, located_prop};

use crate::block_row::BlockRow;
use crate::blocks::byte_place;
use crate::header::dir_end;
use crate::loaded::LoadedDisk;
use crate::parts::file_blocks;
use crate::sizes::{BLOCK_SLOTS, BLOCKS, NAME_MOST, SLOT_BYTES};
use file_rules::Entry;
use sectors::Geometry;

// The directory of a disk whose image is whole: the directory's blocks in sequence (§6.11).
#[derive(Drop)]
pub struct Directory<'a> {
    pub disk: &'a LoadedDisk<'a>,
    pub blocks: BlockRow<BLOCKS>,
    ghost whole: { length disk.now.image.now ≡ image_bytes },
    ghost located: { Located blocks (disk_of disk.now.image.now) } by { located_prop _ _ },
}

impl<'a> Directory<'a> {
    // The directory of a disk, by its loaded map (§6.11).
    pub fn of(disk: &'a LoadedDisk<'a>) -> Directory<'a>
        requires { length disk.now.image.now ≡ image_bytes }
        ensures { result.disk.now ≡ disk.now }
    {
        Directory {
            disk,
            blocks: file_blocks(&disk.map, 0),
        }
    }

    // Where slot k is in the image, so where the bytes `slot_byte` stand; its end, where the slot has no block. A slot
    // lies in one sector (§6.11).
    pub fn slot_place(&self, k: usize) -> usize
        requires { k < slot_count }
        ensures { (result ≡ slot_place self.now.blocks k) × (result ≤ image_bytes) }
    {
        match self.blocks.get(k / BLOCK_SLOTS) {
            Some(b) => byte_place(b, k % BLOCK_SLOTS * SLOT_BYTES),
            None => Geometry::IMAGE_BYTES,
        }
    }

    // The 64 bytes of slot k (§6.11).
    pub fn slot_row(&self, k: usize) -> [u8; SLOT_BYTES]
        requires { k < slot_count }
        ensures { result ≡ tab (slot_byte (disk_of self.now.disk.now.image.now) k) slot_bytes }
    {
        fields::bytes_at(self.disk.image, self.slot_place(k))
    }

    // Whether slot k is held; slot 0 never is (§6.12). Inlined into the walk of all file numbers it makes each of its
    // turns longer, also those of numbers past the directory's end.
    #[inline(never)]
    pub fn held_slot(&self, k: usize) -> bool
        requires { k < slot_count }
        ensures { result ≡ held (disk_of self.now.disk.now.image.now) k }
    {
        k != 0 && !vacant_at(self.disk.image, self.slot_place(k))
    }

    // The entry of slot k (§6.13).
    pub fn read_entry(&self, k: usize) -> Entry
        requires { k < slot_count }
        ensures { result ≡ slot_entry (disk_of self.now.disk.now.image.now) k }
    {
        read_entry(self.disk.image, self.slot_place(k))
    }

    // Whether slot k is held and has this name; the name is looked at first, since it seldom fits.
    pub fn slot_has_name(&self, k: usize, name: &[u8]) -> bool
        requires { k < slot_count }
        ensures { result ≡ (held (disk_of self.now.disk.now.image.now) k && name_eq (slot_name (disk_of self.now.disk.now.image.now) k) name.now) }
    {
        entry_has_name(self.disk.image, self.slot_place(k), name) && self.held_slot(k)
    }

    // The held slot of this name, where there is one (§7.13 §7.14): `find_name`.
    pub fn find_name(&self, name: &[u8]) -> Option<usize>
        requires { dir_end (disk_of self.now.disk.now.image.now) ≤ slot_count }
        ensures { result ≡ first_below (λ (k : ℕ). held (disk_of self.now.disk.now.image.now) k && name_eq (slot_name (disk_of self.now.disk.now.image.now) k) name.now) (dir_end (disk_of self.now.disk.now.image.now)) }
    {
        (0..dir_end(self.disk.image)).find(|&k| self.slot_has_name(k, name))
    }

    // The lowest vacant slot from 1 on, since slot 0 is not taken (§6.12), where the directory has one (§8.9):
    // `vacant_slot`.
    pub fn vacant_slot(&self) -> Option<usize>
        requires { dir_end (disk_of self.now.disk.now.image.now) ≤ slot_count }
        ensures { result ≡ first_below (λ (k : ℕ). ltb 0 k && not (held (disk_of self.now.disk.now.image.now) k)) (dir_end (disk_of self.now.disk.now.image.now)) }
    {
        (0..dir_end(self.disk.image)).find(|&k| 0 < k && !self.held_slot(k))
    }
}

// Whether the 64 bytes at a place are all zero, so that a slot there is vacant (§6.12).
fn vacant_at(image: &[u8], at: usize) -> bool
    ensures { result ≡ all (λ (i : ℕ). eqb (element_at image.now at i) 0) slot_bytes }
{
    (0..SLOT_BYTES).all(|i| fields::byte(image, at, i) == 0)
}

// The entry in the 64 bytes at a place (§6.13).
fn read_entry(image: &[u8], at: usize) -> Entry
    requires { at ≤ image_bytes }
    ensures { result ≡ entry_of (element_at image.now at) }
{
    Entry {
        name: fields::bytes_at(image, at + 16),
        length: fields::high4(image, at),
        namelen: fields::high2(image, at + 14),
        date: fields::high4(image, at + 52),
    }
}

// How many bytes the name in the slot at a place has: 36 at most (§6.13).
fn name_length(image: &[u8], at: usize) -> usize
    requires { at ≤ image_bytes }
    ensures { result ≡ min (at16 (element_at image.now at) 14) name_most }
{
    usize::from(fields::high2(image, at + 14)).min(NAME_MOST)
}

// The name in an entry: as many of its bytes as it says, 36 at most (§6.13).
pub fn name_of(entry: &Entry) -> &[u8]
    ensures { result.now ≡ name_of entry.now }
{
    let n = usize::from(entry.namelen).min(NAME_MOST);
    &entry.name[..n]
}

// A byte of a name as it is compared: a capital letter, A to Z, counts as its small one (§6.14).
#[tactic(auto, unfolding(file_rules::specs::Directory::lowered))]
pub fn lowered_byte(x: u8) -> u8
    ensures { result ≡ lowered x }
{
    x.to_ascii_lowercase()
}

// Whether two bytes of names agree: equal once they are lowered (§6.14). Most that agree do so as they stand, which is
// looked at first.
fn bytes_agree(x: u8, y: u8) -> bool
    ensures { result ≡ eqb (lowered x) (lowered y) }
{
    x == y || lowered_byte(x) == lowered_byte(y)
}

// Whether the slot at a place has this name: the same length, and at each place bytes that are equal once they are
// lowered (§6.14).
fn entry_has_name(image: &[u8], at: usize, name: &[u8]) -> bool
    requires { at ≤ image_bytes }
    ensures { result ≡ name_eq (name_of (entry_of (element_at image.now at))) name.now }
{
    name_length(image, at) == name.len()
        && name
            .iter()
            .enumerate()
            .all(|(i, x)| bytes_agree(fields::byte(image, at + 16, i), *x))
}
