// Add: a file's blocks and slot are written, and the directory grows where its end is taken.
ghost use Rattle.std.specs.Prelude.{MatchResult, ◌≡◌, ℕ, suc, ◌<◌, ◌≤◌, leb, length};
ghost use Rattle.sector_rules.specs.Geometry.{blocks, image_bytes};
ghost use Rattle.file_rules.specs.Sizes.{name_most};
ghost use Rattle.file_rules.specs.Disk.{disk_of, image_of};
ghost use Rattle.file_rules.specs.Map.{sequences, free_count};
ghost use Rattle.file_rules.specs.Directory.{entry_for, dir_end};
ghost use Rattle.file_rules.specs.Written.{blocks_for};
ghost use Rattle.file_rules.specs.Calls as Calls;
ghost use Rattle.file_rules.specs.Calls.{opens_block, grow_dir, end_after, needed, add_at, add_sound, disk_kept};
ghost use Rattle.files.specs.Laws.Calling.SoundDisk.{FileFits};
ghost use Rattle.files.specs.Refusals.{disk_refused, disk_replied};

use crate::blocks::blocks_of;
use crate::checking::sound_disk;
use crate::header::dir_end;
use crate::loaded::LoadedDisk;
use crate::open::OpenDisk;
use crate::reading::name_right;
use crate::refusals::DiskRefusal;
use crate::sizes::{BLOCK_SLOTS, NAME_MOST, SLOT_BYTES};
use crate::sound::SoundDisk;
use crate::steps::{Stored, entry_bytes, set_end};
use file_rules::Entry;
use sectors::Geometry;

// The blocks of a file with so many bytes of data: 64 bytes more are counted (§6.17).
fn blocks_for(size: usize) -> usize
    requires { size ≤ image_bytes }
    ensures { (result ≡ blocks_for size) × (result ≤ suc blocks) }
{
    blocks_of(SLOT_BYTES + size)
}

// A slot at the directory's end that begins a block takes the lowest free block for the directory (§8.10).
fn grow_dir(disk: &mut OpenDisk<'_>, k: usize, end: usize)
    requires { (k < sequences) × (end ≡ dir_end (disk_of disk.old.image.now)) }
    ensures same_image { disk.new.image.ghost_name ≡ disk.old.image.ghost_name }
    ensures written { disk.new.image.now ≡ image_of (grow_dir (disk_of disk.old.image.now) k) }
{
    if k != end {
        return;
    }
    if k % BLOCK_SLOTS != 0 {
        return;
    }
    let empty = Stored {
        head: b"",
        content: b"",
    };
    disk.give_blocks(0, k / BLOCK_SLOTS, 1, &empty);
}

// The directory grows by a slot where k was its end (§8.9).
fn end_after(image: &mut [u8], k: usize, end: usize)
    requires { (length image.old ≡ image_bytes) × (k < sequences) }
    ensures { image.new ≡ image_of (end_after k end (disk_of image.old)) }
{
    if k != end {
        return;
    }
    set_end(image, k + 1);
}

// A file is added in slot k: a new block of the directory (§8.10); then the file's blocks, the lowest free, in ascending
// order, with sequences from 0 (§8.11); the slot and the header; nothing else (§8.12). In a history
// the image is then the model's (§9.5).
fn add_at(disk: &mut OpenDisk<'_>, k: usize, e: Entry, content: &[u8])
    requires { (k < sequences) × (length content.now ≤ image_bytes) }
    ensures same_image { disk.new.image.ghost_name ≡ disk.old.image.ghost_name }
    ensures written { disk.new.image.now ≡ image_of (add_at (disk_of disk.old.image.now) k e content.now) }
{
    let end = disk.dir_end();
    let head = entry_bytes(e);
    let file = Stored {
        head: &head,
        content,
    };
    grow_dir(disk, k, end);
    disk.give_blocks(k, 0, blocks_for(content.len()), &file);
    disk.write_entry(k, e);
    end_after(disk.image, k, end);
    disk.update_counts();
}

// The entry of a new file (§6.13).
fn entry_for(name: &[u8], date: u32, size: usize) -> Entry
    requires { (length name.now ≤ name_most) × (size ≤ image_bytes) }
    ensures { result ≡ entry_for name.now date size }
{
    let mut row = [0u8; NAME_MOST];
    fields::copy_into(&mut row, 0, name);
    Entry {
        name: row,
        length: (SLOT_BYTES + size) as u32,
        namelen: name.len() as u16,
        date,
    }
}

// Whether slot k opens a block of the directory: it is the slot at the end, and its number is a multiple of 24 (§8.10).
fn opens_block(image: &[u8], k: usize) -> bool
    ensures { result ≡ opens_block (disk_of image.now) k }
{
    (k == dir_end(image)) & (k % BLOCK_SLOTS == 0)
}

// Whether there are blocks enough for a file of so many bytes in slot k (§7.15 §9.7), a new block of the directory
// counted (§8.10). More bytes than the disk has never fit; that is asked first, since 64 more than the size could wrap.
fn has_room(disk: &LoadedDisk<'_>, k: usize, size: usize) -> bool
    ensures { result ≡ leb (needed (disk_of disk.now.image.now) k size) (free_count (disk_of disk.now.image.now)) }
{
    if Geometry::IMAGE_BYTES < size {
        return false;
    }
    let free = disk.count_free();
    let wanted = blocks_for(size);
    if opens_block(disk.image, k) {
        return wanted + 1 <= free;
    }
    wanted <= free
}

// The slot that a new file takes on a sound disk (§8.9), or 12 (§7.12), 13 with the slot that has the name (§7.13), or 15
// (§7.15) where there is no room.
fn slot_to_fill(sound: &SoundDisk<'_>, name: &[u8], content: &[u8]) -> Result<usize, DiskRefusal>
    ensures { MatchResult result (λ k. FileFits (disk_of sound.now.disk.image.now) name.now content.now k) (λ refusal. (date : ℕ) → add_sound (disk_of sound.now.disk.image.now) name.now date content.now ≡ disk_kept (disk_of sound.now.disk.image.now) (disk_refused refusal)) }
{
    if !name_right(name) {
        return Err(DiskRefusal::OutOfRange);
    }
    let dir = sound.directory();
    if let Some(found) = dir.find_name(name) {
        return Err(DiskRefusal::NameTaken(found));
    }
    let k = dir.vacant_slot().unwrap_or(sound.dir_end());
    if !has_room(&sound.disk, k, content.len()) {
        return Err(DiskRefusal::NoRoom);
    }
    Ok(k)
}

// The call add (§8.9), or 1 (§7.1) or the refusal of the disk (§8.5); by it a slot of the model is filled (§9.4). A refusal leaves the
// image as it was (§7.19). In a history the next call is on this image (§9.1).
pub fn add(image: &mut [u8], name: &[u8], date: u32, content: &[u8]) -> Result<(), DiskRefusal>
    ensures { (disk_replied result ≡ (Calls.add image.old name.now date content.now).answer) × (image.new ≡ (Calls.add image.old name.now date content.now).image) }
{
    let sound = sound_disk(image)?;
    let k = slot_to_fill(&sound, name, content)?;
    let e = entry_for(name, date, content.len());
    let mut disk = OpenDisk {
        map: sound.disk.map,
        image,
    };
    add_at(&mut disk, k, e, content);
    Ok(())
}
