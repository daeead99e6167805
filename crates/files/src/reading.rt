// A file's data, by its name.
ghost use Rattle.std.specs.Prelude.{◌≡◌, ℕ, ◌+◌, ◌-◌, ◌%◌, ◌≤◌, ◌<◌, ◌^◌, length};
ghost use Rattle.laws.specs.Changes.{overlay};
ghost use Rattle.sector_rules.specs.Geometry.{sector_bytes, image_bytes};
ghost use Rattle.file_rules.specs.Sizes.{block_bytes, slot_bytes, slot_count};
ghost use Rattle.file_rules.specs.Disk.{disk_of};
ghost use Rattle.file_rules.specs.Map.{file_byte};
ghost use Rattle.file_rules.specs.Directory.{name_right, slot_entry};
ghost use Rattle.file_rules.specs.Calls as Calls;
ghost use Rattle.file_rules.specs.Calls.{read_sound};
ghost use Rattle.files.specs.Refusals.{disk_replied_place};

use crate::blocks::{byte_place, run_length};
use crate::checking::sound_disk;
use crate::directory::Directory;
use crate::loaded::LoadedDisk;
use crate::parts::{file_blocks, nth_block};
use crate::refusals::DiskRefusal;
use crate::sizes::{BLOCK_BYTES, NAME_MOST, SLOT_BYTES};
use crate::sound::SoundDisk;
use sectors::Geometry;

// Whether a file's name has 1 to 36 bytes (§6.15).
#[tactic(auto, unfolding(file_rules::specs::Directory::name_right))]
pub fn name_right(name: &[u8]) -> bool
    ensures { result ≡ name_right name.now }
{
    (1..=NAME_MOST).contains(&name.len())
}

// The bytes of data of the file in slot k: 64 fewer than its length (§6.13).
fn data_length(dir: &Directory<'_>, k: usize) -> usize
    requires { k < slot_count }
    ensures { (result ≡ (slot_entry (disk_of dir.now.disk.now.image.now) k).length - slot_bytes) × (result < 2 ^ 32) }
{
    (dir.read_entry(k).length as usize).saturating_sub(SLOT_BYTES)
}

// Copies n bytes of block b from offset o on, which lie in one sector, to the place c of the buffer; zeros, where there
// is no such block (§6.10).
fn copy_run(image: &[u8], b: usize, o: usize, n: usize, out: &mut [u8], c: usize)
    requires { (length image.now ≡ image_bytes) × (o < block_bytes) × (o % sector_bytes + n ≤ sector_bytes) × (c + n ≤ length out.old) }
    ensures { out.new ≡ overlay out.old c n (λ (j : ℕ). disk_of image.now b (o + j)) }
{
    if Geometry::BLOCKS <= b {
        fields::fill(out, c, n, 0);
        return;
    }
    let at = byte_place(b, o);
    let end = at + n;
    fields::copy_into(out, c, &image[at..end]);
}

// Copies n bytes of block b from offset o on to the place c of the buffer, sector by sector. The runs differ in length, so
// the place is kept beside them.
fn copy_part(image: &[u8], b: usize, o: usize, n: usize, out: &mut [u8], c: usize)
    requires { (length image.now ≡ image_bytes) × (o + n ≤ block_bytes) × (c + n ≤ length out.old) }
    ensures { out.new ≡ overlay out.old c n (λ (j : ℕ). disk_of image.now b (o + j)) }
{
    let mut i = 0;
    while i < n {
        let run = run_length(o + i, n - i);
        copy_run(image, b, o + i, run, out, c + i);
        i += run;
    }
}

// How many bytes can be copied from offset o of a block on: to its end, and n at most.
fn part_length(o: usize, n: usize) -> usize
    requires { (o < block_bytes) × (0 < n) }
    ensures { (0 < result) × (result ≤ n) × (o + result ≤ block_bytes) }
{
    (BLOCK_BYTES - o).min(n)
}

// Copies n bytes of the file in slot k, those after its first 64 (§6.16), to the buffer, block by block (§8.7): byte i
// of the file is in the block with sequence i / 1,536 (§6.10). The first part is shorter than a block, so that the place is
// kept beside the parts.
fn copy_data(disk: &LoadedDisk<'_>, k: usize, n: usize, out: &mut [u8])
    requires { (length disk.now.image.now ≡ image_bytes) × (n < 2 ^ 32) × (n ≤ length out.old) }
    ensures { out.new ≡ overlay out.old 0 n (λ (i : ℕ). file_byte (disk_of disk.now.image.now) k (slot_bytes + i)) }
{
    let row = file_blocks(&disk.map, k);
    let mut i = 0;
    while i < n {
        let at = SLOT_BYTES + i;
        let part = part_length(at % BLOCK_BYTES, n - i);
        match nth_block(&disk.map, &row, k, at / BLOCK_BYTES) {
            Some(b) => copy_part(disk.image, b, at % BLOCK_BYTES, part, out, i),
            None => fields::fill(out, i, part, 0),
        }
        i += part;
    }
}

// Reads the file in slot k to the beginning of the buffer (§8.8), or 16 with the bytes needed (§7.16).
fn read_slot(dir: &Directory<'_>, k: usize, out: &mut [u8]) -> Result<usize, DiskRefusal>
    requires { k < slot_count }
    ensures { (disk_replied_place result ≡ (Calls.deliver (Calls.data_of (disk_of dir.now.disk.now.image.now) k) out.old).answer) × (out.new ≡ (Calls.deliver (Calls.data_of (disk_of dir.now.disk.now.image.now) k) out.old).buffer) }
{
    let needed = data_length(dir, k);
    if out.len() < needed {
        return Err(DiskRefusal::ShortBuffer(needed));
    }
    copy_data(dir.disk, k, needed, out);
    Ok(needed)
}

// Reads a file of a sound disk (§8.7), or 12 (§7.12), 14 (§7.14) or 16 (§7.16).
fn read_sound(sound: &SoundDisk<'_>, name: &[u8], out: &mut [u8]) -> Result<usize, DiskRefusal>
    ensures { (disk_replied_place result ≡ (read_sound (disk_of sound.now.disk.image.now) name.now out.old).answer) × (out.new ≡ (read_sound (disk_of sound.now.disk.image.now) name.now out.old).buffer) }
{
    if !name_right(name) {
        return Err(DiskRefusal::OutOfRange);
    }
    let dir = sound.directory();
    match dir.find_name(name) {
        None => Err(DiskRefusal::NoSuchName),
        Some(k) => read_slot(&dir, k, out),
    }
}

// The call read (§8.7), or 1 (§7.1) or the refusal of the disk (§8.5): a file's data. A file present is read as it was added (§9.6), as
// the model answers it (§9.3). A refusal leaves the buffer as it was (§7.19).
pub fn read(image: &[u8], name: &[u8], out: &mut [u8]) -> Result<usize, DiskRefusal>
    ensures { (disk_replied_place result ≡ (Calls.read image.now name.now out.old).answer) × (out.new ≡ (Calls.read image.now name.now out.old).buffer) }
{
    let sound = sound_disk(image)?;
    read_sound(&sound, name, out)
}
