// The list of the held entries.
ghost use Rattle.std.specs.Prelude.{◌≡◌, ◌+◌, ◌≤◌, ◌<◌, length};
ghost use Rattle.laws.specs.Lists.{element_at};
ghost use Rattle.laws.specs.Changes.{overlay, put};
ghost use Rattle.laws.specs.Below.{count};
ghost use Rattle.file_rules.specs.Sizes.{slot_bytes, slot_count};
ghost use Rattle.file_rules.specs.Disk.{disk_of};
ghost use Rattle.file_rules.specs.Directory.{held};
ghost use Rattle.file_rules.specs.Calls as Calls;
ghost use Rattle.file_rules.specs.Calls.{list_sound};
ghost use Rattle.files.specs.Laws.Calling.Delivered.{slot_part};
ghost use Rattle.files.specs.Refusals.{disk_replied_place};

use crate::checking::sound_disk;
use crate::directory::Directory;
use crate::refusals::DiskRefusal;
use crate::sizes::SLOT_BYTES;
use crate::sound::SoundDisk;

// How many slots below the end are held (§6.12).
fn count_held(dir: &Directory<'_>, end: usize) -> usize
    requires { end ≤ slot_count }
    ensures { (result ≡ count end (held (disk_of dir.now.disk.now.image.now))) × (result ≤ slot_count) }
{
    (0..end).filter(|&k| dir.held_slot(k)).count()
}

// Writes slot k at c if it is held (§8.6), and says where the next one goes: one step of `entries`.
fn list_slot(dir: &Directory<'_>, k: usize, out: &mut [u8], c: usize) -> usize
    requires { (k < slot_count) × (c + length (slot_part (disk_of dir.now.disk.now.image.now) k) ≤ length out.old) }
    ensures { (result ≡ c + length (slot_part (disk_of dir.now.disk.now.image.now) k)) × (out.new ≡ put out.old c (slot_part (disk_of dir.now.disk.now.image.now) k)) }
{
    if dir.held_slot(k) {
        fields::copy_into(out, c, &dir.slot_row(k));
        return c + SLOT_BYTES;
    }
    c
}

// Writes the held slots below the end, unchanged and in order (§8.6).
fn list_slots(dir: &Directory<'_>, end: usize, out: &mut [u8])
    requires { (end ≤ slot_count) × (length (Calls.entries (disk_of dir.now.disk.now.image.now) end) ≤ length out.old) }
    ensures { out.new ≡ put out.old 0 (Calls.entries (disk_of dir.now.disk.now.image.now) end) }
{
    let mut c = 0;
    for k in 0..end {
        c = list_slot(dir, k, out, c);
    }
}

// Lists a sound disk (§8.6) to the beginning of the buffer (§8.8), or 16 with the bytes needed (§7.16).
fn list_sound(sound: &SoundDisk<'_>, out: &mut [u8]) -> Result<usize, DiskRefusal>
    ensures { (disk_replied_place result ≡ (list_sound (disk_of sound.now.disk.image.now) out.old).answer) × (out.new ≡ (list_sound (disk_of sound.now.disk.image.now) out.old).buffer) }
{
    let dir = sound.directory();
    let end = sound.dir_end();
    let needed = SLOT_BYTES * count_held(&dir, end);
    if out.len() < needed {
        return Err(DiskRefusal::ShortBuffer(needed));
    }
    list_slots(&dir, end, out);
    Ok(needed)
}

// The call list (§8.6), or 1 (§7.1) or the refusal of the disk (§8.5): the held entries, 64 bytes each, as the model answers it (§9.3).
// A refusal leaves the buffer as it was (§7.19).
pub fn list(image: &[u8], out: &mut [u8]) -> Result<usize, DiskRefusal>
    ensures { (disk_replied_place result ≡ (Calls.list image.now out.old).answer) × (out.new ≡ (Calls.list image.now out.old).buffer) }
{
    let sound = sound_disk(image)?;
    list_sound(&sound, out)
}
