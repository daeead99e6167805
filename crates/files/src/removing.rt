// Remove: a file's blocks and slot are zeroed and its records freed.
ghost use Rattle.std.specs.Prelude.{MatchResult, ◌≡◌};
ghost use Rattle.file_rules.specs.Disk.{disk_of, image_of};
ghost use Rattle.file_rules.specs.Calls as Calls;
ghost use Rattle.file_rules.specs.Calls.{remove_at, remove_sound, disk_kept};
ghost use Rattle.files.specs.Laws.Calling.SoundDisk.{removed};
ghost use Rattle.files.specs.Refusals.{disk_refused, disk_replied};

use crate::checking::sound_disk;
use crate::open::OpenDisk;
use crate::reading::name_right;
use crate::refusals::DiskRefusal;
use crate::sound::SoundDisk;

// The file of slot k is removed: blocks, slot and header are written; the directory keeps its length (§8.13). In a
// history the image is then the model's (§9.5).
fn remove_at(disk: &mut OpenDisk<'_>, k: usize)
    ensures same_image { disk.new.image.ghost_name ≡ disk.old.image.ghost_name }
    ensures written { disk.new.image.now ≡ image_of (remove_at (disk_of disk.old.image.now) k) }
{
    disk.free_blocks(k);
    disk.zero_slot(k);
    disk.update_counts();
}

// The slot of the file that a remove from a sound disk takes away (§8.13), or 12 (§7.12) or 14 (§7.14).
fn slot_to_empty(sound: &SoundDisk<'_>, name: &[u8]) -> Result<usize, DiskRefusal>
    ensures { MatchResult result (λ k. remove_sound (disk_of sound.now.disk.image.now) name.now ≡ removed (disk_of sound.now.disk.image.now) k) (λ refusal. remove_sound (disk_of sound.now.disk.image.now) name.now ≡ disk_kept (disk_of sound.now.disk.image.now) (disk_refused refusal)) }
{
    if !name_right(name) {
        return Err(DiskRefusal::OutOfRange);
    }
    sound
        .directory()
        .find_name(name)
        .ok_or(DiskRefusal::NoSuchName)
}

// The call remove (§8.13), or 1 (§7.1) or the refusal of the disk (§8.5); by it the model's slot is emptied (§9.4). A refusal leaves the
// image as it was (§7.19).
pub fn remove(image: &mut [u8], name: &[u8]) -> Result<(), DiskRefusal>
    ensures { (disk_replied result ≡ (Calls.remove image.old name.now).answer) × (image.new ≡ (Calls.remove image.old name.now).image) }
{
    let sound = sound_disk(image)?;
    let k = slot_to_empty(&sound, name)?;
    let mut disk = OpenDisk {
        map: sound.disk.map,
        image,
    };
    remove_at(&mut disk, k);
    Ok(())
}
