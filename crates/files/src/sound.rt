// A disk that the judgements passed: what list, read, add and remove begin with.
ghost use Rattle.std.specs.Prelude.{◌≡◌, ◌≤◌};
ghost use Rattle.file_rules.specs.Sizes.{slot_count};
ghost use Rattle.file_rules.specs.Disk.{disk_of};
ghost use Rattle.file_rules.specs.Directory.{dir_end};
ghost use Rattle.files.specs.Laws.Judging.SoundImage.{SoundImage, sound_image_prop};

use crate::directory::Directory;
use crate::header::dir_end;
use crate::loaded::LoadedDisk;

// A disk whose image is whole and which no judgement refuses (§7.18).
#[derive(Drop)]
pub struct SoundDisk<'a> {
    pub disk: LoadedDisk<'a>,
    ghost sound: { SoundImage disk.image.now } by { sound_image_prop _ },
}

impl<'a> SoundDisk<'a> {
    // Its directory (§6.11).
    pub fn directory(&self) -> Directory<'_>
        ensures { result.disk.now ≡ self.now.disk }
    {
        Directory::of(&self.disk)
    }

    // Its directory's end (§6.11): no sound disk has more slots than every block's (§7.22).
    pub fn dir_end(&self) -> usize
        ensures { (result ≡ dir_end (disk_of self.now.disk.image.now)) × (result ≤ slot_count) }
    {
        dir_end(self.disk.image)
    }
}
