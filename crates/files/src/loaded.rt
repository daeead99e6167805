// A disk as it is read: its image, and its map, which is loaded once.
ghost use Rattle.std.specs.Prelude.{◌≡◌, ◌≤◌};
ghost use Rattle.sector_rules.specs.Geometry.{blocks};
ghost use Rattle.file_rules.specs.Disk.{disk_of};
ghost use Rattle.file_rules.specs.Map.{free_count, bad_count};
ghost use Rattle.files.specs.Laws.Loading.Loaded.{MapLoaded, map_loaded_prop};

use crate::map::{count_bad, count_free, load_map};
use crate::sizes::MapNumbers;

// The block image of a disk, or its first track alone, and the map that stands in it (§6.8).
#[derive(Drop)]
pub struct LoadedDisk<'a> {
    pub image: &'a [u8],
    pub map: MapNumbers,
    ghost loaded: { MapLoaded map (disk_of image.now) } by { map_loaded_prop _ _ },
}

impl<'a> LoadedDisk<'a> {
    // The disk of an image, its map loaded (§6.8).
    pub fn load(image: &'a [u8]) -> LoadedDisk<'a>
        ensures { result.image.now ≡ image.now }
    {
        LoadedDisk {
            image,
            map: load_map(image),
        }
    }

    // How many blocks are free (§6.4).
    pub fn count_free(&self) -> usize
        ensures { (result ≡ free_count (disk_of self.now.image.now)) × (result ≤ blocks) }
    {
        count_free(&self.map)
    }

    // How many blocks are bad (§6.18).
    pub fn count_bad(&self) -> usize
        ensures { (result ≡ bad_count (disk_of self.now.image.now)) × (result ≤ blocks) }
    {
        count_bad(&self.map)
    }
}
