// A sector of the disk by track, side and R, and where it stands in the block image.
ghost use Rattle.std.specs.Prelude.{◌≡◌, ◌&&◌, ◌*◌, ◌<◌, ◌≤◌, ltb, leb, is_some, IfSome};
ghost use Rattle.sector_rules.specs.Geometry.{tracks, sides, sectors, sector_bytes, all_sectors};
ghost use Rattle.sector_rules.specs.Packed.{image_sector_of};

use crate::Geometry;

// A sector of the disk: its track, its side and its R (§1.2).
#[derive(Clone, Copy, Debug, PartialEq, Eq)]
pub struct SectorPlace {
    pub track: usize,
    pub head: usize,
    pub sector: usize,
    pub ghost track_known: { track < tracks },
    pub ghost head_known: { head < sides },
    pub ghost numbered: { 1 ≤ sector },
    pub ghost few: { sector ≤ sectors },
}

impl SectorPlace {
    // The sector that track, side and R name, where they name one (§7.12 §8.15).
    pub fn new(track: usize, head: usize, sector: usize) -> Option<SectorPlace>
        ensures test { is_some result ≡ (ltb track tracks && ltb head sides && leb 1 sector && leb sector sectors) }
        ensures named { IfSome result (λ at. (at.track ≡ track) × (at.head ≡ head) × (at.sector ≡ sector)) }
    {
        if track < Geometry::TRACKS
            && head < Geometry::SIDES
            && 1 <= sector
            && sector <= Geometry::SECTORS
        {
            return Some(SectorPlace {
                track,
                head,
                sector,
            });
        }
        None
    }

    // Its image sector (§1.2).
    pub fn image_sector(self) -> usize
        ensures { (result ≡ image_sector_of self.track self.head self.sector) × (result < all_sectors) }
    {
        Geometry::TRACK_SECTORS * self.track + Geometry::SECTORS * self.head + (self.sector - 1)
    }

    // Where it begins in the block image (§1.2).
    pub fn image_start(self) -> usize
        ensures { result ≡ sector_bytes * image_sector_of self.track self.head self.sector }
    {
        Geometry::SECTOR_BYTES * self.image_sector()
    }
}
