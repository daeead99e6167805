// The numbers of the disk kind, each once, and the place of a block's sector in the block image.
ghost use Rattle.std.specs.Prelude.{◌≡◌, ◌<◌, ◌/◌, ◌%◌};
ghost use Rattle.sector_rules.specs.Geometry.{block_sectors, block_pair, block_side, sector_place, remainder_at, side_place, backward};
ghost use Rattle.sector_rules.specs.Geometry.{running, to_image_sector, to_running_sector, place_reply};
ghost use Rattle.sectors.specs.Refusals.{hfe_replied_place};

use crate::refusals::HfeRefusal;
use crate::{Geometry, TrackPlace};
use sector_rules::{BlockNumber, ImageSector, RunningSector};

// What is added to a place on side 1 in the table of sides and places (§1.4).
const SIDE_BIT: usize = 0x80;

// The numbers of the disk kind (§1.1).
impl Geometry {
    pub const TRACKS: usize = 80;

    pub const SIDES: usize = 2;

    pub const SECTORS: usize = 9;

    pub const SECTOR_BYTES: usize = 512;

    pub const BLOCK_SECTORS: usize = 3;

    // How far a track's places are moved against those of the track before it (§1.5).
    pub const TRACK_OFFSET: usize = 5;

    pub const TRACK_SECTORS: usize = Geometry::SIDES * Geometry::SECTORS;

    pub const ALL_SECTORS: usize = Geometry::TRACKS * Geometry::TRACK_SECTORS;

    pub const BLOCKS: usize = Geometry::ALL_SECTORS / Geometry::BLOCK_SECTORS;

    pub const IMAGE_BYTES: usize = Geometry::ALL_SECTORS * Geometry::SECTOR_BYTES;

    // Blocks on a side of a track, and so block pairs of a track (§1.4).
    const SIDE_BLOCKS: usize = Geometry::SECTORS / Geometry::BLOCK_SECTORS;

    // Side and place of a remainder by 18 (§1.4): the side is the block's parity, the place is that of sector and block
    // pair.
    fn track_place(remainder: usize) -> TrackPlace
        requires { remainder < Geometry.TRACK_SECTORS }
        ensures { (result.side ≡ block_side (remainder / block_sectors)) × (result.place ≡ sector_place (remainder % block_sectors) (block_pair (remainder / block_sectors))) }
    {
        let block = remainder / Geometry::BLOCK_SECTORS;
        let sector = remainder % Geometry::BLOCK_SECTORS;
        let pair = block / Geometry::SIDES;
        TrackPlace {
            side: block % Geometry::SIDES,
            place: Geometry::SIDE_BLOCKS * sector + pair,
        }
    }

    // The remainder by 18 that stands at a side and place (§1.6).
    fn remainder_at(at: TrackPlace) -> usize
        requires { (at.side < Geometry.SIDES) × (at.place < Geometry.SECTORS) }
        ensures { result ≡ remainder_at at.side at.place }
    {
        let pair = at.place % Geometry::SIDE_BLOCKS;
        let sector = at.place / Geometry::SIDE_BLOCKS;
        let block = Geometry::SIDES * pair + at.side;
        Geometry::BLOCK_SECTORS * block + sector
    }

    // The table of sides and places (§1.4), as the disk header has it (§6.7).
    pub fn side_place_table() -> [u8; Geometry::TRACK_SECTORS]
        ensures { result ≡ side_place }
    {
        std::array::from_fn(|remainder| {
            let at = Geometry::track_place(remainder);
            // By `as`, here and below: at most 137, so that `try_from` would leave a refusal that cannot come.
            (SIDE_BIT * at.side + at.place) as u8
        })
    }

    // The backward table (§1.6), as the disk header has it (§6.7).
    pub fn backward_table() -> [u8; Geometry::TRACK_SECTORS]
        ensures { result ≡ backward }
    {
        std::array::from_fn(|i| {
            let at = TrackPlace {
                side: i / Geometry::SECTORS,
                place: i % Geometry::SECTORS,
            };
            Geometry::remainder_at(at) as u8
        })
    }

    // The running sector of sector s of a block (§1.3). Here and below the bound is a clause and no ghost field: layer 3
    // numbers blocks before it judges them.
    pub fn running(b: BlockNumber, s: usize) -> RunningSector
        requires { (b.0 < Geometry.BLOCKS) × (s < Geometry.BLOCK_SECTORS) }
        ensures { result.0 ≡ running b.0 s }
    {
        RunningSector(Geometry::BLOCK_SECTORS * b.0 + s)
    }

    // The image sector of a running sector (§1.5).
    pub fn place(n: RunningSector) -> ImageSector
        requires { n.0 < Geometry.ALL_SECTORS }
        ensures { result.0 ≡ to_image_sector n.0 }
    {
        let track = n.0 / Geometry::TRACK_SECTORS;
        let at = Geometry::track_place(n.0 % Geometry::TRACK_SECTORS);
        let place = (at.place + Geometry::TRACK_OFFSET * track) % Geometry::SECTORS;
        ImageSector(Geometry::TRACK_SECTORS * track + Geometry::SECTORS * at.side + place)
    }

    // The running sector of an image sector (§1.6).
    pub fn running_of(m: ImageSector) -> RunningSector
        requires { m.0 < Geometry.ALL_SECTORS }
        ensures { result.0 ≡ to_running_sector m.0 }
    {
        let track = m.0 / Geometry::TRACK_SECTORS;
        let side = m.0 % Geometry::TRACK_SECTORS / Geometry::SECTORS;
        let place = (m.0 % Geometry::SECTORS + (Geometry::SECTORS - Geometry::TRACK_OFFSET) * track)
            % Geometry::SECTORS;
        let remainder = Geometry::remainder_at(TrackPlace { side, place });
        RunningSector(Geometry::TRACK_SECTORS * track + remainder)
    }
}

// The call place: the image sector of a block's sector (§8.3), or 12 where block or sector is out of range (§7.12).
pub fn place(block: usize, sector: usize) -> Result<usize, HfeRefusal>
    ensures { hfe_replied_place result ≡ place_reply block sector }
{
    if block >= Geometry::BLOCKS || sector >= Geometry::BLOCK_SECTORS {
        return Err(HfeRefusal::OutOfRange);
    }
    let at = Geometry::place(Geometry::running(BlockNumber(block), sector));
    Ok(at.0)
}
