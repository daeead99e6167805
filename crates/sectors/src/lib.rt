// Layer 2: the geometry of the disk kind, HFE images and their sectors.
#![tactic(auto)]

ghost use Rattle.std.specs.Prelude.{◌≡◌, ◌%◌, ◌<◌, ◌≤◌, ◌^◌};
ghost use Rattle.sector_rules.specs.Geometry.{sides};
ghost use Rattle.sector_rules.specs.Rewritten.{changed_bytes};

mod codes;
mod comparing;
mod exchanging;
mod faults;
mod hfe;
mod new_cells;
mod packing;
mod placement;
mod refusals;
mod replies;
mod rewriting;
mod search;
mod sector_place;
mod side_bytes;
mod sides;
mod unpacking;
mod written;

pub use faults::wrong_at;
pub use packing::pack;
pub use placement::place;
pub use refusals::{HfeRefusal, reply_of, reply_with_place};
pub use replies::{done, done_with, refused};
pub use rewriting::rewrite;
use sector_rules::SectorFault;
use side_bytes::CHANGED;
pub use unpacking::unpack;

// The disk kind (§1.1).
#[derive(Clone, Copy, Debug, PartialEq, Eq)]
pub struct Geometry {}

// Where a sector stands on a track: its side, and its place there before the track offset moves it (§1.4).
#[derive(Clone, Copy, Debug, PartialEq, Eq)]
pub struct TrackPlace {
    pub side: usize,
    pub place: usize,
}

// Some bytes of one side of a track, as they lie in an HFE image (§2.6): the track begins at `start` in the image, with a
// unit, `side` is 0 or 1, and the bytes are `count` of that side, the first of them its byte `first`; no more than a
// rewrite changes (§8.16).
#[derive(Clone, Copy, Debug, PartialEq, Eq)]
pub struct SideBytes {
    pub start: usize,
    pub side: usize,
    pub first: usize,
    pub count: usize,
    pub ghost near: { start < 2 ^ 26 },
    pub ghost aligned: { start % 512 ≡ 0 },
    pub ghost known: { side < sides },
    pub ghost within: { first < 2 ^ 16 },
    pub ghost few: { count ≤ changed_bytes },
}

// What a rewrite exchanges: bytes of a side as the image has them, and as they are once the data are written (§8.16).
#[derive(Clone, Copy, Debug, PartialEq, Eq)]
pub struct Exchange {
    pub bytes: SideBytes,
    pub old: [u8; CHANGED],
    pub new: [u8; CHANGED],
}

// A rewrite that is tried: what it exchanges, and the image sector that must give the data then (§8.17).
#[derive(Clone, Copy)]
pub struct Trial<'a> {
    pub exchange: Exchange,
    pub sector: usize,
    pub content: &'a [u8; Geometry::SECTOR_BYTES],
}

// What a sector gives (§4.6), and the cell place of its data (§8.16), of no meaning where it has no field: a number and no
// Option, since the rules' `data_place` is a number of every sector.
#[derive(Clone, Copy, Debug, PartialEq, Eq)]
pub struct SectorField {
    pub sector: Result<usize, SectorFault>,
    pub place: usize,
}
