// Why a call is refused, and its reply.
ghost use Rattle.std.specs.Prelude.{◌≡◌, MatchResult};
ghost use Rattle.sector_rules.specs.Replies as Replies;
ghost use Rattle.sectors.specs.Refusals.{hfe_refused};

use crate::Geometry;
use crate::replies::{done, done_with, refused};
use sector_rules::{Reply, SectorFault};

// Why a call on an HFE image, or place, is refused (§7.17).
#[derive(Clone, Copy, Debug, PartialEq, Eq)]
pub enum HfeRefusal {
    // 1: the length of the HFE image is wrong (§7.1).
    HfeLength,
    // 1: the length of the block image is wrong (§7.1).
    ImageLength,
    // 2: the lowest field of the header that is wrong, by its offset (§7.2).
    HeaderField(usize),
    // 3: the lowest track whose table entry is not good (§7.3).
    TableEntry(usize),
    // 4 to 7: why an image sector gives no bytes (§7.4 §7.5 §7.6 §7.7).
    BadSector(SectorFault, usize),
    // 12: an argument is out of range (§7.12).
    OutOfRange,
    // 17: the rewritten image would not read as it must (§7.24).
    Misread,
    // 18: the first wrong code of the n-th side, by its place (§7.25).
    CodeAt(usize, usize),
}

// The reply for an image sector that gives no bytes: 4, 5, 6 or 7, with its track, side and R (§1.2).
fn at_sector(fault: SectorFault, m: usize) -> Reply
    ensures { result ≡ hfe_refused (HfeRefusal.BadSector fault m) }
{
    let number = match fault {
        SectorFault::Missing => 4,
        SectorFault::Repeated => 5,
        SectorFault::NoField => 6,
        SectorFault::Damaged => 7,
    };
    Reply {
        number,
        first: m / Geometry::TRACK_SECTORS,
        second: m % Geometry::TRACK_SECTORS / Geometry::SECTORS,
        third: m % Geometry::SECTORS + 1,
    }
}

// Its reply has the number and up to three places (§7.17).
impl From<HfeRefusal> for Reply {
    ghost from_gives = { λ refusal reply. reply ≡ hfe_refused refusal };

    fn from(refusal: HfeRefusal) -> Reply {
        match refusal {
            HfeRefusal::HfeLength => refused(1, 1),
            HfeRefusal::ImageLength => refused(1, 2),
            HfeRefusal::HeaderField(o) => refused(2, o),
            HfeRefusal::TableEntry(t) => refused(3, t),
            HfeRefusal::BadSector(fault, m) => at_sector(fault, m),
            HfeRefusal::OutOfRange => refused(12, 0),
            HfeRefusal::Misread => refused(17, 0),
            HfeRefusal::CodeAt(n, place) => Reply {
                number: 18,
                first: n / Geometry::SIDES,
                second: n % Geometry::SIDES,
                third: place,
            },
        }
    }
}

// The reply of a call that names no place where it is done (§7.17).
pub fn reply_of<E: Into<Reply>>(outcome: Result<(), E>) -> Reply
    ensures { MatchResult outcome (λ _. result ≡ Replies.done) (λ e. E.converts e result) }
{
    match outcome {
        Ok(()) => done(),
        Err(refusal) => refusal.into(),
    }
}

// The reply of a call that names a place where it is done (§7.17).
pub fn reply_with_place<E: Into<Reply>>(outcome: Result<usize, E>) -> Reply
    ensures { MatchResult outcome (λ place. result ≡ Replies.reply_with 0 place 0 0) (λ e. E.converts e result) }
{
    match outcome {
        Ok(place) => done_with(place),
        Err(refusal) => refusal.into(),
    }
}
