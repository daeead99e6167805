// Why a call is refused, and its reply.
ghost use Rattle.std.specs.Prelude.{◌≡◌};
ghost use Rattle.file_rules.specs.Batch.{at_item};
ghost use Rattle.files.specs.Refusals.{disk_refused, batch_refused, track_replied};

use file_rules::FirstTrack;
use sector_rules::Reply;
use sectors::{done, refused};

// Why a call on a disk is refused (§7.17).
#[derive(Clone, Copy, Debug, PartialEq, Eq)]
pub enum DiskRefusal {
    // 1: the length of the block image or of the first track is wrong (§7.1).
    ImageLength,
    // 8: the lowest field of the header that is wrong, by its offset (§7.8).
    HeaderField(usize),
    // 9: the lowest block whose map record is wrong (§7.9).
    MapRecord(usize),
    // 10: the lowest file that is not sound (§7.10).
    UnsoundFile(usize),
    // 11: the free word is wrong (§7.11).
    FreeWord,
    // 12: an argument is out of range (§7.12).
    OutOfRange,
    // 13: the slot that has the name (§7.13).
    NameTaken(usize),
    // 14: no slot has the name (§7.14).
    NoSuchName,
    // 15: too few blocks are free (§7.15).
    NoRoom,
    // 16: the buffer is too short, with the bytes needed (§7.16).
    ShortBuffer(usize),
    // 19: the good word is wrong (§7.26).
    GoodWord,
}

// Why a batch is refused (§8.19).
#[derive(Clone, Copy, Debug, PartialEq, Eq)]
pub enum BatchRefusal {
    // 1: the length of the block image is wrong (§7.1).
    ImageLength,
    // 20: the first wrong item of the list (§7.27).
    WrongItem(usize),
    // The item that was refused, and why (§8.19).
    Item(usize, DiskRefusal),
}

// What first track counts: the free word, the good word and the number of records that are not free (§8.14).
#[derive(Clone, Copy, Debug, PartialEq, Eq)]
pub struct TrackCounts {
    pub free: usize,
    pub good: usize,
    pub held: usize,
}

// The reply of a refusal: its number and one place at most (§7.17).
impl From<DiskRefusal> for Reply {
    ghost from_gives = { λ refusal reply. reply ≡ disk_refused refusal };

    fn from(refusal: DiskRefusal) -> Reply {
        match refusal {
            DiskRefusal::ImageLength => refused(1, 2),
            DiskRefusal::HeaderField(o) => refused(8, o),
            DiskRefusal::MapRecord(b) => refused(9, b),
            DiskRefusal::UnsoundFile(f) => refused(10, f),
            DiskRefusal::FreeWord => refused(11, 0),
            DiskRefusal::OutOfRange => refused(12, 0),
            DiskRefusal::NameTaken(k) => refused(13, k),
            DiskRefusal::NoSuchName => refused(14, 0),
            DiskRefusal::NoRoom => refused(15, 0),
            DiskRefusal::ShortBuffer(n) => refused(16, n),
            DiskRefusal::GoodWord => refused(19, 0),
        }
    }
}

// A refusal, with the number of its item as its third place (§8.19).
fn at_item(n: usize, r: Reply) -> Reply
    ensures { result ≡ at_item n r }
{
    Reply { third: n, ..r }
}

// The reply of a refused batch: the item that was refused is the third place (§8.19).
impl From<BatchRefusal> for Reply {
    ghost from_gives = { λ refusal reply. reply ≡ batch_refused refusal };

    fn from(refusal: BatchRefusal) -> Reply {
        match refusal {
            BatchRefusal::ImageLength => refused(1, 2),
            BatchRefusal::WrongItem(n) => at_item(n, refused(20, 0)),
            BatchRefusal::Item(n, refusal) => at_item(n, refusal.into()),
        }
    }
}

// The answer of first track as it leaves the library: a refusal has no counts (§8.14).
pub fn track_reply(outcome: Result<TrackCounts, DiskRefusal>) -> FirstTrack
    ensures { result ≡ track_replied outcome }
{
    match outcome {
        Ok(counts) => FirstTrack {
            reply: done(),
            free: counts.free,
            good: counts.good,
            held: counts.held,
        },
        Err(refusal) => FirstTrack {
            reply: refusal.into(),
            free: 0,
            good: 0,
            held: 0,
        },
    }
}
