// Track 0 alone: the judgements 1, 8, 9, 19 and 11, and three counts. Block 0 lies on it.
ghost use Rattle.std.specs.Prelude.{◌≡◌, ◌≤◌, length};
ghost use Rattle.laws.specs.Options.{or_else};
ghost use Rattle.sector_rules.specs.Geometry.{sector_bytes};
ghost use Rattle.file_rules.specs.Disk.{disk_of};
ghost use Rattle.file_rules.specs.Check.{start_refusal, refusal11};
ghost use Rattle.file_rules.specs.FirstTrack as Tracks;
ghost use Rattle.files.specs.Refusals.{refusal_of, track_replied};

use crate::checking::{judge_free, judge_start};
use crate::header::head_word;
use crate::loaded::LoadedDisk;
use crate::refusals::{DiskRefusal, TrackCounts};
use crate::sizes::TRACK_BYTES;
use sectors::Geometry;

// The free word, the good word, and the number of records that are not free, bad ones among them (§8.14).
fn counted_track(track: &LoadedDisk<'_>) -> TrackCounts
    ensures { track_replied (Ok result) ≡ Tracks.counted (disk_of track.now.image.now) }
{
    let free = track.count_free();
    TrackCounts {
        free: head_word(track.image, 20),
        good: head_word(track.image, 22),
        held: Geometry::BLOCKS - free,
    }
}

// The judgements 8, 9, 19 and 11, in order (§8.14).
fn judge_track(track: &LoadedDisk<'_>) -> Result<(), DiskRefusal>
    requires { sector_bytes ≤ length track.now.image.now }
    ensures { refusal_of result ≡ or_else (start_refusal (disk_of track.now.image.now)) (refusal11 (disk_of track.now.image.now)) }
{
    judge_start(track)?;
    judge_free(track)
}

// The call first track (§8.14), or 1 (§7.1).
pub fn first_track(track: &[u8]) -> Result<TrackCounts, DiskRefusal>
    ensures { track_replied result ≡ Tracks.first_track_result track.now }
{
    if track.len() != TRACK_BYTES {
        return Err(DiskRefusal::ImageLength);
    }
    let track = LoadedDisk::load(track);
    judge_track(&track)?;
    Ok(counted_track(&track))
}
