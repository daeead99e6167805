// Sides of version 3 images: codes are judged on all of them before any sector is, and the cells that a side's bytes give
// are made in one buffer, side after side.
ghost use Rattle.std.specs.Prelude.{true, ◌≡◌, ◌*◌, ◌/◌, ◌%◌, ◌<◌, length};
ghost use Rattle.cells.specs.Stream.{stream};
ghost use Rattle.sector_rules.specs.Geometry.{tracks, sides};
ghost use Rattle.sector_rules.specs.Hfe.{is_version3, side_stream};
ghost use Rattle.sector_rules.specs.Unpacked.{side_refusal};
ghost use Rattle.sectors.specs.Laws.Unpacking.Codes.{cell_bytes, refusal_reply, first_code_reply};
ghost use Rattle.sectors.specs.Refusals.{hfe_replied};

use crate::Geometry;
use crate::hfe::{HfeTracks, is_version3, track_length, track_side};
use crate::refusals::HfeRefusal;
use cells::Side;

// Bytes of a buffer that the cells of every side fit in: half of a length of 16 bits (§2.4), and one byte more.
pub const CELL_BYTES: usize = 32768;

// Refusal 18 of the n-th side, where its first code that is wrong stands (§2.9 §7.25), or done.
fn side_codes(hfe: &HfeTracks<'_>, n: usize) -> Result<(), HfeRefusal>
    requires { n < tracks * sides }
    ensures { hfe_replied result ≡ refusal_reply (side_refusal hfe.now.bytes.now n) }
{
    let track = n / Geometry::SIDES;
    let head = n % Geometry::SIDES;
    let part = hfe.track_part(track);
    let side = track_side(hfe.bytes, track, head);
    match cells::judge_codes(part, side) {
        Some(place) => Err(HfeRefusal::CodeAt(n, place)),
        None => Ok(()),
    }
}

// Refusal 18 of the first side of a version 3 image that has a wrong code, by track and then side (§7.25), or done.
fn all_codes(hfe: &HfeTracks<'_>) -> Result<(), HfeRefusal>
    requires { is_version3 hfe.now.bytes.now ≡ true }
    ensures { hfe_replied result ≡ first_code_reply hfe.now.bytes.now }
{
    for n in 0..Geometry::TRACKS * Geometry::SIDES {
        side_codes(hfe, n)?;
    }
    Ok(())
}

// Refusal 18, or done: version 1 has no codes (§2.7 §7.25).
pub fn judge_codes(hfe: &HfeTracks<'_>) -> Result<(), HfeRefusal>
    ensures { hfe_replied result ≡ first_code_reply hfe.now.bytes.now }
{
    if is_version3(hfe.bytes) {
        all_codes(hfe)
    } else {
        Ok(())
    }
}

// Makes the cells of a side of a version 3 image in the buffer (§2.8), and says where they lie there.
pub fn side_cells(hfe: &HfeTracks<'_>, track: usize, head: usize, buffer: &mut [u8]) -> Side
    requires { (is_version3 hfe.now.bytes.now ≡ true) × (track < tracks) × (head < sides) × (length buffer.old ≡ cell_bytes) }
    ensures { stream buffer.new result ≡ side_stream hfe.now.bytes.now track head }
{
    let part = hfe.track_part(track);
    // As in `track_side`; here the type of the length, 16 bits, says that the cells fit the buffer.
    let side = cells::hfe_side(head as u8, track_length(hfe.bytes, track));
    cells::coded_cells(part, side, buffer)
}
