// Unpacking an HFE image: all sectors are judged before the first byte is written.
ghost use Rattle.std.specs.Prelude.{◌≡◌, ◌+◌, ◌*◌, ◌<◌, length};
ghost use Rattle.laws.specs.Lists.{tab};
ghost use Rattle.sector_rules.specs.Geometry.{tracks, sides, sectors, all_sectors, image_bytes};
ghost use Rattle.sector_rules.specs.Hfe.{table_fault};
ghost use Rattle.sector_rules.specs.Unpacked.{unpacked_byte, unpack_reply, unpack_image};
ghost use Rattle.sectors.specs.Refusals.{hfe_replied};
ghost use Rattle.sectors.specs.Laws.Unpacking.SectorsJudged.{Noted, SectorsJudged, AllJudged, SectorsUnpacked, SidesUnpacked};

use crate::Geometry;
use crate::codes::judge_codes;
use crate::hfe::{HfeTracks, hfe_header_fault};
use crate::refusals::HfeRefusal;
use crate::sides::{version_side, write_version_side};

// An HFE image that is read has at least this many bytes (§7.1).
pub const LEAST_HFE: usize = 1024;

// Judges the nine sectors of the n-th side, where those before it are good, and notes the places of their bytes. The
// first bad sector decides, whatever its number (§7.18): its reply is `sectors_reply`.
fn judge_side(
    hfe: &HfeTracks<'_>,
    n: usize,
    places: &mut [usize; Geometry::ALL_SECTORS],
) -> Result<(), HfeRefusal>
    requires { (n < tracks * sides) × Noted hfe.now.bytes.now places.old (sectors * n) }
    ensures { SectorsJudged hfe.now.bytes.now places.new (sectors * (n + 1)) (hfe_replied result) }
{
    let gives = version_side(hfe, n);
    // A `for` over numbers: m is the place in the row of all sectors and, of a bad one, its number.
    for k in 0..Geometry::SECTORS {
        let m = Geometry::SECTORS * n + k;
        match gives[k].sector {
            Ok(place) => places[m] = place,
            Err(fault) => return Err(HfeRefusal::BadSector(fault, m)),
        }
    }
    Ok(())
}

// Judges all sectors to the first bad one, whose reply is `sectors_reply` (§7.18); where none is bad, `places` has the
// places of all sectors' bytes.
fn judge_all(
    hfe: &HfeTracks<'_>,
    places: &mut [usize; Geometry::ALL_SECTORS],
) -> Result<(), HfeRefusal>
    ensures { AllJudged hfe.now.bytes.now places.new (hfe_replied result) }
{
    for n in 0..Geometry::TRACKS * Geometry::SIDES {
        judge_side(hfe, n, places)?;
    }
    Ok(())
}

// Writes all sectors' bytes, which are at these places, side after side (§8.1). That the image has its length stays a
// clause, here and below: after `<&mut [u8; N]>::try_from(image)` the check has no name for what the lent slice holds.
fn write_sides(hfe: &HfeTracks<'_>, places: &[usize; Geometry::ALL_SECTORS], image: &mut [u8])
    requires { (length image.old ≡ image_bytes) × Noted hfe.now.bytes.now places.now all_sectors }
    ensures { image.new ≡ tab (unpacked_byte hfe.now.bytes.now) image_bytes }
{
    for n in 0..Geometry::TRACKS * Geometry::SIDES {
        write_version_side(hfe, n, places, image);
    }
}

// Judges the sectors (`sectors_reply`), and writes them (`unpacked_byte`) where all are good,
// so that a refusal changes no byte (§7.19).
fn unpack_sectors(hfe: &HfeTracks<'_>, image: &mut [u8]) -> Result<(), HfeRefusal>
    requires { length image.old ≡ image_bytes }
    ensures { SectorsUnpacked hfe.now.bytes.now image.old image.new (hfe_replied result) }
{
    let mut places = [0usize; Geometry::ALL_SECTORS];
    judge_all(hfe, &mut places)?;
    write_sides(hfe, &places, image);
    Ok(())
}

// Judges the codes of all sides (`first_code_refusal`) before the sectors (§7.25).
fn unpack_sides(hfe: &HfeTracks<'_>, image: &mut [u8]) -> Result<(), HfeRefusal>
    requires { length image.old ≡ image_bytes }
    ensures { SidesUnpacked hfe.now.bytes.now image.old image.new (hfe_replied result) }
{
    judge_codes(hfe)?;
    unpack_sectors(hfe, image)
}

// Unpacks an HFE image of either version to a block image (§8.1), or 1, the HFE image first (§7.1), 2 with the lowest wrong
// field (§7.2), 3 with the lowest track whose entry is not good (§7.3), 18 with the first wrong code (§7.25), then 4 to 7.
// A refusal leaves the block image as it was (§7.19).
// A packed image with one burst a side at most is refused or gives what was packed (§10.5).
pub fn unpack(hfe: &[u8], image: &mut [u8]) -> Result<(), HfeRefusal>
    ensures { (hfe_replied result ≡ unpack_reply hfe.now (length image.old)) × (image.new ≡ unpack_image hfe.now image.old) }
{
    if hfe.len() < LEAST_HFE {
        return Err(HfeRefusal::HfeLength);
    }
    if image.len() != Geometry::IMAGE_BYTES {
        return Err(HfeRefusal::ImageLength);
    }
    if let Some(o) = hfe_header_fault(hfe) {
        return Err(HfeRefusal::HeaderField(o));
    }
    unpack_sides(&HfeTracks::new(hfe)?, image)
}
