// Rewriting one sector in an HFE image: its data and their CRC are written where they stand, every other cell stays.
ghost use Rattle.std.specs.Prelude.{◌≡◌, true, false, MatchResult, ◌+◌, ◌≤◌, length};
ghost use Rattle.sector_rules.specs.Hfe.{side_stream};
ghost use Rattle.sector_rules.specs.Search.{sector_of};
ghost use Rattle.sector_rules.specs.Rewritten.{data_place, data_cells, has_field, rewritten, rewrite_reply, rewrite_hfe};
ghost use Rattle.sectors.specs.Refusals.{hfe_replied};
ghost use Rattle.sectors.specs.Laws.Unpacking.Sides.{PlainImage};
ghost use Rattle.sectors.specs.Laws.Rewriting.Changed.{SideBytesFit};
ghost use Rattle.sectors.specs.Laws.Rewriting.Exchanged.{Exchangeable, exchanged};
ghost use Rattle.sectors.specs.Laws.Rewriting.Answered.{WindowOf, DataWritten, Answered};

use crate::hfe::{table_fault, track_length, track_start, version1_fault};
use crate::new_cells::{bytes_after, field_row};
use crate::refusals::HfeRefusal;
use crate::sector_place::SectorPlace;
use crate::side_bytes::CHANGED;
use crate::sides::{image_side, stored_cells};
use crate::unpacking::LEAST_HFE;
use crate::{Exchange, Geometry, SectorField, SideBytes, Trial};
use sector_rules::SectorFault;

// What the sector gives, and the cell place of its data (§8.16).
fn sector_field(hfe: &[u8], at: SectorPlace) -> SectorField
    requires { PlainImage hfe.now }
    ensures { (result.sector ≡ sector_of (side_stream hfe.now at.track at.head) at.track at.head at.sector) × (result.place ≡ data_place (side_stream hfe.now at.track at.head) at.track at.head at.sector) }
{
    let fields = image_side(hfe, Geometry::SIDES * at.track + at.head);
    fields[at.sector - 1]
}

// Judges whether a sector has a data field, its CRC right or wrong (§8.15).
fn judge_field(sector: Result<usize, SectorFault>) -> Result<(), SectorFault>
    ensures { MatchResult result (λ _. has_field sector ≡ true) (λ fault. (sector ≡ Err fault) × (has_field sector ≡ false)) }
{
    match sector {
        Ok(_) | Err(SectorFault::Damaged) => Ok(()),
        Err(fault) => Err(fault),
    }
}

// The bytes of a side that hold the cells from place p on that a rewrite may change, as far as the side goes (§8.16).
fn changed_bytes(hfe: &[u8], at: SectorPlace, p: usize) -> SideBytes
    requires { PlainImage hfe.now × (p + data_cells ≤ length (side_stream hfe.now at.track at.head)) }
    ensures { WindowOf result hfe.now at.track at.head p × SideBytesFit result (length hfe.now) }
{
    let first = p / 8;
    let left = usize::from(track_length(hfe, at.track) / 2) - first;
    SideBytes {
        start: track_start(hfe, at.track),
        side: at.head,
        first,
        count: left.min(CHANGED),
    }
}

// What is exchanged to write the data and their CRC from place p on (§8.16).
fn exchange_at(
    hfe: &[u8],
    at: SectorPlace,
    content: &[u8; Geometry::SECTOR_BYTES],
    p: usize,
) -> Exchange
    requires { PlainImage hfe.now × (p ≡ data_place (side_stream hfe.now at.track at.head) at.track at.head at.sector) × (p + data_cells ≤ length (side_stream hfe.now at.track at.head)) }
    ensures { Exchangeable hfe.now result × (exchanged hfe.now result ≡ rewritten hfe.now at.track at.head at.sector content.now) }
{
    let bytes = changed_bytes(hfe, at, p);
    let cells = stored_cells(hfe, at.track, at.head);
    Exchange {
        bytes,
        old: bytes.take_bytes(hfe),
        new: bytes_after(&cells, p, &field_row(content), bytes),
    }
}

// Writes the data from place p on where the result reads as it must, or 17 (§7.24 §8.17).
fn write_data(
    hfe: &mut [u8],
    at: SectorPlace,
    content: &[u8; Geometry::SECTOR_BYTES],
    p: usize,
) -> Result<(), HfeRefusal>
    requires { PlainImage hfe.old × (p ≡ data_place (side_stream hfe.old at.track at.head) at.track at.head at.sector) × (p + data_cells ≤ length (side_stream hfe.old at.track at.head)) }
    ensures { DataWritten hfe.old at.track at.head at.sector content.now (hfe_replied result) hfe.new }
{
    let trial = Trial {
        exchange: exchange_at(hfe, at, content, p),
        sector: at.image_sector(),
        content,
    };
    if !trial.reads_right(hfe) {
        return Err(HfeRefusal::Misread);
    }
    trial.exchange.put_new(hfe);
    Ok(())
}

// Rewrites the sector, or 4 to 6 for it alone, then 17 (§8.15).
fn rewrite_sector(
    hfe: &mut [u8],
    at: SectorPlace,
    content: &[u8; Geometry::SECTOR_BYTES],
) -> Result<(), HfeRefusal>
    requires { PlainImage hfe.old }
    ensures { Answered hfe.old at.track at.head at.sector content.now (hfe_replied result) hfe.new }
{
    let field = sector_field(hfe, at);
    if let Err(fault) = judge_field(field.sector) {
        return Err(HfeRefusal::BadSector(fault, at.image_sector()));
    }
    write_data(hfe, at, content, field.place)
}

// Writes 512 bytes and their CRC into the data field of one sector of an HFE image (§8.16), or 1, 12, 2, 3, then 4 to 6
// for this sector alone (§8.15), then 17 where the result would not read as §8.17 asks (§7.24). The old CRC may be wrong. A
// refusal leaves the image as it was (§7.19).
pub fn rewrite(
    hfe: &mut [u8],
    track: usize,
    head: usize,
    sector: usize,
    content: &[u8],
) -> Result<(), HfeRefusal>
    ensures { (hfe_replied result ≡ rewrite_reply hfe.old track head sector content.now) × (hfe.new ≡ rewrite_hfe hfe.old track head sector content.now) }
{
    if hfe.len() < LEAST_HFE {
        return Err(HfeRefusal::HfeLength);
    }
    let Some(at) = SectorPlace::new(track, head, sector) else {
        return Err(HfeRefusal::OutOfRange);
    };
    let Ok(content) = <&[u8; Geometry::SECTOR_BYTES]>::try_from(content) else {
        return Err(HfeRefusal::OutOfRange);
    };
    if let Some(o) = version1_fault(hfe) {
        return Err(HfeRefusal::HeaderField(o));
    }
    if let Some(t) = table_fault(hfe) {
        return Err(HfeRefusal::TableEntry(t));
    }
    rewrite_sector(hfe, at, content)
}
