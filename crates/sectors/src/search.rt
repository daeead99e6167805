// Headers, the search for the nine sectors of a side, and data fields.
ghost use Rattle.std.specs.Prelude.{◌≡◌, ◌+◌, ◌<◌, ◌^◌, IfSome};
ghost use Rattle.std.specs.Option.{unwrap_or};
ghost use Rattle.cells.specs.Stream.{from};
ghost use Rattle.sector_rules.specs.Search.{crc_holds, header_of, field_at, field_of, sector_found};
ghost use Rattle.sector_rules.specs.Rewritten.{field_place, data_place_of};
ghost use Rattle.sector_rules.specs.Search.{more_found};
ghost use Rattle.sectors.specs.Laws.Reading.Search.{Indexed, Scanned};

use crate::{Geometry, SectorField};
use cells::Cells;
use sector_rules::{Found, Id, SectorFault};

// The byte after the run of a header (§4.1).
pub const HEADER_MARK: u8 = 0xFE;

// The byte after the run of a data field (§4.5).
pub const DATA_MARK: u8 = 0xFB;

// N of a header that belongs to a sector: it stands for 512 bytes (§4.2).
pub const SIZE_CODE: u8 = 2;

// Cells of a header, from its first sync byte to the end of its CRC (§4.1).
const HEADER_CELLS: usize = 160;

// Bytes of a data field before its CRC: three sync bytes, the mark and a sector (§4.5).
const FIELD_BYTES: usize = 4 + Geometry::SECTOR_BYTES;

// Cells of a data field with its CRC (§4.5).
const FIELD_CELLS: usize = 16 * (FIELD_BYTES + 2);

// The field begins at most this many cells after the end of the header (§4.4).
const GAP_CELLS: usize = 688;

// The highest R of a side (§4.2); by `as`, since `try_from` is no const fn.
const LAST_SECTOR: u8 = Geometry::SECTORS as u8;

// Whether the CRC of the n bytes from place i on follows them (§3.9). Damage that it always detects: §10.2.
fn crc_holds(cells: &Cells, i: usize, n: usize) -> bool
    requires { n < 2 ^ 16 }
    ensures { result ≡ crc_holds (from cells.now i) n }
{
    let high = u16::from(cells.data_byte(i, 16 * n));
    let low = u16::from(cells.data_byte(i, 16 * n + 16));
    cells.crc_at(i, 0, n) == high * 256 + low
}

// The header at place i, or none (§4.1).
pub fn header_at(cells: &Cells, i: usize) -> Option<Id>
    ensures { result ≡ header_of (from cells.now i) }
{
    if cells.cells_from(i) < HEADER_CELLS {
        return None;
    }
    if cells.three_sync(i) && cells.data_byte(i, 48) == HEADER_MARK && crc_holds(cells, i, 8) {
        return Some(Id {
            c: cells.data_byte(i, 64),
            h: cells.data_byte(i, 80),
            r: cells.data_byte(i, 96),
            n: cells.data_byte(i, 112),
        });
    }
    None
}

// The answer with one more place found (§4.3): `found_of` of one place more.
fn more(f: Found, i: usize) -> Found
    ensures { result ≡ more_found f i }
{
    match f {
        Found::Nothing => Found::One(i),
        Found::One(_) | Found::Several => Found::Several,
    }
}

// Which of the nine sectors of this track and side a header belongs to (`is_header_of`), if to any, from 0 (§4.2).
fn sector_index(header: Option<Id>, track: u8, head: u8) -> Option<usize>
    ensures { Indexed result header track head }
{
    let id = header?;
    if (id.c == track) & (id.h == head) & (id.n == SIZE_CODE) {
        if (1..=LAST_SECTOR).contains(&id.r) {
            return Some(usize::from(id.r - 1));
        }
    }
    None
}

// The search's answer (`find_sector`) for each of the nine sectors of a side: each place is tried once (§4.3).
pub fn scan(cells: &Cells, track: u8, head: u8) -> [Found; Geometry::SECTORS]
    ensures { Scanned result cells.now track head }
{
    let mut found = [Found::Nothing; Geometry::SECTORS];
    // A `for`: as a fold the row of nine answers would go from turn to turn, of which each changes one at the most.
    let places = cells.len();
    for i in 0..places {
        if let Some(k) = sector_index(header_at(cells, i), track, head) {
            found[k] = more(found[k], i);
        }
    }
    found
}

// The field whose run begins at place j: whether it is present (§4.5), and what the sector gives by it, its bytes 64
// cells after the run's beginning or a CRC that does not hold (§4.6). With detectable damage it is refused (§10.3).
fn field_at(cells: &Cells, j: usize) -> Result<usize, SectorFault>
    requires { j < 2 ^ 33 }
    ensures { result ≡ field_at cells.now j }
{
    let data_place = j + 64;
    if cells.cells_from(j) < FIELD_CELLS {
        return Err(SectorFault::NoField);
    }
    if cells.data_byte(j, 48) == DATA_MARK {
        if crc_holds(cells, j, FIELD_BYTES) {
            return Ok(data_place);
        }
        return Err(SectorFault::Damaged);
    }
    Err(SectorFault::NoField)
}

// The place of the first run at the end of the header at place i, or at most 688 cells after it (§4.4).
fn field_place(cells: &Cells, i: usize) -> Option<usize>
    ensures { (unwrap_or result 0 ≡ field_place cells.now i) × IfSome result (λ j. (0 < j) × (j < 2 ^ 33)) }
{
    if cells.len() <= i {
        return None;
    }
    let end = i + HEADER_CELLS;
    (end..end + GAP_CELLS + 1).find(|j| cells.three_sync(*j))
}

// What the header at place i gives by its field, which is at the first run after it and at no later one (§4.4), and the
// cell place of the data, 64 cells after that run begins (§8.16).
fn field_of(cells: &Cells, i: usize) -> SectorField
    ensures { (result.sector ≡ field_of cells.now i) × (result.place ≡ field_place cells.now i + 64) }
{
    match field_place(cells, i) {
        Some(j) => SectorField {
            sector: field_at(cells, j),
            place: j + 64,
        },
        None => SectorField {
            sector: Err(SectorFault::NoField),
            place: 64,
        },
    }
}

// What a sector gives, by the search's answer (§4.6), and the cell place of its data (§8.16).
pub fn sector_found(cells: &Cells, found: Found) -> SectorField
    ensures { (result.sector ≡ sector_found cells.now found) × (result.place ≡ data_place_of cells.now found) }
{
    match found {
        Found::One(i) => field_of(cells, i),
        Found::Nothing => SectorField {
            sector: Err(SectorFault::Missing),
            place: 0,
        },
        Found::Several => SectorField {
            sector: Err(SectorFault::Repeated),
            place: 0,
        },
    }
}
