// The cells of a side once a sector's data are written again: where they begin, and the bytes that hold them.
ghost use Rattle.std.specs.Prelude.{◌≡◌, ◌+◌, ◌<◌, ◌≤◌, ◌^◌, length};
ghost use Rattle.cells.specs.Stream.{packed};
ghost use Rattle.sector_rules.specs.Geometry.{sector_bytes};
ghost use Rattle.sector_rules.specs.Rewritten.{changed_bytes, field_row, cell_after};
ghost use Rattle.sectors.specs.Laws.Rewriting.NewCells.{Renewed};

use crate::side_bytes::{CHANGED, DATA_CELLS};
use crate::written::field_byte;
use crate::{Geometry, SideBytes};
use cells::Cells;

// Bytes of a data field from its mark on: FB, the data and the CRC (§8.16).
pub const FIELD_ROW: usize = 1 + Geometry::SECTOR_BYTES + 2;

// The bytes of a data field from its mark on: FB, the data, and the CRC over the run, FB and the data (§8.16).
pub fn field_row(content: &[u8; Geometry::SECTOR_BYTES]) -> [u8; FIELD_ROW]
    ensures { result ≡ field_row content.now }
{
    std::array::from_fn(|k| field_byte(content, 0, k))
}

// Cell i of the side once the row is written, its data from place p on: their cells and those of the CRC, the clock
// cell after it where two or more cells follow, and every other cell as it was (§8.16).
fn cell_after(cells: &Cells, p: usize, row: &[u8], i: usize) -> u8
    requires { p < 2 ^ 34 }
    ensures { (result ≡ cell_after cells.now p row.now i) × (result < 2) }
{
    let old = cells.cell(i);
    if i < p {
        return old;
    }
    if i < p + DATA_CELLS {
        return cells::row_cell(row, 16 + (i - p));
    }
    if p + DATA_CELLS < i {
        return old;
    }
    if cells.cells_from(i) < 2 {
        return old;
    }
    cells::clock(cells::row_bit_before(row, FIELD_ROW), cells.cell(i + 1))
}

// Byte b of the side once the row is written: eight cells, lowest bit first (§8.16 §3.1).
fn byte_after(cells: &Cells, p: usize, row: &[u8], b: usize) -> u8
    requires { (p < 2 ^ 34) × (b < 2 ^ 32) }
    ensures { result ≡ packed (cell_after cells.now p row.now) b }
{
    // A `for`, unlike `stored_byte` of cells: the law of that fold asks that every cell is 0 or 1; `cell_after` says it of
    // the one it gives alone.
    let mut v: u8 = 0;
    for j in 0..8usize {
        v = (cell_after(cells, p, row, 8 * b + j) << j) + v;
    }
    v
}

// The bytes of the side that the row changes, as they are once it is written.
pub fn bytes_after(cells: &Cells, p: usize, row: &[u8], w: SideBytes) -> [u8; CHANGED]
    requires { (p < 2 ^ 34) × (w.count ≤ changed_bytes) × (w.first < 2 ^ 16) }
    ensures { Renewed cells.now p row.now w.first w.count result }
{
    let mut bytes = [0u8; CHANGED];
    for (j, byte) in bytes[..w.count].iter_mut().enumerate() {
        *byte = byte_after(cells, p, row, w.first + j);
    }
    bytes
}
