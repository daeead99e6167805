// One side of a track: what its nine sectors give, and the bytes of those that are delivered.
ghost use Rattle.std.specs.Prelude.{true, ◌≡◌, ◌+◌, ◌*◌, ◌/◌, ◌%◌, ◌<◌, ◌≤◌, length};
ghost use Rattle.laws.specs.Changes.{overlay};
ghost use Rattle.sector_rules.specs.Geometry.{tracks, sides, sectors, sector_bytes, all_sectors, image_bytes};
ghost use Rattle.sector_rules.specs.Hfe.{is_version3, table_fault, side_stream};
ghost use Rattle.sector_rules.specs.Search.{sector_byte};
ghost use Rattle.sectors.specs.Laws.Unpacking.Sides.{PlainImage, SideGives, ImageSideGives, placed_byte, with_side};

use crate::codes::{CELL_BYTES, side_cells};
use crate::hfe::{HfeTracks, is_version3, track_side};
use crate::search::{scan, sector_found};
use crate::{Geometry, SectorField};
use cells::Cells;

// What the nine sectors of a side give, each judged alone (`sector_of`), R from 1 (§4.6). On a side whose runs were
// recorded apart, with damage anywhere but no new run, a sector gives its recorded bytes or none (§10.4). Each comes with
// the cell place of its data (`data_place`), also where the CRC does not hold (§8.16).
pub fn side_sectors(cells: &Cells, track: u8, head: u8) -> [SectorField; Geometry::SECTORS]
    ensures { SideGives result cells.now track head }
{
    scan(cells, track, head).map(|found| sector_found(cells, found))
}

// The same for the n-th side of a disk: sides go by track, and side 0 comes first (§1.2).
fn nth_side(cells: &Cells, n: usize) -> [SectorField; Geometry::SECTORS]
    requires { n < tracks * sides }
    ensures { SideGives result cells.now (n / sides) (n % sides) }
{
    let track = n / Geometry::SIDES;
    let head = n % Geometry::SIDES;
    // By `as`: both are below 256, so that `try_from` would leave a refusal that cannot come.
    side_sectors(cells, track as u8, head as u8)
}

// The cells of a side of a version 1 image, which stand in the image itself (§2.6).
pub fn stored_cells(hfe: &[u8], track: usize, head: usize) -> Cells<'_>
    requires { PlainImage hfe.now × (track < tracks) × (head < sides) }
    ensures { result ≡ side_stream hfe.now track head }
{
    Cells::new(
        HfeTracks { bytes: hfe }.track_part(track),
        track_side(hfe, track, head),
    )
}

// What the nine sectors of the n-th side of an HFE image give (`sector_at`): image sectors 9n to 9n + 8 (§1.2). Each comes
// with the cell place of its data (§8.16). Beside `version_side`, since a rewrite, of version 1 alone (§8.15), needs no
// buffer of 32 KiB for each side it looks at.
pub fn image_side(hfe: &[u8], n: usize) -> [SectorField; Geometry::SECTORS]
    requires { PlainImage hfe.now × (n < tracks * sides) }
    ensures { ImageSideGives result hfe.now n }
{
    let cells = stored_cells(hfe, n / Geometry::SIDES, n % Geometry::SIDES);
    nth_side(&cells, n)
}

// The cells of the n-th side of an image of either version (§2.2): they stand in the image itself, or are made in the
// buffer (§2.8).
fn nth_cells<'a>(hfe: &'a [u8], n: usize, buffer: &'a mut [u8; CELL_BYTES]) -> Cells<'a>
    requires { (table_fault hfe.now ≡ None) × (n < tracks * sides) }
    ensures { result ≡ side_stream hfe.now (n / sides) (n % sides) }
{
    let track = n / Geometry::SIDES;
    let head = n % Geometry::SIDES;
    if is_version3(hfe) {
        let side = side_cells(&HfeTracks { bytes: hfe }, track, head, buffer);
        Cells::new(buffer, side)
    } else {
        stored_cells(hfe, track, head)
    }
}

// What the nine sectors of the n-th side of an image of either version give (§2.2 §4.6).
pub fn version_side(hfe: &HfeTracks<'_>, n: usize) -> [SectorField; Geometry::SECTORS]
    requires { n < tracks * sides }
    ensures { ImageSideGives result hfe.now.bytes.now n }
{
    let mut buffer = [0u8; CELL_BYTES];
    nth_side(&nth_cells(hfe.bytes, n, &mut buffer), n)
}

// Writes the 512 bytes whose cells begin at place p into the image from `at` on (§4.6).
pub fn write_sector(cells: &Cells, p: usize, image: &mut [u8], at: usize)
    requires { at + sector_bytes ≤ length image.old }
    ensures { image.new ≡ overlay image.old at sector_bytes (sector_byte cells.now p) }
{
    for (k, byte) in image[at..at + Geometry::SECTOR_BYTES]
        .iter_mut()
        .enumerate()
    {
        *byte = cells.data_byte(p, 16 * k);
    }
}

// Writes nine sectors of a side as image sectors from `at` on, each from byte 512 x its image sector on (§1.2); their
// bytes (`sector_byte`) are at the places from `at` on.
pub fn write_side(
    cells: &Cells,
    places: &[usize; Geometry::ALL_SECTORS],
    at: usize,
    image: &mut [u8],
)
    requires { (at + sectors ≤ all_sectors) × (length image.old ≡ image_bytes) }
    ensures { image.new ≡ overlay image.old (sector_bytes * at) (sector_bytes * sectors) (placed_byte cells.now places.now at) }
{
    for (k, place) in places[at..at + Geometry::SECTORS].iter().enumerate() {
        write_sector(cells, *place, image, Geometry::SECTOR_BYTES * (at + k));
    }
}

// Writes the n-th side of an image of either version as image sectors 9n to 9n + 8 (§1.2 §2.2).
pub fn write_version_side(
    hfe: &HfeTracks<'_>,
    n: usize,
    places: &[usize; Geometry::ALL_SECTORS],
    image: &mut [u8],
)
    requires { (n < tracks * sides) × (length image.old ≡ image_bytes) }
    ensures { image.new ≡ with_side image.old hfe.now.bytes.now places.now n }
{
    let mut buffer = [0u8; CELL_BYTES];
    let cells = nth_cells(hfe.bytes, n, &mut buffer);
    write_side(&cells, places, Geometry::SECTORS * n, image);
}
