// Packing a block image into an HFE image: from its first byte to its last.
ghost use Rattle.std.specs.Prelude.{◌≡◌, ◌+◌, ◌-◌, ◌*◌, ◌<◌, ◌≤◌, min, length};
ghost use Rattle.laws.specs.Lists.{tab};
ghost use Rattle.laws.specs.Changes.{overlay};
ghost use Rattle.sector_rules.specs.Geometry.{tracks};
ghost use Rattle.sector_rules.specs.Hfe.{unit_bytes};
ghost use Rattle.sector_rules.specs.Packed.{hfe_header_byte, hfe_table_byte, hfe_byte, hfe_bytes, side_items, track_units, first_unit, pack_reply, pack_hfe};
ghost use Rattle.sectors.specs.Refusals.{hfe_replied};
ghost use Rattle.sectors.specs.Laws.Packing.Runs.{run_bytes, run_items, run_byte, unit_place, unit_byte, tracks_byte};

use crate::Geometry;
use crate::hfe::UNIT;
use crate::refusals::HfeRefusal;
use crate::written::{SIDE_ITEMS, WrittenSide};

// Units of a track (§5.3).
const TRACK_UNITS: usize = 49;

// The unit of the first track (§5.3).
const FIRST_UNIT: usize = 2;

// Bytes that the cells of both sides of a track take (§5.2). Constants are narrowed by `as`: `try_from` is no const fn.
const TRACK_BYTES: u16 = (Geometry::SIDES * 2 * SIDE_ITEMS) as u16;

// Bytes of the written image (§5.3).
const HFE_BYTES: usize = UNIT * (FIRST_UNIT + TRACK_UNITS * Geometry::TRACKS);

// The bytes of a unit that belong to one side (§2.6).
const RUN: usize = UNIT / Geometry::SIDES;

// The items of these bytes.
const RUN_ITEMS: usize = RUN / 2;

// The byte wherever no rule names another (§5.5).
const FILL: u8 = 0xFF;

// Where the letters of the header end.
const SIGNATURE_END: usize = 8;

// Where the fields of the header end, which are named (§5.4).
const HEADER_END: usize = 20;

// The header after its letters, up to the table's unit; tracks and sides are the disk kind's (§5.4).
const HEADER_REST: [u8; HEADER_END - SIGNATURE_END] = [
    0x00,
    Geometry::TRACKS as u8,
    Geometry::SIDES as u8,
    0x00,
    0xFA,
    0x00,
    0x2C,
    0x01,
    0x07,
    0xFF,
    0x01,
    0x00,
];

// Writes the header's unit: its fields (§5.4), and FF in the rest (§5.5).
fn write_header(hfe: &mut [u8])
    requires { length hfe.old ≡ hfe_bytes }
    ensures { hfe.new ≡ overlay hfe.old 0 unit_bytes hfe_header_byte }
{
    fields::copy_into(hfe, 0, b"HXCPICFE");
    fields::copy_into(hfe, SIGNATURE_END, &HEADER_REST);
    fields::fill(hfe, HEADER_END, UNIT - HEADER_END, FILL);
}

// Byte j of the table's unit: the tracks' units and lengths, the low byte first (§5.3 §2.4).
fn table_byte(j: usize) -> u8
    requires { j < unit_bytes }
    ensures { result ≡ hfe_table_byte j }
{
    if j < 4 * Geometry::TRACKS {
        // By `as`: at most 3922, so that `try_from` would leave a refusal that cannot come.
        let [low_start, high_start] = ((FIRST_UNIT + TRACK_UNITS * (j / 4)) as u16).to_le_bytes();
        let [low_length, high_length] = TRACK_BYTES.to_le_bytes();
        return [low_start, high_start, low_length, high_length][j % 4];
    }
    FILL
}

// Writes the table's unit (§5.3).
fn write_table(hfe: &mut [u8])
    requires { length hfe.old ≡ hfe_bytes }
    ensures { hfe.new ≡ overlay hfe.old unit_bytes unit_bytes hfe_table_byte }
{
    let table: [u8; UNIT] = std::array::from_fn(|j| table_byte(j));
    fields::copy_into(hfe, UNIT, &table);
}

// How many items unit u of a track has of a side.
fn items_of_run(u: usize) -> usize
    requires { u < track_units }
    ensures { result ≡ min run_items (side_items - run_items * u) }
{
    RUN_ITEMS.min(SIDE_ITEMS - RUN_ITEMS * u)
}

// Writes what unit u of a track has of a side (`hfe_track_byte`), from `at` on: items, then FF past the side's end (§5.5).
fn write_run(side: WrittenSide<'_>, u: usize, hfe: &mut [u8], at: usize)
    requires { (u < track_units) × (at + run_bytes ≤ length hfe.old) }
    ensures { hfe.new ≡ overlay hfe.old at run_bytes (run_byte side.entry.image.now side.entry.track side.entry.head u) }
{
    let n = items_of_run(u);
    side.write_items(RUN_ITEMS * u, n, hfe, at);
    fields::fill(hfe, at + 2 * n, RUN - 2 * n, FILL);
}

// Writes unit u of a track: the half of side 0 and then that of side 1 (§2.6).
fn write_unit(image: &[u8; Geometry::IMAGE_BYTES], track: usize, u: usize, hfe: &mut [u8])
    requires { (track < tracks) × (u < track_units) × (length hfe.old ≡ hfe_bytes) }
    ensures { hfe.new ≡ overlay hfe.old (unit_place track u) unit_bytes (unit_byte image.now track u) }
{
    let at = UNIT * (FIRST_UNIT + TRACK_UNITS * track + u);
    for head in 0..Geometry::SIDES {
        write_run(WrittenSide { image, track, head }, u, hfe, at + RUN * head);
    }
}

// Writes the units of a track (`hfe_byte`).
fn write_track(image: &[u8; Geometry::IMAGE_BYTES], track: usize, hfe: &mut [u8])
    requires { (track < tracks) × (length hfe.old ≡ hfe_bytes) }
    ensures { hfe.new ≡ overlay hfe.old (unit_place track 0) (unit_bytes * track_units) (unit_byte image.now track 0) }
{
    for u in 0..TRACK_UNITS {
        write_unit(image, track, u, hfe);
    }
}

// Writes the units of all tracks (`hfe_byte` from unit 2 on).
fn write_tracks(image: &[u8; Geometry::IMAGE_BYTES], hfe: &mut [u8])
    requires { length hfe.old ≡ hfe_bytes }
    ensures { hfe.new ≡ overlay hfe.old (first_unit * unit_bytes) (track_units * tracks * unit_bytes) (tracks_byte image.now) }
{
    for track in 0..Geometry::TRACKS {
        write_track(image, track, hfe);
    }
}

// Writes all bytes of the HFE image: header, table, tracks (§5.3).
fn write_hfe(image: &[u8; Geometry::IMAGE_BYTES], hfe: &mut [u8])
    requires { length hfe.old ≡ hfe_bytes }
    ensures { hfe.new ≡ tab (hfe_byte image.now) hfe_bytes }
{
    write_header(hfe);
    write_table(hfe);
    write_tracks(image, hfe);
}

// Packs a block image into an HFE image (§8.2), or 1, with the HFE image first (§7.1).
// A refusal leaves the HFE image as it was (§7.19).
pub fn pack(image: &[u8], hfe: &mut [u8]) -> Result<(), HfeRefusal>
    ensures { (hfe_replied result ≡ pack_reply (length image.now) (length hfe.old)) × (hfe.new ≡ pack_hfe image.now hfe.old) }
{
    if hfe.len() != HFE_BYTES {
        return Err(HfeRefusal::HfeLength);
    }
    let Ok(image) = <&[u8; Geometry::IMAGE_BYTES]>::try_from(image) else {
        return Err(HfeRefusal::ImageLength);
    };
    write_hfe(image, hfe);
    Ok(())
}
