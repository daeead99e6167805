// Published values of the cell layer, and for codes some reckoned by hand, computed by the proved functions and printed;
// the file `stdout` has what they must be.
#![tactic(auto)]

use cells::{Cells, Item, Side};

// The CRC of a row of bytes, from the register's start.
fn crc_of(s: &[u8]) -> u16 {
    cells::crc_row(cells::START, s)
}

fn line(name: &[u8], value: u16) {
    io::write_all(1, name);
    io::write_all(1, b" ");
    io::print_hex(1, u64::from(value), 4);
    io::write_all(1, b"\n");
}

fn yes(name: &[u8], value: bool) {
    io::write_all(1, name);
    if value {
        io::write_all(1, b" yes\n");
    } else {
        io::write_all(1, b" no\n");
    }
}

// CRC-16/IBM-3740 of its published check string, and of a header: both start with FFFF.
fn crc_values() {
    line(b"crc 123456789", crc_of(b"123456789"));
    line(
        b"crc header 0 0 1 2",
        crc_of(b"\xA1\xA1\xA1\xFE\x00\x00\x01\x02"),
    );
    line(b"crc of no bytes", crc_of(b""));
}

// The cells of bytes and marks, first cell highest.
fn mfm_values() {
    line(b"mfm 4E after 0", cells::encode_byte(0, 0x4E));
    line(b"mfm 00 after 0", cells::encode_byte(0, 0x00));
    line(b"mfm 00 after 1", cells::encode_byte(1, 0x00));
    line(b"mfm FF after 0", cells::encode_byte(0, 0xFF));
    line(b"mfm A1 after 0", cells::encode_byte(0, 0xA1));
    line(b"mfm C2 after 0", cells::encode_byte(0, 0xC2));
    line(b"mark A1", cells::encode_item(0, Item::Sync));
    line(b"mark C2", cells::encode_item(0, Item::Index));
}

// A track of six bytes, side 0 only: three stored sync bytes, read at even and odd places and
// past the end.
fn sync_values() {
    let cells = Cells::new(b"\x22\x91\x22\x91\x22\x91", cells::hfe_side(0, 12));
    yes(b"sync at 0", cells.sync_at(0, 0));
    yes(b"sync at 16", cells.sync_at(16, 0));
    yes(b"sync at 1", cells.sync_at(1, 0));
    yes(b"sync at 33", cells.sync_at(33, 0));
    yes(b"three at 0", cells.three_sync(0));
    yes(b"three at 16", cells.three_sync(16));
    line(b"byte at 0", u16::from(cells.data_byte(0, 0)));
    line(b"byte at 48", u16::from(cells.data_byte(48, 0)));
    line(b"crc of three", cells.crc_at(0, 0, 3));
}

// The same three bytes one cell later, so that they stand at an odd place of side 1.
fn odd_values() {
    let mut track = [0u8; 270];
    track[256] = 0x44;
    track[257] = 0x22;
    track[258] = 0x45;
    track[259] = 0x22;
    track[260] = 0x45;
    track[261] = 0x22;
    track[262] = 0x01;
    let cells = Cells::new(&track, cells::hfe_side(1, 14));
    yes(b"side 1 three at 0", cells.three_sync(0));
    yes(b"side 1 three at 1", cells.three_sync(1));
    line(b"side 1 byte at 17", u16::from(cells.data_byte(1, 16)));
}

// A side of so many bytes that lie in a row.
fn in_row(bytes: u8) -> Side {
    Side {
        first: 0,
        stride: 256,
        cells: 8 * u32::from(bytes),
    }
}

// The place of a wrong code.
fn place(name: &[u8], wrong: Option<usize>) {
    io::write_all(1, name);
    if let Some(p) = wrong {
        io::write_all(1, b" wrong at ");
        io::print_hex(1, p as u64, 4);
    } else {
        io::write_all(1, b" right");
    }
    io::write_all(1, b"\n");
}

// F1; F2 with its bit rate; F3, the count 3 and a byte that looks like F3; a byte of data: 5 cells and then 8.
const CODES: [u8; 7] = [0x8F, 0x4F, 0xFF, 0xCF, 0xC0, 0xCF, 0x9B];

// The cells that these give, in a buffer with one byte more and in one of the same length.
fn cells_given() {
    let codes = CODES;
    let mut buffer = [0u8; 8];
    let given = cells::coded_cells(&codes, in_row(7), &mut buffer);
    line(b"cells given", (given.cells % 65536) as u16);
    line(b"their first byte", u16::from(buffer[0]));
    line(b"their second byte", u16::from(buffer[1]));
    let mut short = [0u8; 7];
    let none = cells::coded_cells(&codes, in_row(7), &mut short);
    line(b"cells given, short buffer", (none.cells % 65536) as u16);
}

// The same codes whole and cut, a count of 8, and a weak area.
fn wrong_codes() {
    let codes = CODES;
    place(b"codes", cells::judge_codes(&codes, in_row(7)));
    place(b"codes cut after F3", cells::judge_codes(&codes, in_row(4)));
    place(
        b"codes cut after the count",
        cells::judge_codes(&codes, in_row(5)),
    );
    place(
        b"count 8",
        cells::judge_codes(b"\x9B\xCF\x10\x9B", in_row(4)),
    );
    place(b"weak area", cells::judge_codes(b"\x9B\x0F\x2F", in_row(3)));
}

fn main() {
    crc_values();
    mfm_values();
    sync_values();
    odd_values();
    cells_given();
    wrong_codes();
}
