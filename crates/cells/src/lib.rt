// Layer 1: the cells of one side of a track, the bytes and sync marks in them, and the CRC.
// Every function takes any slice, side, place and count: cells past the end read as 0.
#![tactic(auto)]

mod codes;
mod crc;
mod mfm;
mod stream;
mod sync;

pub use codes::{coded_cells, judge_codes};
pub use crc::{START, crc_byte, crc_row};
pub use mfm::{clock, encode_byte, encode_item, item_bytes, last_bit, row_bit_before, row_cell};
pub use stream::{Cells, hfe_side};

// Where the bytes of a side lie in the track's part of an image: runs of 256 bytes, the first of them at `first`, each
// `stride` bytes after the one before; and how many cells they store (§2.6).
#[derive(Clone, Copy, Debug, PartialEq, Eq)]
pub struct Side {
    pub first: u32,
    pub stride: u32,
    pub cells: u32,
}

// One place of a written row: a plain byte, or a mark, which is a byte with one clock cell left out (§3.5).
#[derive(Clone, Copy, Debug, PartialEq, Eq)]
pub enum Item {
    Plain(u8),
    Sync,
    Index,
}

// What the next byte of a side with codes is, by those before it: any byte, which may be a code; the bit rate after an F2;
// the count after an F3; the byte of which cells are dropped, how many in the second number; or nothing more, after a wrong
// code. The first number is the place of the code (§2.7 §2.9).
#[derive(Clone, Copy, Debug, PartialEq, Eq)]
pub enum Expected {
    Any,
    Rate(usize),
    Count(usize),
    Partial(usize, usize),
    Wrong(usize),
}
