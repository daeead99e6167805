// The cells of a side, and the bytes that are read from them.
ghost use Rattle.std.specs.Prelude.{◌≡◌, ℕ, ◌+◌, ◌*◌, ◌^◌, ◌<◌, ◌≤◌, List, get_or, length};
ghost use Rattle.cells.specs.Stream.{byte_place, stream, hfe_side, from, data_byte};

use crate::Side;
use std::marker::Model;

// Where side `head` lies in an HFE track of so many bytes (§2.6).
pub fn hfe_side(head: u8, bytes: u16) -> Side
    ensures { result ≡ hfe_side head bytes }
{
    Side {
        first: 256 * u32::from(head),
        stride: 512,
        cells: 8 * u32::from(bytes / 2),
    }
}

impl Side {
    // Byte b of the side, 0 where the track's part has no such byte (§2.6).
    pub(crate) fn byte(self, part: &[u8], b: usize) -> u8
        requires { b < 2 ^ 29 }
        ensures { result ≡ get_or part.now (byte_place self b) 0 }
    {
        // By `as`, here and below: std has no From<u32> for usize.
        let at = self.first as usize + self.stride as usize * (b / 256) + b % 256;
        part.get(at).copied().unwrap_or(0)
    }

    // How many cells there are from place i on, whatever bytes the part has: none past the side's end (§3.2).
    pub fn cells_from(self, i: usize) -> usize
        ensures { ((part : List ℕ) → result ≡ length (from (stream part self) i)) × (result < 2 ^ 32) }
    {
        (self.cells as usize).saturating_sub(i)
    }
}

// The cells that one side of a track stores (§3.1 §3.2), read from the bytes of the track's part: a clause sees the list
// of them.
#[derive(Drop)]
pub struct Cells<'a> {
    part: &'a [u8],
    side: Side,
}

impl<'a> Model for Cells<'a> {
    ghost Value = { List ℕ };

    ghost view = { λ c. stream c.part.now c.side };
}

impl<'a> Cells<'a> {
    // The cells of a side in the track's part (§2.6).
    pub fn new(part: &'a [u8], side: Side) -> Cells<'a>
        ensures { result ≡ stream part.now side }
    {
        Cells { part, side }
    }

    // The cell at place i of a side: lowest bit of each byte first (§3.1), and 0 past the end (§3.2).
    pub fn cell(&self, i: usize) -> u8
        ensures { (result ≡ get_or self.now i 0) × (result < 2) }
    {
        if self.len() <= i {
            return 0;
        }
        (self.side.byte(self.part, i / 8) >> (i % 8)) % 2
    }

    // How many cells the side has (§3.2).
    pub fn len(&self) -> usize
        ensures { (result ≡ length self.now) × (result < 2 ^ 32) × ((k : ℕ) → get_or self.now k 0 < 2) }
    {
        self.side.cells as usize
    }

    // How many cells there are from place i on, each 0 or 1: none past the side's end (§3.2).
    pub fn cells_from(&self, i: usize) -> usize
        ensures { (result ≡ length (from self.now i)) × (result < 2 ^ 32) × ((k : ℕ) → get_or (from self.now i) k 0 < 2) }
    {
        self.side.cells_from(i)
    }

    // Cell k of those from place i on (§3.2).
    pub fn cell_from(&self, i: usize, k: usize) -> u8
        ensures { (result ≡ get_or (from self.now i) k 0) × (result < 2) }
    {
        let cells = self.len();
        if cells.saturating_sub(i) <= k {
            return 0;
        }
        self.cell(i + k)
    }

    // The byte whose 16 cells begin at cell k of those from place i on: data cells alone are read (§3.6).
    pub fn data_byte(&self, i: usize, k: usize) -> u8
        ensures { result ≡ data_byte (from self.now i) k }
    {
        if self.cells_from(i) <= k {
            return 0;
        }
        (0..8usize).fold(0, |v, n| (v << 1) | self.cell_from(i, k + 1 + 2 * n))
    }
}
