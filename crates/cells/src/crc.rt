// The CRC of bytes.
ghost use Rattle.std.specs.Prelude.{◌≡◌, ◌+◌, ◌*◌, ◌<◌};
ghost use Rattle.cells.specs.Stream.{from, data_byte, data_bytes};
ghost use Rattle.cells.specs.Crc.{crc, crc_bit, crc_bits, crc_from};

use crate::Cells;

// The register before the first bit (§3.8).
pub const START: u16 = 0xFFFF;

// The register s after one more bit (§3.8).
fn crc_bit(s: u16, b: u16) -> u16
    requires { b < 2 }
    ensures { result ≡ crc_bit s b }
{
    (0x1021 * ((s / 0x8000 + b) % 2)) ^ (s << 1)
}

// The register s after one more byte, highest bit first (§3.8). After bytes and their own CRC it is 0 (§10.1).
pub fn crc_byte(s: u16, x: u8) -> u16
    ensures { result ≡ crc_bits s x 8 }
{
    (0..8u8).fold(s, |v, k| crc_bit(v, u16::from((x >> (7 - k)) % 2)))
}

// The register s after a row of bytes (§3.8).
pub fn crc_row(s: u16, row: &[u8]) -> u16
    ensures { result ≡ crc_from s row.now }
{
    row.iter().fold(s, |v, x| crc_byte(v, *x))
}

impl<'a> Cells<'a> {
    // Byte j of the row whose cells begin at cell k of those from place i on.
    fn row_byte(&self, i: usize, k: usize, j: usize) -> u8
        ensures { result ≡ data_byte (from self.now i) (k + 16 * j) }
    {
        let room = self.cells_from(i);
        if room <= k || room <= j {
            return 0;
        }
        self.data_byte(i, k + 16 * j)
    }

    // The CRC of the n bytes whose cells begin at cell k of those from place i on (§3.8).
    pub fn crc_at(&self, i: usize, k: usize, n: usize) -> u16
        ensures { result ≡ crc (data_bytes (from self.now i) k n) }
    {
        (0..n).fold(START, |v, j| crc_byte(v, self.row_byte(i, k, j)))
    }
}
