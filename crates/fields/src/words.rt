// Numbers in two, three or four bytes.
ghost use Rattle.std.specs.Prelude.{◌≡◌, ◌<◌, ◌^◌};
ghost use Rattle.laws.specs.Lists.{window};
ghost use Rattle.laws.specs.Changes.{overlay};
ghost use Rattle.laws.specs.Numbers.{high_first, low_first, high_byte, low_byte};

use crate::bytes;
use std::array;

// The N bytes from at on, 0 past the end.
pub fn bytes_at<const N: usize>(s: &[u8], at: usize) -> [u8; N]
    ensures { result ≡ window s.now at N }
{
    array::from_fn(|k| bytes::byte(s, at, k))
}

// The number in two bytes, highest first.
pub fn high2(s: &[u8], at: usize) -> u16
    ensures { result ≡ high_first s.now at 2 }
{
    u16::from_be_bytes(bytes_at(s, at))
}

// The number in three bytes, highest first.
pub fn high3(s: &[u8], at: usize) -> u32
    ensures { (result ≡ high_first s.now at 3) × (result < 2 ^ 24) }
{
    let [a, b, c]: [u8; 3] = bytes_at(s, at);
    u32::from_be_bytes([0, a, b, c])
}

// The number in four bytes, highest first.
pub fn high4(s: &[u8], at: usize) -> u32
    ensures { result ≡ high_first s.now at 4 }
{
    u32::from_be_bytes(bytes_at(s, at))
}

// The number in two bytes, lowest first (§2.1).
pub fn low2(s: &[u8], at: usize) -> u16
    ensures { result ≡ low_first s.now at 2 }
{
    u16::from_le_bytes(bytes_at(s, at))
}

// Writes a number in two bytes, highest first.
pub fn put_high2(s: &mut [u8], at: usize, v: u16)
    ensures { s.new ≡ overlay s.old at 2 (high_byte 2 v) }
{
    bytes::copy_into(s, at, &v.to_be_bytes());
}

// Writes a number in four bytes, highest first.
pub fn put_high4(s: &mut [u8], at: usize, v: u32)
    ensures { s.new ≡ overlay s.old at 4 (high_byte 4 v) }
{
    bytes::copy_into(s, at, &v.to_be_bytes());
}

// Writes a number in two bytes, lowest first (§2.1).
pub fn put_low2(s: &mut [u8], at: usize, v: u16)
    ensures { s.new ≡ overlay s.old at 2 (low_byte v) }
{
    bytes::copy_into(s, at, &v.to_le_bytes());
}
