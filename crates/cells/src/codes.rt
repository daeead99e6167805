// Codes among the bytes of a side, as a version 3 image has them: which code is wrong, and which cells the bytes give.
ghost use Rattle.std.specs.Prelude.{cond, List, [], ◌++◌, ◌≡◌, ℕ, ◌+◌, ◌*◌, ◌/◌, ◌%◌, ◌^◌, ◌<◌, ◌≤◌, ltb, length, get_or, drop};
ghost use Rattle.cells.specs.Stream.{stream};
ghost use Rattle.cells.specs.Codes.{stored_bytes, byte_cells, reversed_bits, after_code, expected_after, cells_given, cells_before, at_end, coded, cells_of, wrong_of};
ghost use Rattle.cells.specs.Codes as Codes;
ghost use Rattle.cells.specs.Stream.{buffer_side};

use crate::{Expected, Side};

// A byte as codes and counts are read: its first cell, the lowest bit as stored, is the highest bit (§2.7).
fn reversed_bits(b: u8) -> u8
    ensures { result ≡ Codes.reversed_bits b }
{
    b.reverse_bits()
}

// Whether a byte that may be a code is one: its lowest four bits, as stored, are all 1 (§2.7).
fn is_code(b: u8) -> bool
    ensures { result ≡ Codes.is_code b }
{
    b % 16 == 15
}

// What follows byte b at place k that may be a code (§2.7 §2.9).
#[tactic(auto, unfolding(crate::specs::Codes::after_code))]
fn after_code(k: usize, b: u8) -> Expected
    ensures { result ≡ after_code k (reversed_bits b) }
{
    if !is_code(b) {
        return Expected::Any;
    }
    match reversed_bits(b) {
        0..=0xF1 => Expected::Any,
        0xF2 => Expected::Rate(k),
        0xF3 => Expected::Count(k),
        _ => Expected::Wrong(k),
    }
}

// What follows byte b at place k where x was expected; a count is 0 to 7 (§2.7 §2.9).
#[tactic(auto, unfolding(crate::specs::Codes::expected_after))]
fn expected_after(x: Expected, k: usize, b: u8) -> Expected
    ensures { result ≡ expected_after x k b }
{
    match x {
        Expected::Any => after_code(k, b),
        Expected::Rate(_) | Expected::Partial(_, _) => Expected::Any,
        Expected::Count(p) => {
            let n = reversed_bits(b);
            if n <= 7 {
                Expected::Partial(p, usize::from(n))
            } else {
                Expected::Wrong(p)
            }
        }
        Expected::Wrong(_) => x,
    }
}

// The place of the wrong code, if any, where the bytes end and x was expected: a code that lacks a byte is wrong (§2.9).
#[tactic(auto, unfolding(crate::specs::Codes::at_end, crate::specs::Codes::wrong_of))]
fn wrong_at_end(x: Expected) -> Option<usize>
    ensures { result ≡ wrong_of (at_end x) }
{
    match x {
        Expected::Any => None,
        Expected::Rate(p) | Expected::Count(p) | Expected::Partial(p, _) | Expected::Wrong(p) =>
            Some(p),
    }
}

// The place of the first wrong code of a side's bytes, or none where all codes are right (§2.9).
pub fn judge_codes(part: &[u8], side: Side) -> Option<usize>
    ensures { result ≡ wrong_of (coded (stored_bytes part.now side)) }
{
    // By `as`, here and below: std has no From<u32> for usize.
    let bytes = side.cells as usize / 8;
    let end = (0..bytes).fold(
        Expected::Any,
        |x, k| expected_after(x, k, side.byte(part, k)),
    );
    wrong_at_end(end)
}

// Where the first n cells of a buffer lie, eight to a byte (§3.1).
fn buffer_side(n: u32) -> Side
    ensures { result ≡ buffer_side n }
{
    Side {
        first: 0,
        stride: 256,
        cells: n,
    }
}

// The lowest k bits of a byte and above them the eight of v: the cells of two bytes, lowest first (§3.1).
fn joined(old: u8, k: usize, v: u8) -> u32
    requires { k < 8 }
    ensures { (result ≡ old % 2 ^ k + v * 2 ^ k) × (result < 2 ^ 16) }
{
    u32::from(old) % (1u32 << k) + (u32::from(v) << k)
}

// Writes the eight cells of v after the first n cells of a buffer, which stay (§3.1).
fn append_byte(buffer: &mut [u8], n: usize, v: u8)
    requires { n / 8 + 1 < length buffer.old }
    ensures { (stream buffer.new (buffer_side (n + 8)) ≡ stream buffer.old (buffer_side n) ++ byte_cells v) × (length buffer.new ≡ length buffer.old) }
{
    let at = n / 8;
    let w = joined(buffer[at], n % 8, v);
    buffer[at] = (w % 256) as u8;
    buffer[at + 1] = (w / 256) as u8;
}

// How many first cells of byte b are not given where x was expected: all eight where it is a code, a bit rate or a
// count (§2.8).
#[tactic(auto, using(crate::proofs::Laws::Codes::eight_cells), unfolding(crate::specs::Codes::cells_given))]
fn cells_dropped(x: Expected, b: u8) -> usize
    ensures { (cells_given x b ≡ drop result (byte_cells b)) × (result ≤ 8) }
{
    match x {
        Expected::Any => if is_code(b) { 8 } else { 0 },
        Expected::Partial(_, d) => d.min(8),
        Expected::Rate(_) | Expected::Count(_) | Expected::Wrong(_) => 8,
    }
}

// Writes the cells that byte b gives where x was expected after the first n cells of a buffer, and says how many cells
// there are then (§2.8).
fn append_given(buffer: &mut [u8], n: usize, x: Expected, b: u8) -> usize
    requires { (n / 8 + 1 < length buffer.old) × (n < 2 ^ 32) }
    ensures { (stream buffer.new (buffer_side result) ≡ stream buffer.old (buffer_side n) ++ cells_given x b) × (length buffer.new ≡ length buffer.old) × (result ≤ n + 8) }
{
    let d = cells_dropped(x, b);
    if d == 8 {
        return n;
    }
    append_byte(buffer, n, b >> d);
    n + (8 - d)
}

// How many of n cells are given where the bytes end and x was expected: none where a code is wrong (§2.9).
#[tactic(auto, using(crate::proofs::Laws::Codes::ended_cells, crate::proofs::Laws::Codes::ended_wrong), unfolding(crate::specs::Codes::at_end))]
fn cells_at_end(x: Expected, n: usize) -> usize
    ensures { ((d : List ℕ) → stream d (buffer_side result) ≡ cells_of (cells_before (stream d (buffer_side n)) (at_end x))) × (result ≤ n) }
{
    match x {
        Expected::Any => n,
        Expected::Rate(_) | Expected::Count(_) | Expected::Partial(_, _) | Expected::Wrong(_) => 0,
    }
}

// Writes the cells that a side's bytes give (§2.8) into a buffer, eight to a byte (§3.1), and says where they lie there:
// none where a code is wrong or the buffer has not more bytes than the side.
pub fn coded_cells(part: &[u8], side: Side, buffer: &mut [u8]) -> Side
    ensures { (stream buffer.new result ≡ cond (ltb (side.cells / 8) (length buffer.old)) (cells_of (coded (stored_bytes part.now side))) []) × (length buffer.new ≡ length buffer.old) }
{
    let bytes = side.cells as usize / 8;
    if buffer.len() <= bytes {
        return buffer_side(0);
    }
    // A `for`: a fold would carry a pair, and the buffer beside it is written at each turn.
    let mut x = Expected::Any;
    let mut n: usize = 0;
    for k in 0..bytes {
        let b = side.byte(part, k);
        n = append_given(buffer, n, x, b);
        x = expected_after(x, k, b);
    }
    buffer_side(cells_at_end(x, n) as u32)
}
