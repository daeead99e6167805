// The cells of a byte or a mark as it is written.
ghost use Rattle.std.specs.Prelude.{◌≡◌, ℕ, ◌<◌, ◌≤◌, [], ◌∷◌, get_or};
ghost use Rattle.cells.specs.Stream.{packed, packed_bits};
ghost use Rattle.cells.specs.Mfm.{bit_of, before, mfm_cell};
ghost use Rattle.std.specs.Option.{unwrap_or};
ghost use Rattle.cells.specs.Mfm as Mfm;
ghost use Rattle.cells.specs.Written.{item_byte, left_out, item_cell, item_word, bit_before, written_cell};

use crate::Item;

// Bit k of a byte, highest first (§3.3).
fn bit_of(x: u8, k: usize) -> u8
    requires { k < 8 }
    ensures { result ≡ bit_of x k }
{
    (x >> (7 - k)) % 2
}

// The clock cell of the bit b that follows the bit a (§3.4).
#[tactic(auto, unfolding(crate::specs::Mfm::clock))]
pub fn clock(a: u8, b: u8) -> u8
    ensures { result ≡ Mfm.clock a b }
{
    u8::from(b == 0 && a == 0)
}

// The bit before bit k of the byte x that follows the bit p (§3.4).
fn bit_before(p: u8, x: u8, k: usize) -> u8
    requires { k < 8 }
    ensures { result ≡ before p x k }
{
    if k == 0 { p } else { bit_of(x, k - 1) }
}

// Cell j of the byte x that follows the bit p: clock cells and data cells in turn (§3.3).
fn mfm_cell(p: u8, x: u8, j: usize) -> u8
    requires { j < 16 }
    ensures { result ≡ mfm_cell p x j }
{
    let k = j / 2;
    let b = bit_of(x, k);
    if j % 2 == 0 {
        clock(bit_before(p, x, k), b)
    } else {
        b
    }
}

// The byte of an item (§3.5).
fn byte_of(item: Item) -> u8
    ensures { result ≡ item_byte item }
{
    match item {
        Item::Plain(x) => x,
        Item::Sync => 0xA1,
        Item::Index => 0xC2,
    }
}

// The clock cell that an item leaves out, if any (§3.5).
fn left_out(item: Item) -> Option<usize>
    ensures { unwrap_or result 16 ≡ left_out item }
{
    match item {
        Item::Plain(_) => None,
        Item::Sync => Some(10),
        Item::Index => Some(8),
    }
}

// Cell j of an item that follows the bit p (§3.5).
fn item_cell(p: u8, item: Item, j: usize) -> u8
    requires { j < 16 }
    ensures { result ≡ item_cell p item j }
{
    if left_out(item) == Some(j) {
        0
    } else {
        mfm_cell(p, byte_of(item), j)
    }
}

// The 16 cells of an item that follows the bit p, first cell highest (§3.5).
pub fn encode_item(p: u8, item: Item) -> u16
    ensures { result ≡ item_word p item }
{
    (0..16usize).fold(0, |v, j| (v << 1) | u16::from(item_cell(p, item, j)))
}

// The last bit of an item, which is the bit before the next one (§3.4).
pub fn last_bit(item: Item) -> u8
    ensures { result ≡ bit_of (item_byte item) 7 }
{
    bit_of(byte_of(item), 7)
}

// The two bytes of an item that follows the bit p, as they are stored (§3.1).
#[tactic(auto, unfolding(crate::specs::Stream::packed))]
pub fn item_bytes(p: u8, item: Item) -> [u8; 2]
    ensures { result ≡ packed (item_cell p item) 0 ∷ packed (item_cell p item) 1 ∷ [] }
{
    [stored_byte(p, item, 0), stored_byte(p, item, 8)]
}

// The eight cells of an item from the cell `start` on, lowest bit first (§3.1).
fn stored_byte(p: u8, item: Item, start: usize) -> u8
    requires { start ≤ 8 }
    ensures { result ≡ packed_bits (item_cell p item) start 8 }
{
    (0..8usize).fold(0, |v, j| (item_cell(p, item, start + j) << j) | v)
}

// The 16 cells of the byte x that follows the bit p, first cell highest (§3.3).
pub fn encode_byte(p: u8, x: u8) -> u16
    ensures { result ≡ item_word p (Item.Plain x) }
{
    encode_item(p, Item::Plain(x))
}

// Byte q of a row, 0 past its end.
fn byte_in(row: &[u8], q: usize) -> u8
    ensures { result ≡ get_or row.now q 0 }
{
    row.get(q).copied().unwrap_or(0)
}

// The bit before byte q of a row of plain bytes; before the first it is 0 (§3.4).
pub fn row_bit_before(row: &[u8], q: usize) -> u8
    ensures { result ≡ bit_before (λ (k : ℕ). Item.Plain (get_or row.now k 0)) q }
{
    if q == 0 {
        return 0;
    }
    last_bit(Item::Plain(byte_in(row, q - 1)))
}

// Cell m of a row of plain bytes, 16 cells each (§3.3 §3.4).
pub fn row_cell(row: &[u8], m: usize) -> u8
    ensures { result ≡ written_cell (λ (k : ℕ). Item.Plain (get_or row.now k 0)) m }
{
    let q = m / 16;
    item_cell(row_bit_before(row, q), Item::Plain(byte_in(row, q)), m % 16)
}
