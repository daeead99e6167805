// The header and the track table of an HFE image.
ghost use Rattle.std.specs.Prelude.{MatchResult, Some, None, ℕ, ◌≡◌, ◌+◌, ◌<◌, ◌^◌, length};
ghost use Rattle.cells.specs.Stream.{hfe_side};
ghost use Rattle.sector_rules.specs.Geometry.{tracks, sides};
ghost use Rattle.sector_rules.specs.Hfe.{track_part, flag_fault, format_fault, is_version1, is_version3, field_fault, hfe_header_fault, version1_fault, entry_place, track_start, track_length, track_unit_bytes, track_good, table_fault};

use crate::Geometry;
use crate::faults::wrong_at;
use crate::refusals::HfeRefusal;
use cells::Side;

// Bytes of a unit, by which the places of the table and of tracks are counted (§2.1).
pub const UNIT: usize = 512;

// Revision, which is 0 in both versions (§2.2); tracks, sides, encoding and bit rate (§2.3).
fn format_fault(hfe: &[u8]) -> Option<usize>
    ensures { result ≡ format_fault hfe.now }
{
    wrong_at(8, fields::byte(hfe, 8, 0) == 0)
        .or(wrong_at(9, Geometry::TRACKS <= usize::from(fields::byte(hfe, 9, 0))))
        .or(wrong_at(10, usize::from(fields::byte(hfe, 10, 0)) == Geometry::SIDES))
        .or(wrong_at(11, fields::byte(hfe, 11, 0) == 0))
        .or(wrong_at(12, fields::low2(hfe, 12) == 250))
}

// A flag that is FF or 00, and where it is 00 a 0 after it (§2.3).
fn flag_fault(hfe: &[u8], o: usize) -> Option<usize>
    requires { o < 2 ^ 16 }
    ensures { result ≡ flag_fault hfe.now o }
{
    let flag = fields::byte(hfe, o, 0);
    let after = fields::byte(hfe, o, 1);
    wrong_at(o, (flag == 0xFF) | (flag == 0)).or(wrong_at(o + 1, (flag != 0) | (after == 0)))
}

// Whether the image has the letters of version 1 (§2.2).
fn is_version1(hfe: &[u8]) -> bool
    ensures { result ≡ is_version1 hfe.now }
{
    fields::stands_at(hfe, 0, b"HXCPICFE")
}

// Whether the image has the letters of version 3 (§2.2), so that codes may stand on its sides (§2.7).
pub fn is_version3(hfe: &[u8]) -> bool
    ensures { result ≡ is_version3 hfe.now }
{
    fields::stands_at(hfe, 0, b"HXCHFEV3")
}

// The lowest wrong field of the header (§7.2), given whether its letters, which come first, are right.
fn field_fault(letters: bool, hfe: &[u8]) -> Option<usize>
    ensures { result ≡ field_fault letters hfe.now }
{
    wrong_at(0, letters)
        .or(format_fault(hfe))
        .or(wrong_at(18, 1 <= fields::low2(hfe, 18)))
        .or(flag_fault(hfe, 22))
        .or(flag_fault(hfe, 24))
}

// Refusal 2 of an image to unpack: the letters are those of either version (§2.2 §7.2).
pub fn hfe_header_fault(hfe: &[u8]) -> Option<usize>
    ensures { result ≡ hfe_header_fault hfe.now }
{
    field_fault(is_version1(hfe) | is_version3(hfe), hfe)
}

// Refusal 2 of an image to rewrite: the letters are those of version 1 (§2.2 §8.15).
pub fn version1_fault(hfe: &[u8]) -> Option<usize>
    ensures { result ≡ version1_fault hfe.now }
{
    field_fault(is_version1(hfe), hfe)
}

// Where the four bytes of the entry of a track begin (§2.4).
pub fn entry_place(hfe: &[u8], t: usize) -> usize
    requires { t < 2 ^ 16 }
    ensures { (result ≡ entry_place hfe.now t) × (result < 2 ^ 26) }
{
    UNIT * usize::from(fields::low2(hfe, 18)) + 4 * t
}

// Where a track begins in the image, by its unit (§2.1 §2.4).
pub fn track_start(hfe: &[u8], t: usize) -> usize
    requires { t < 2 ^ 16 }
    ensures { (result ≡ track_start hfe.now t) × (result < 2 ^ 25) }
{
    UNIT * usize::from(fields::low2(hfe, entry_place(hfe, t)))
}

// The length of a track in bytes, both sides together (§2.4).
pub fn track_length(hfe: &[u8], t: usize) -> u16
    requires { t < 2 ^ 16 }
    ensures { result ≡ track_length hfe.now t }
{
    fields::low2(hfe, entry_place(hfe, t) + 2)
}

// The bytes of all units that a track's length needs (§2.5).
pub fn track_unit_bytes(hfe: &[u8], t: usize) -> usize
    requires { t < 2 ^ 16 }
    ensures { (result ≡ track_unit_bytes hfe.now t) × (result < 2 ^ 17) }
{
    UNIT * usize::from(track_length(hfe, t)).div_ceil(UNIT)
}

// Whether a track's table entry is good (§2.5).
fn track_good(hfe: &[u8], t: usize) -> bool
    requires { t < 2 ^ 16 }
    ensures { result ≡ track_good hfe.now t }
{
    let end = track_start(hfe, t) + track_unit_bytes(hfe, t);
    let length = track_length(hfe, t);
    let entry = entry_place(hfe, t);
    (entry + 4 <= hfe.len()) & (length % 2 == 0) & (0 < length) & (end <= hfe.len())
}

// Refusal 3: the lowest track whose entry is not good (§7.3). Entries from 80 on are not looked at (§2.4).
pub fn table_fault(hfe: &[u8]) -> Option<usize>
    ensures { result ≡ table_fault hfe.now }
{
    (0..Geometry::TRACKS).find(|t| !track_good(hfe, *t))
}

// An HFE image whose table is good, so that all its tracks can be read (§2.5).
#[derive(Clone, Copy)]
pub struct HfeTracks<'a> {
    pub bytes: &'a [u8],
    pub ghost good: { table_fault bytes.now ≡ None },
}

impl<'a> HfeTracks<'a> {
    // The image, or 3 (§7.3).
    pub fn new(bytes: &'a [u8]) -> Result<HfeTracks<'a>, HfeRefusal>
        ensures { MatchResult result (λ hfe. hfe.bytes.now ≡ bytes.now) (λ refusal. (t : ℕ) × (table_fault bytes.now ≡ Some t) × (refusal ≡ HfeRefusal.TableEntry t)) }
    {
        match table_fault(bytes) {
            Some(t) => Err(HfeRefusal::TableEntry(t)),
            None => Ok(HfeTracks { bytes }),
        }
    }

    // A track's part of the image: its units (§2.6).
    pub fn track_part(&self, t: usize) -> &'a [u8]
        requires { t < tracks }
        ensures { result.now ≡ track_part self.now.bytes.now t }
    {
        let hfe = self.bytes;
        let start = track_start(hfe, t);
        let end = start + track_unit_bytes(hfe, t);
        &hfe[start..end]
    }
}

// Where a side lies in the track's part (§2.6).
pub fn track_side(hfe: &[u8], t: usize, head: usize) -> Side
    requires { (t < tracks) × (head < sides) }
    ensures { result ≡ hfe_side head (track_length hfe.now t) }
{
    cells::hfe_side(head as u8, track_length(hfe, t))
}
