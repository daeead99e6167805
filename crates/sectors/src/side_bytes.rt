// Bytes of one side as they lie in an HFE image, taken and exchanged.
ghost use Rattle.std.specs.Prelude.{◌≡◌, ◌+◌, ◌*◌, ◌<◌, ◌^◌, length, true, false};
ghost use Rattle.sector_rules.specs.Geometry.{tracks, sides};
ghost use Rattle.sector_rules.specs.Rewritten.{is_side_byte};
ghost use Rattle.sectors.specs.Laws.Rewriting.Changed.{stored_place, SideBytesFit, Taken, changed};
ghost use Rattle.sectors.specs.Laws.Rewriting.Skipped.{UnitsApart, Kept, Untouched};

use crate::hfe::{UNIT, entry_place, track_start, track_unit_bytes};
use crate::{Geometry, SideBytes};

// Cells of a sector's data and CRC (§8.16).
pub const DATA_CELLS: usize = 16 * (Geometry::SECTOR_BYTES + 2);

// The most bytes that hold these cells and one more (§8.16).
pub const CHANGED: usize = DATA_CELLS / 8 + 1;

impl SideBytes {
    // Where byte b of the side lies in the image: each unit is 256 bytes of side 0 and then 256 of side 1 (§2.6).
    fn stored_place(self, b: usize) -> usize
        requires { b < 2 ^ 32 }
        ensures { result ≡ stored_place self.start self.side b }
    {
        self.start + 256 * self.side + UNIT * (b / 256) + b % 256
    }

    // The bytes as the image has them.
    pub(crate) fn take_bytes(self, hfe: &[u8]) -> [u8; CHANGED]
        requires { SideBytesFit self (length hfe.now) }
        ensures { Taken hfe.now self result }
    {
        let mut bytes = [0u8; CHANGED];
        for (j, byte) in bytes[..self.count].iter_mut().enumerate() {
            *byte = hfe[self.stored_place(self.first + j)];
        }
        bytes
    }

    // Writes the bytes into the image.
    pub(crate) fn put_bytes(self, hfe: &mut [u8], bytes: &[u8; CHANGED])
        requires { SideBytesFit self (length hfe.old) }
        ensures { hfe.new ≡ changed hfe.old self bytes.now }
    {
        for (j, byte) in bytes[..self.count].iter().enumerate() {
            hfe[self.stored_place(self.first + j)] = *byte;
        }
    }

    // Whether byte k of the image is one of these bytes (§2.6).
    fn is_changed(self, k: usize) -> bool
        ensures { result ≡ is_side_byte self.start (self.first + self.count) self.side self.first self.count k }
    {
        if k < self.start {
            return false;
        }
        let o = k - self.start;
        if o % UNIT / 256 != self.side {
            return false;
        }
        let b = 256 * (o / UNIT) + o % 256;
        self.first <= b && b < self.first + self.count
    }

    // Whether one of n bytes of the image from `at` on is one of these bytes.
    fn row_changed(self, at: usize, n: usize) -> bool
        requires { (at < 2 ^ 32) × (n < 2 ^ 16) }
        ensures { result ≡ false → Kept self at n }
    {
        (0..n).any(|j| self.is_changed(at + j))
    }

    // Whether the units of a track, from `start` to `end`, hold none of these bytes on this side. Tracks begin with a
    // unit, so that a byte of one side is never a byte of the other side of any track (§2.6).
    fn is_apart(self, head: usize, start: usize, end: usize) -> bool
        ensures { result ≡ true → UnitsApart self head start end }
    {
        let low = self.start + UNIT * (self.first / 256);
        let high = self.start + UNIT * ((self.first + self.count) / 256 + 1);
        head != self.side || end <= low || high <= start
    }

    // Whether the n-th side certainly stays as it is when these bytes change: neither the place of the table, bytes 18
    // and 19 of the header, nor its entry, nor a byte of the side is among them (§2.4 §2.6).
    pub(crate) fn untouched(self, hfe: &[u8], n: usize) -> bool
        requires { n < tracks * sides }
        ensures { result ≡ true → Untouched hfe.now self n }
    {
        let track = n / Geometry::SIDES;
        let start = track_start(hfe, track);
        let end = start + track_unit_bytes(hfe, track);
        !self.row_changed(18, 2)
            && !self.row_changed(entry_place(hfe, track), 4)
            && self.is_apart(n % Geometry::SIDES, start, end)
    }
}
