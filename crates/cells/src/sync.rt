// Sync bytes.
ghost use Rattle.std.specs.Prelude.{◌≡◌};
ghost use Rattle.cells.specs.Stream.{from};
ghost use Rattle.cells.specs.Sync.{sync_at, three_sync};

use crate::Cells;

// The cells of a sync mark, first cell highest (§3.5).
const SYNC: u16 = 0x4489;

impl<'a> Cells<'a> {
    // Whether a sync byte stands at cell k of those from place i on (§3.7). The first cell that differs ends the test.
    pub fn sync_at(&self, i: usize, k: usize) -> bool
        ensures { result ≡ sync_at (from self.now i) k }
    {
        let room = self.cells_from(i);
        if room < 16 || room - 16 < k {
            return false;
        }
        (0..16usize).all(|n| u16::from(self.cell_from(i, k + n)) == (SYNC >> (15 - n)) % 2)
    }

    // Whether a run, three sync bytes with nothing between them, stands at place i (§3.7).
    pub fn three_sync(&self, i: usize) -> bool
        ensures { result ≡ three_sync (from self.now i) }
    {
        self.sync_at(i, 0) && self.sync_at(i, 16) && self.sync_at(i, 32)
    }
}
