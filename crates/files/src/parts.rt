// The parts of a file by a loaded map: their blocks in sequence, and whether each stands once.
ghost use Rattle.std.specs.Prelude.{◌≡◌, ℕ, suc, ◌≤◌};
ghost use Rattle.laws.specs.Below.{first_below};
ghost use Rattle.sector_rules.specs.Geometry.{blocks};
ghost use Rattle.file_rules.specs.Map.{is_part};
ghost use Rattle.files.specs.Laws.Loading.Loaded.{loaded_record};
ghost use Rattle.files.specs.Laws.Loading.Chains.{Chained};
ghost use Rattle.files.specs.Laws.Loading.Tally.{Tallied};
ghost use Rattle.files.specs.Laws.Loading.Parts.{record_cell, parts_in, PartsAt};

use crate::block_row::BlockRow;
use crate::chains::{Chains, first_block};
use crate::map::{loaded_record, part_block};
use crate::records::part_of;
use crate::sizes::{BLOCKS, MapNumbers};
use sectors::Geometry;

// How often each of the first n parts of a file stands, and in cell n how many later ones there are.
type PartTally = [u16; Geometry::BLOCKS + 1];

// How often each of the first n parts of file f stands, and how many later ones there are: its chain is followed.
fn tally_parts(map: &MapNumbers, chains: &Chains, f: usize, n: usize) -> PartTally
    requires { (n ≤ blocks) × Chained chains.now.first chains.now.next map.now 0 }
    ensures { Tallied result (suc blocks) (λ (b : ℕ). record_cell f n (loaded_record map.now b)) blocks }
{
    let mut tally = [0; Geometry::BLOCKS + 1];
    let mut at = first_block(chains, f);
    while let Some(b) = at {
        if let Some(s) = part_of(loaded_record(map, b), f) {
            tally[s.min(n)] += 1;
        }
        at = chains.next.get(b);
    }
    tally
}

// Whether the records of file f have the sequences 0 to n - 1, each once, and no other (§7.20): `parts_right`. More of
// them than blocks cannot be.
pub fn parts_right(map: &MapNumbers, chains: &Chains, f: usize, n: usize) -> bool
    requires { Chained chains.now.first chains.now.next map.now 0 }
    ensures { result ≡ parts_in map.now f n }
{
    if Geometry::BLOCKS < n {
        return false;
    }
    let tally = tally_parts(map, chains, f, n);
    if tally[n] != 0 {
        return false;
    }
    tally[..n].iter().all(|&count| count == 1)
}

// The blocks of file f in sequence (`part_block`). From the last block down, so that the lowest of several stays (§6.10).
pub fn file_blocks(map: &MapNumbers, f: usize) -> BlockRow<BLOCKS>
    ensures { PartsAt result map.now f }
{
    let mut row = BlockRow::none();
    for b in (0..Geometry::BLOCKS).rev() {
        if let Some(s) = part_of(loaded_record(map, b), f) {
            if s < Geometry::BLOCKS {
                row.put(s, Some(b));
            }
        }
    }
    row
}

// The block that is sequence s of file f (`part_block`), from its blocks (§6.10); a sequence that no row has is looked for
// in the map.
pub fn nth_block(map: &MapNumbers, row: &BlockRow<BLOCKS>, f: usize, s: usize) -> Option<usize>
    requires { PartsAt row.now map.now f }
    ensures { result ≡ first_below (λ (b : ℕ). is_part f s (loaded_record map.now b)) blocks }
{
    if s < Geometry::BLOCKS {
        return row.get(s);
    }
    part_block(map, f, s)
}
