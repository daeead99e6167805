// The blocks of each file in chains, upwards: the first block whose record bears a file, and after each block the next
// that bears the same.
ghost use Rattle.std.specs.Prelude.{◌≡◌, None, get_or};
ghost use Rattle.sector_rules.specs.Geometry.{blocks};
ghost use Rattle.files.specs.Laws.Loading.Chains.{Chained};

use crate::block_row::BlockRow;
use crate::map::loaded_record;
use crate::records::{FILES, bearer};
use crate::sizes::{BLOCKS, MapNumbers};
use sectors::Geometry;

// The first block of each file, if a record bears it, and after each block the next of its file.
#[derive(Clone, Copy)]
pub struct Chains {
    pub first: BlockRow<FILES>,
    pub next: BlockRow<BLOCKS>,
}

// Chains all blocks, from the last one down. The chains are lent, not returned: they have 9 KiB, and each copy of them
// would stand on the stack.
pub fn load_chains(map: &MapNumbers, chains: &mut Chains)
    requires { Chained chains.old.first chains.old.next map.now blocks }
    ensures { Chained chains.new.first chains.new.next map.now 0 }
{
    for b in (0..Geometry::BLOCKS).rev() {
        if let Some(f) = bearer(loaded_record(map, b)) {
            let after = chains.first.get(f);
            chains.next.put(b, after);
            chains.first.put(f, Some(b));
        }
    }
}

// The first block whose record bears file f.
pub fn first_block(chains: &Chains, f: usize) -> Option<usize>
    ensures { result ≡ get_or chains.now.first f None }
{
    chains.first.get(f)
}
