// A row of blocks, one or none at each place, two bytes each: an Option would take four.
ghost use Rattle.std.specs.Prelude.{◌≡◌, ℕ, ◌<◌, List, Option, None, map, set, replicate, get_or, IfSome};
ghost use Rattle.std.proofs.Math.Path.{ap};
ghost use Rattle.sector_rules.specs.Geometry.{blocks};
ghost use Rattle.files.specs.Laws.Loading.BlockRows.{stored_block, number_stored, numbers_back};

use std::marker::Model;

// A clause sees the row's blocks, each with its number or none.
#[derive(Clone, Copy)]
pub struct BlockRow<const N: usize> {
    // 0 for none, else one more than the block's number.
    stored: [u16; N],
}

impl<const N: usize> Model for BlockRow<N> {
    ghost Value = { List (Option ℕ) };

    ghost view = { λ row. map stored_block row.stored };

    // The numbers back from the blocks, so that a row can be copied.
    ghost inverse = { λ blocks. record { stored = map number_stored blocks } };

    ghost inverse_ok = { λ row _. ap (λ numbers. record { stored = numbers }) (numbers_back row.stored) };
}

impl<const N: usize> BlockRow<N> {
    // A row without blocks.
    pub fn none() -> BlockRow<N>
        ensures { result ≡ replicate N None }
    {
        BlockRow { stored: [0; N] }
    }

    // The block in place k, if there is one.
    pub fn get(&self, k: usize) -> Option<usize>
        ensures { result ≡ get_or self.now k None }
    {
        let stored = usize::from(self.stored.get(k).copied().unwrap_or(0));
        stored.checked_sub(1)
    }

    // Puts a block, or none, into place k.
    pub fn put(&mut self, k: usize, block: Option<usize>)
        requires { (k < N) × IfSome block (λ b. b < blocks) }
        ensures { self.new ≡ set self.old k block }
    {
        self.stored[k] = match block {
            Some(b) => b as u16 + 1,
            None => 0,
        };
    }
}
