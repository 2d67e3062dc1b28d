ghost use Rattle.std.specs.Prelude.{◌≡◌, ◌++◌, ◌∷◌, [], ℕ, List, not, IfOk, OnOk};
ghost use Rattle.foreign_tree.specs.Reached.{HasReached};
ghost use Rattle.foreign_tree.specs.Tree.{was_reached};

use blk_base::OutOfMemory;
use std::alloc::Global;
use std::collections::BTreeSet;

/// The logical addresses of the blocks that a walk has reached.
#[derive(Drop)]
pub struct Reached {
    addresses: BTreeSet<u64>,
}

impl Reached {
    /// None so far.
    pub fn new(alloc: Global) -> Reached
        ensures { HasReached result [] }
    {
        Reached {
            addresses: BTreeSet::new(alloc),
        }
    }

    /// Adds an address, and says whether it wasn't there.
    pub fn add(&mut self, at: u64) -> Result<bool, OutOfMemory>
        ensures is_new { IfOk result (λ is_new. (before : List ℕ) → HasReached self.old before → is_new ≡ not (was_reached at before)) }
        ensures added { OnOk result ((before : List ℕ) → HasReached self.old before → HasReached self.new (before ++ at ∷ [])) }
    {
        Ok(self.addresses.insert(at)?)
    }
}
