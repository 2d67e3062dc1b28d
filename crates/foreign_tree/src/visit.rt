ghost use Rattle.std.specs.Prelude.{◌<◌, ◌+◌, ◌^◌, ◌++◌, ◌∷◌, [], List, length, OnOk};
ghost use Rattle.foreign_tree.specs.Tree.{Found};

use blk_base::{Key, OutOfMemory};

/// What a walk shows the items of a tree to, one after the other.
pub trait Visit {
    /// It was shown these items, in this order.
    ghost has_met: { Self → List Found → Type 0 };

    /// Shows it an item of the leaf at this logical address. Its data stand on the disk from byte `place` on.
    fn meet(&mut self, leaf: u64, place: u64, key: &Key, data: &[u8]) -> Result<(), OutOfMemory>
        requires { place + length data.now < 2 ^ 64 }
        ensures { OnOk result ((before : List Found) → has_met self.old before
            → has_met self.new (before ++ record { leaf = leaf; place = place; key = key.now; content = data.now } ∷ [])) };
}
