//! Which inodes names lead down to.
ghost use Rattle.std.specs.Prelude.{◌≡◌, ◌↔◌, ℕ, List, true, IsTrue, IfOk};
ghost use Rattle.std.specs.List.Sorted.{IsPermutation};
ghost use Rattle.flat_model.specs.Coherent.{LeadsUp};
ghost use Rattle.flat_model.specs.Names.{FlatName};
ghost use Rattle.coherent_names.specs.Names.{flat_names};
ghost use Rattle.coherent_ways.specs.Ways.{AreByDirectory, has_reached};

use crate::walk::Walk;
use blk_base::{Ino, OutOfMemory};
use coherent_names::Name;
use std::alloc::Global;
use std::collections::BTreeSet;

/// The inodes to which names lead down from the root directory, itself included.
#[derive(Drop)]
pub struct Reached {
    inos: BTreeSet<u64>,
}

impl Reached {
    /// Whether names lead down to an inode.
    pub fn has(&self, ino: Ino) -> bool
        ensures { result ≡ has_reached self.now ino.0 }
    {
        self.inos.contains(&ino.0)
    }
}

/// Sorts names by the numbers of their directories, in no order within one.
pub fn sort_by_directory(names: &mut Vec<Name<'_>>)
    ensures same { IsPermutation names.old.items names.new.items }
    ensures sorted { AreByDirectory names.new.items }
{
    names.sort_unstable_by_key(|name| name.found.dir.0);
}

/// The inodes from which these names lead up to the root directory ("INODE_REF" of the Btrfs on-disk format). The names are
/// sorted by the numbers of their directories. Takes n log n steps for n names.
pub fn reached_by(alloc: Global, names: &[Name<'_>]) -> Result<Reached, OutOfMemory>
    requires { AreByDirectory names.now }
    ensures { IfOk result (λ reached. (ino : ℕ) → (IsTrue (has_reached reached ino) ↔ ((way : List FlatName) × LeadsUp (flat_names names.now) ino way))) }
{
    let mut walk = Walk::from_root(alloc)?;
    let mut at = 0;
    while at < walk.queue.len() {
        let dir = walk.queue[at];
        walk.reach_below(names, dir)?;
        at += 1;
    }
    Ok(Reached { inos: walk.reached })
}
