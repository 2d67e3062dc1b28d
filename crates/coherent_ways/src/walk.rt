//! The walk down from the root directory: the numbers that it has reached.
ghost use Rattle.std.specs.Prelude.{◌≡◌, ◌≤◌, ◌<◌, ◌++◌, ◌∷◌, ℕ, [], true, cond, length, nat_eq, slice_index_or, Contains, IfOk, OnOk};
ghost use Rattle.std.specs.BTreeSet.{contains};
ghost use Rattle.std.specs.Ordering.{nat_cmp};
ghost use Rattle.flat_model.specs.Names.{FlatName};
ghost use Rattle.coherent_names.specs.Names.{flat_names};
ghost use Rattle.coherent_names.specs.declared.name.Name.{Name};
ghost use Rattle.coherent_ways.specs.Ways.{AreByDirectory, Extends, IsWalk, dir_of};

use blk_base::OutOfMemory;
use blk_base::format::FIRST_FREE;
use coherent_names::Name;
use std::alloc::Global;
use std::collections::BTreeSet;

/// The numbers that were reached, as a set, and in the order in which they were.
#[derive(Drop)]
pub(crate) struct Walk {
    pub(crate) reached: BTreeSet<u64>,
    pub(crate) queue: Vec<u64>,
}

/// The place of the first name whose directory isn't below this number.
fn first_of(names: &[Name<'_>], dir: u64) -> usize
    requires { AreByDirectory names.now }
    ensures bound { result ≤ length names.now }
    ensures below { (k : ℕ) (d : Name) → k < result → dir_of (slice_index_or names.now k d) < dir }
    ensures above { (k : ℕ) (d : Name) → result ≤ k → k < length names.now → dir ≤ dir_of (slice_index_or names.now k d) }
{
    names.partition_point(|name| name.found.dir.0 < dir)
}

impl Walk {
    /// Nothing reached but the root directory.
    pub(crate) fn from_root(alloc: Global) -> Result<Walk, OutOfMemory>
        ensures queue { IfOk result (λ walk. walk.queue.items ≡ 256 ∷ []) }
        ensures root { IfOk result (λ walk. (q : ℕ) → contains nat_cmp walk.reached q ≡ nat_eq 256 q) }
    {
        let mut walk = Walk {
            reached: BTreeSet::new(alloc),
            queue: Vec::new(alloc),
        };
        walk.reach(FIRST_FREE)?;
        Ok(walk)
    }

    /// Reaches a number, unless it was reached before.
    fn reach(&mut self, ino: u64) -> Result<(), OutOfMemory>
        ensures queue { OnOk result (self.new.queue.items ≡ cond (contains nat_cmp self.old.reached ino) self.old.queue.items (self.old.queue.items ++ ino ∷ [])) }
        ensures set { OnOk result ((q : ℕ) → contains nat_cmp self.new.reached q ≡ cond (nat_eq ino q) true (contains nat_cmp self.old.reached q)) }
    {
        if self.reached.insert(ino)? {
            self.queue.push(ino)?;
        }
        Ok(())
    }

    /// Reaches all to which names in a directory lead.
    pub(crate) fn reach_below(&mut self, names: &[Name<'_>], dir: u64) -> Result<(), OutOfMemory>
        requires sorted { AreByDirectory names.now }
        requires walk { IsWalk (flat_names names.now) (contains nat_cmp self.old.reached) self.old.queue.items }
        requires inside { Contains self.old.queue.items dir }
        ensures walk { OnOk result (IsWalk (flat_names names.now) (contains nat_cmp self.new.reached) self.new.queue.items) }
        ensures extends { OnOk result (Extends self.old.queue.items self.new.queue.items) }
        ensures below { OnOk result ((name : FlatName) → Contains (flat_names names.now) name → name.dir ≡ dir → Contains self.new.queue.items name.ino) }
    {
        for place in first_of(names, dir)..names.len() {
            let name = &names[place];
            if name.found.dir.0 != dir {
                return Ok(());
            }
            self.reach(name.found.ino.0)?;
        }
        Ok(())
    }
}
