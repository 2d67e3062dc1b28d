//! Slots of directories, and the names that are in them.
ghost use Rattle.std.specs.Prelude.{◌≡◌, ℕ, true, false, List, Some, None, IfOk, OnOk};
ghost use Rattle.std.specs.Option.{is_none};
ghost use Rattle.tree_range.specs.Shape.{IsTree, tree_items};
ghost use Rattle.volume_image.specs.Subvolume.{Data};
ghost use Rattle.image_faults.specs.Said.{said_sub};
ghost use Rattle.coherent_names.specs.Names.{flat_of, flat_names};
ghost use Rattle.coherent_slots.specs.Slots.{AreSlots, IsAdded, IsLeastBad, IsLowered, IsPut, index_at};

use blk_base::{Ino, OutOfMemory};
use block_table::{BlockTable, Tree};
use coherent_names::Name;
use inode_lines::is_right_ref;
use std::alloc::Global;
use std::collections::BTreeMap;

/// The indexes of names, by their directories and their bytes.
#[derive(Drop)]
pub struct Slots<'t> {
    indexes: BTreeMap<(u64, &'t [u8]), u64>,
}

impl<'t> Slots<'t> {
    /// The index of the name in a slot; `None` where no right name is in it.
    pub fn index(&self, dir: Ino, name: &'t [u8]) -> Option<u64>
        ensures { result ≡ index_at self.now dir.0 name.now }
    {
        self.indexes.get(&(dir.0, name)).copied()
    }

    /// No slot has a name.
    fn new(alloc: Global) -> Slots<'t>
        ensures { (dir : ℕ) (bytes : List ℕ) → index_at result dir bytes ≡ None }
    {
        Slots {
            indexes: BTreeMap::new(alloc),
        }
    }

    /// Puts a name into its slot, and says whether none was in it.
    fn put(&mut self, name: &Name<'t>) -> Result<bool, OutOfMemory>
        ensures is_new { IfOk result (λ is_new. is_new ≡ is_none (index_at self.old (flat_of name.now).dir (flat_of name.now).bytes)) }
        ensures updates { OnOk result (IsPut self.old self.new (flat_of name.now)) }
    {
        let found = &name.found;
        let old = self.indexes.insert((found.dir.0, found.name), found.index)?;
        Ok(old.is_none())
    }

    /// Puts a name into its slot if it is right, and says whether it is, and none was in the slot.
    fn add(&mut self, table: &BlockTable, tree: &Tree, name: &Name<'t>) -> Result<bool, OutOfMemory>
        requires { IsTree table.now tree.now }
        ensures { IfOk result (λ alone. (blocks : Data) → IsAdded (tree_items table.now tree.now) (said_sub (tree_items table.now tree.now) blocks) self.old self.new (flat_of name.now) alone) }
    {
        if !is_right_ref(table, tree, name.found) {
            return Ok(false);
        }
        let alone = self.put(name)?;
        Ok(alone)
    }
}

/// The lesser of two numbers, one of which may not be there.
pub fn lower(least: Option<Ino>, ino: Ino) -> Option<Ino>
    ensures { IsLowered least ino result }
{
    match least {
        Some(found) => {
            if found.0 <= ino.0 {
                return least;
            }
            Some(ino)
        }
        None => Some(ino),
    }
}

/// The least bad number: the one so far, or this one where it is bad and less.
fn least_bad(least: Option<Ino>, good: bool, ino: Ino) -> Option<Ino>
    ensures kept { good ≡ true → result ≡ least }
    ensures lowered { good ≡ false → IsLowered least ino result }
{
    if good {
        return least;
    }
    lower(least, ino)
}

/// The slots of a tree's names, and the least inode that has a bad name, if any has: one without both of its directory
/// entries, or whose directory is none, or in a slot that another of the names has too ("INODE_REF" and "INODE_EXTREF" of
/// the Btrfs on-disk format). Takes n log n steps for n names.
pub fn slots_of<'t>(
    alloc: Global,
    table: &BlockTable,
    tree: &Tree,
    names: &[Name<'t>],
) -> Result<(Slots<'t>, Option<Ino>), OutOfMemory>
    requires { IsTree table.now tree.now }
    ensures slots { IfOk result (λ found. (blocks : Data) → AreSlots (tree_items table.now tree.now) (said_sub (tree_items table.now tree.now) blocks) (flat_names names.now) found.0) }
    ensures least { IfOk result (λ found. (blocks : Data) → IsLeastBad (tree_items table.now tree.now) (said_sub (tree_items table.now tree.now) blocks) (flat_names names.now) found.1) }
{
    let mut slots = Slots::new(alloc);
    let mut least = None;
    for name in names {
        let alone = slots.add(table, tree, name)?;
        least = least_bad(least, alone, name.found.ino);
    }
    Ok((slots, least))
}
