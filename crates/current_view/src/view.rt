//! A subvolume on its tree, as its names and kinds are seen.
ghost use Rattle.std.specs.Prelude.{◌≡◌};
ghost use Rattle.flat_model.specs.Volume.{RunSub, Subvolume};
ghost use Rattle.name_walk.specs.Given.{GivesCoherent};
ghost use Rattle.table_volume.specs.Running.{GivesRun};

use crate::told::{held_names, indexed_names, ref_names};
use blk_base::{Ino, OutOfMemory};
use block_table::{BlockTable, SubState, Tree};
use flat_model::{NameAt, NameView};
use name_walk::{entries_at, is_dir, record_kind, slot_ino};
use std::alloc::Global;
use std::marker::Model;

/// A subvolume in the table, lent, and seen as the subvolume that its tree gives. It copies nothing.
#[derive(Drop)]
pub struct CurrentView<'t> {
    table: &'t BlockTable,
    tree: Tree,
}

impl<'t> Model for CurrentView<'t> {
    ghost use Rattle.flat_model.specs.Volume.{Subvolume};
    ghost use Rattle.flat_model.specs.Codes.{subvolume_code};
    ghost use Rattle.name_walk.specs.Given.{GivesCoherent};
    ghost use Rattle.current_view.specs.View.{seen};

    ghost Value = { Subvolume };

    ghost coded = { subvolume_code };

    ghost view = { λ view. seen view.table.now view.tree };

    ghost invariant = { λ view. GivesCoherent view.table.now view.tree (seen view.table.now view.tree) };
}

impl<'t> CurrentView<'t> {
    /// The subvolume that a state gives, seen as it is now.
    pub fn new(table: &'t BlockTable, sub: &'t SubState) -> CurrentView<'t>
        requires { (run : RunSub) × GivesRun table.now sub.now run }
        ensures { (run : RunSub) → GivesRun table.now sub.now run → result ≡ run.sub }
    {
        CurrentView {
            table,
            tree: sub.tree,
        }
    }

    /// The coherent subvolume that a tree gives, whatever its blocks' states are: those of the last full commit too (own).
    pub fn of_tree(table: &'t BlockTable, tree: &Tree) -> CurrentView<'t>
        requires { (sub : Subvolume) × GivesCoherent table.now tree.now sub }
        ensures { (sub : Subvolume) → GivesCoherent table.now tree.now sub → result ≡ sub }
    {
        CurrentView { table, tree: *tree }
    }
}

impl<'t> NameView for CurrentView<'t> {
    ghost sub = { λ view. view };

    /// The names of an inode: a search, and the items of its refs ("INODE_REF", "INODE_EXTREF" of the on-disk format).
    fn names_of(&self, alloc: Global, ino: Ino) -> Result<Vec<NameAt>, OutOfMemory> {
        ref_names(alloc, self.table, &self.tree, ino)
    }

    /// The names in a directory, by rising indexes: a search, and the items of its indexes ("DIR_INDEX" of the on-disk format).
    fn entries(&self, alloc: Global, dir: Ino) -> Result<Vec<NameAt>, OutOfMemory> {
        indexed_names(alloc, self.table, &self.tree, dir)
    }

    /// The names in a directory with a hash: a search for the item that has them, and one or two for the index of each
    /// ("DIR_ITEM" of the on-disk format).
    fn hashed(&self, alloc: Global, dir: Ino, hash: u32) -> Result<Vec<NameAt>, OutOfMemory> {
        match entries_at(self.table, &self.tree, dir.0, hash) {
            Some(entries) => held_names(alloc, self.table, &self.tree, dir, entries),
            None => Ok(Vec::new(alloc)),
        }
    }

    /// The inode to which a name leads: one search.
    fn slot(&self, dir: Ino, name: &[u8]) -> Option<Ino> {
        match slot_ino(self.table, &self.tree, dir.0, name) {
            Some(ino) => Some(Ino(ino)),
            None => None,
        }
    }

    /// Whether the inode is there: one search.
    fn has(&self, ino: Ino) -> bool {
        record_kind(self.table, &self.tree, ino.0).is_some()
    }

    /// Whether the inode is there and is a directory: one search.
    fn is_dir(&self, ino: Ino) -> bool {
        is_dir(self.table, &self.tree, ino.0)
    }
}
