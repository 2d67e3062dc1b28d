//! The logged volume on its two trees, as its names and kinds are seen.
ghost use Rattle.std.specs.Prelude.{◌≡◌};
ghost use Rattle.flat_model.specs.Volume.{Subvolume};
ghost use Rattle.logged_volume.specs.FlatLog.{FlatLog};
ghost use Rattle.logged_volume.specs.Replay.{replay};
ghost use Rattle.name_walk.specs.Given.{GivesCoherent};
ghost use Rattle.recovered_view.specs.Log.{IsLogAt, IsLogOver};

use crate::has::{has_inode, is_dir_after};
use crate::keys::read_keys;
use crate::logged::Wanted;
use crate::names::names_after;
use crate::slot::slot_after;
use blk_base::{Ino, OutOfMemory};
use block_table::{BlockTable, Tree};
use current_view::CurrentView;
use flat_model::{NameAt, NameView};
use std::alloc::Global;
use std::marker::Model;

/// The logged volume of a subvolume, seen on the tree of the last full commit and the log tree, where there is one. It copies
/// nothing.
#[derive(Drop)]
pub struct RecoveredView<'t> {
    table: &'t BlockTable,
    tree: Tree,
    names: CurrentView<'t>,
    log: Option<Tree>,
}

impl<'t> Model for RecoveredView<'t> {
    ghost use Rattle.std.specs.Prelude.{◌≡◌};
    ghost use Rattle.flat_model.specs.Volume.{Subvolume};
    ghost use Rattle.flat_model.specs.Codes.{subvolume_code};
    ghost use Rattle.logged_volume.specs.Replay.{replay};
    ghost use Rattle.current_view.specs.View.{seen};
    ghost use Rattle.recovered_view.specs.Log.{IsRecovered, log_said};

    ghost Value = { Subvolume };

    ghost coded = { subvolume_code };

    ghost view = { λ view. replay (seen view.table.now view.tree) (log_said view.table.now view.log) };

    ghost invariant = { λ view. IsRecovered view.table.now view.tree view.log × (view.names ≡ seen view.table.now view.tree) };
}

impl<'t> RecoveredView<'t> {
    /// What replay of a log tree, where there is one, leaves of the coherent subvolume that a tree gives, whatever its blocks'
    /// states are. The log's items are those of a flat log that is accepted over that subvolume (own). It reads each
    /// block of the log once, and takes no memory.
    pub fn new(table: &'t BlockTable, committed: &Tree, log: Option<Tree>) -> RecoveredView<'t>
        requires { (sub : Subvolume) × GivesCoherent table.now committed.now sub × IsLogOver table.now sub log }
        ensures { (sub : Subvolume) → GivesCoherent table.now committed.now sub → (flat : FlatLog) → IsLogAt table.now log flat → result ≡ replay sub flat }
    {
        read_keys(table, log);
        RecoveredView {
            table,
            tree: *committed,
            names: CurrentView::of_tree(table, committed),
            log,
        }
    }
}

impl<'t> NameView for RecoveredView<'t> {
    ghost sub = { λ view. view };

    /// The names of an inode: the committed ones that replay keeps, by its refs, and those of the log, by a pass over it
    /// ("INODE_REF", "INODE_EXTREF" of the on-disk format).
    fn names_of(&self, alloc: Global, ino: Ino) -> Result<Vec<NameAt>, OutOfMemory> {
        let committed = self.names.names_of(alloc, ino)?;
        names_after(
            alloc,
            self.table,
            &self.tree,
            self.log,
            committed,
            Wanted::Of(ino),
        )
    }

    /// The names in a directory: the committed ones that replay keeps, by rising indexes, and then those of the log
    /// ("DIR_INDEX" of the on-disk format).
    fn entries(&self, alloc: Global, dir: Ino) -> Result<Vec<NameAt>, OutOfMemory> {
        let committed = self.names.entries(alloc, dir)?;
        names_after(
            alloc,
            self.table,
            &self.tree,
            self.log,
            committed,
            Wanted::In(dir),
        )
    }

    /// The names in a directory with a hash: the committed ones that replay keeps, and then those of the log ("DIR_ITEM" of
    /// the on-disk format).
    fn hashed(&self, alloc: Global, dir: Ino, hash: u32) -> Result<Vec<NameAt>, OutOfMemory> {
        let committed = self.names.hashed(alloc, dir, hash)?;
        names_after(
            alloc,
            self.table,
            &self.tree,
            self.log,
            committed,
            Wanted::Hashed(dir, hash),
        )
    }

    /// The inode to which a name leads: a pass over the log's refs, and one search for a committed name.
    fn slot(&self, dir: Ino, name: &[u8]) -> Option<Ino> {
        match slot_after(self.table, &self.tree, self.log, dir.0, name) {
            Some(ino) => Some(Ino(ino)),
            None => None,
        }
    }

    /// Whether the inode is there: a pass over the log's refs, and the refs of the committed one.
    fn has(&self, ino: Ino) -> bool {
        has_inode(self.table, &self.tree, self.log, ino.0)
    }

    /// Whether the inode is there and is a directory: what `has` takes, and a search for its item.
    fn is_dir(&self, ino: Ino) -> bool {
        is_dir_after(self.table, &self.tree, self.log, ino.0)
    }
}
