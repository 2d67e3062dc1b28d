//! What an operation removes.
ghost use Rattle.std.specs.Prelude.{◌≡◌, ◌≤◌, ◌+◌, ◌^◌, cond};
ghost use Rattle.flat_model.specs.Needs.{blocks_past, gone_with, items_with, removed_from};
ghost use Rattle.flat_model.specs.Operations.{attributes_there, file_there};
ghost use Rattle.flat_model.specs.Volume.{RunSub, Subvolume};
ghost use Rattle.flat_model.specs.Walk.{is_one_inode, record_at, walk};
ghost use Rattle.name_walk.specs.Given.{GivesCoherent};
ghost use Rattle.table_volume.specs.Running.{GivesRun};

use crate::attributes::items_with;
use crate::inode::file_blocks_past;
use crate::place::{gone_with, ino_at, is_one_inode};
use blk_base::Name;
use block_table::{BlockTable, SubState, Tree};
use flat_model::{Op, Path};
use name_walk::walk;

/// What goes with the name at a path.
fn gone_at(table: &BlockTable, tree: &Tree, path: &Path) -> u64
    requires { (sub : Subvolume) × GivesCoherent table.now tree.now sub }
    ensures count { (sub : Subvolume) → GivesCoherent table.now tree.now sub → result ≡ gone_with sub (walk sub path.now) }
    ensures few { result ≤ 2 ^ 32 + 4097 }
{
    let end = walk(table, tree, path);
    gone_with(table, tree, &end)
}

/// What goes with the name at the second path where the one at the first moves there: nothing where both lead to one inode.
fn gone_by_rename(table: &BlockTable, tree: &Tree, old: &Path, new: &Path) -> u64
    requires { (sub : Subvolume) × GivesCoherent table.now tree.now sub }
    ensures count { (sub : Subvolume) → GivesCoherent table.now tree.now sub
        → result ≡ cond (is_one_inode (walk sub old.now) (walk sub new.now)) 0 (gone_with sub (walk sub new.now)) }
    ensures few { result ≤ 2 ^ 32 + 4097 }
{
    let from = walk(table, tree, old);
    let to = walk(table, tree, new);
    if is_one_inode(&from, &to) {
        return 0;
    }
    gone_with(table, tree, &to)
}

/// How many data blocks of the file at a path are wholly past a size.
fn past_at(table: &BlockTable, tree: &Tree, path: &Path, size: u64) -> u64
    requires { (sub : Subvolume) × GivesCoherent table.now tree.now sub }
    ensures count { (sub : Subvolume) → GivesCoherent table.now tree.now sub
        → result ≡ blocks_past (file_there (record_at sub (walk sub path.now))) size }
    ensures few { result ≤ 4096 }
{
    match ino_at(&walk(table, tree, path)) {
        Some(ino) => file_blocks_past(table, tree, ino, size),
        None => 0,
    }
}

/// How many items go with an attribute of what stands at a path.
fn items_at(table: &BlockTable, tree: &Tree, path: &Path, name: &Name) -> u64
    requires { (sub : Subvolume) × GivesCoherent table.now tree.now sub }
    ensures count { (sub : Subvolume) → GivesCoherent table.now tree.now sub
        → result ≡ items_with (attributes_there (record_at sub (walk sub path.now))) name.now }
    ensures few { result ≤ 1 }
{
    match ino_at(&walk(table, tree, path)) {
        Some(ino) => items_with(table, tree, ino, name),
        None => 1,
    }
}

/// How many data blocks, inline extents and attribute items an operation removes from the subvolume of a state, where it is
/// done ("EXTENT_DATA", "XATTR_ITEM" of the on-disk format). An operation whose place isn't there counts as one that would be
/// done.
pub fn removed(table: &BlockTable, sub: &SubState, op: &Op) -> u64
    requires given { (run : RunSub) × GivesRun table.now sub.now run }
    ensures count { (run : RunSub) → GivesRun table.now sub.now run → result ≡ removed_from run.sub op.now }
    ensures few { result ≤ 2 ^ 32 + 4097 }
{
    let tree = &sub.tree;
    match op {
        Op::Unlink(place) | Op::Rmdir(place) => gone_at(table, tree, &place.path),
        Op::Rename(old, new) => gone_by_rename(table, tree, &old.path, &new.path),
        Op::Truncate(place, size) => past_at(table, tree, &place.path, *size),
        Op::DelAttr(place, name) => items_at(table, tree, &place.path, name),
        Op::Create(_)
        | Op::Mkdir(_)
        | Op::Symlink(_, _)
        | Op::Link(_, _)
        | Op::Exchange(_, _)
        | Op::Lookup(_)
        | Op::Write(_, _, _)
        | Op::Read(_, _, _)
        | Op::SetAttr(_, _, _)
        | Op::GetAttr(_, _) => 0,
    }
}
