//! What an inode has.
ghost use Rattle.std.specs.Prelude.{◌≡◌, ◌≤◌, ◌+◌, ◌^◌};
ghost use Rattle.std.specs.FinMap.{get};
ghost use Rattle.flat_model.specs.Needs.{blocks_and_items_there, blocks_past};
ghost use Rattle.flat_model.specs.Operations.{file_there};
ghost use Rattle.flat_model.specs.Volume.{Subvolume};
ghost use Rattle.tree_range.specs.Shape.{IsTree};
ghost use Rattle.operation_needs.specs.Items.{inline_extents_there};
ghost use Rattle.name_walk.specs.Given.{GivesCoherent};

use crate::attributes::attribute_count;
use blk_base::Ino;
use block_table::{BlockTable, Tree};
use file_contents::blocks_past;
use flat_model::Kind;
use name_walk::record_kind;

/// How many data blocks of an inode are wholly past a size in bytes, where it is a file, and 0 where it is none
/// ("EXTENT_DATA").
pub(crate) fn file_blocks_past(table: &BlockTable, tree: &Tree, ino: Ino, size: u64) -> u64
    requires { (sub : Subvolume) × GivesCoherent table.now tree.now sub }
    ensures count { (sub : Subvolume) → GivesCoherent table.now tree.now sub
        → result ≡ blocks_past (file_there (get sub.inodes ino.0)) size }
    ensures few { result ≤ 4096 }
{
    match record_kind(table, tree, ino.0) {
        Some(Kind::File) => blocks_past(table, tree, ino, size),
        Some(Kind::Dir) => 0,
        Some(Kind::Link) => 0,
        None => 0,
    }
}

/// How many inline extents an inode has: a symlink has one ("EXTENT_DATA").
fn inline_count(table: &BlockTable, tree: &Tree, ino: Ino) -> u64
    requires { IsTree table.now tree.now }
    ensures count { (sub : Subvolume) → GivesCoherent table.now tree.now sub → result ≡ inline_extents_there (get sub.inodes ino.0) }
    ensures few { result ≤ 1 }
{
    match record_kind(table, tree, ino.0) {
        Some(Kind::Link) => 1,
        Some(Kind::File) => 0,
        Some(Kind::Dir) => 0,
        None => 0,
    }
}

/// How many data blocks, inline extents and attribute items an inode has, and 0 where it isn't there ("EXTENT_DATA",
/// "XATTR_ITEM" of the on-disk format).
pub(crate) fn blocks_and_items(table: &BlockTable, tree: &Tree, ino: Ino) -> u64
    requires { (sub : Subvolume) × GivesCoherent table.now tree.now sub }
    ensures count { (sub : Subvolume) → GivesCoherent table.now tree.now sub → result ≡ blocks_and_items_there (get sub.inodes ino.0) }
    ensures few { result ≤ 2 ^ 32 + 4097 }
{
    let blocks = file_blocks_past(table, tree, ino, 0);
    let inline = inline_count(table, tree, ino);
    blocks + inline + attribute_count(table, tree, ino)
}
