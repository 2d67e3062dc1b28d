//! How many bytes the items of names have.
ghost use Rattle.std.specs.Prelude.{◌≡◌, ◌≢◌};
ghost use Rattle.flat_model.specs.Lengths.{dir_item_length, extref_item_length, ref_item_length};
ghost use Rattle.flat_model.specs.Volume.{Subvolume};
ghost use Rattle.tree_range.specs.Shape.{IsTree};
ghost use Rattle.name_walk.specs.Given.{GivesCoherent};

use crate::item::{extref_bytes, hashed_bytes, ref_bytes};
use block_table::{BlockTable, Tree};

/// How many bytes the item of a directory's names with a hash has, 0 where there is none ("DIR_ITEM").
pub fn dir_item_len(table: &BlockTable, tree: &Tree, dir: u64, hash: u32) -> usize
    requires { IsTree table.now tree.now }
    ensures { (sub : Subvolume) → GivesCoherent table.now tree.now sub → result ≡ dir_item_length sub.names dir hash }
{
    match hashed_bytes(table, tree, dir, hash) {
        Some(bytes) => bytes.len(),
        None => 0,
    }
}

/// How many bytes the item of an inode's near names in a directory has, 0 where there is none ("INODE_REF"). The root
/// directory's names itself.
pub fn ref_item_len(table: &BlockTable, tree: &Tree, ino: u64, dir: u64) -> usize
    requires { IsTree table.now tree.now }
    ensures { (sub : Subvolume) → GivesCoherent table.now tree.now sub → ino ≢ 256 → result ≡ ref_item_length sub.names ino dir }
{
    match ref_bytes(table, tree, ino, dir) {
        Some(bytes) => bytes.len(),
        None => 0,
    }
}

/// How many bytes the item of an inode's far names with a hash has, 0 where there is none ("INODE_EXTREF").
pub fn extref_item_len(table: &BlockTable, tree: &Tree, ino: u64, hash: u32) -> usize
    requires { IsTree table.now tree.now }
    ensures { (sub : Subvolume) → GivesCoherent table.now tree.now sub → result ≡ extref_item_length sub.names ino hash }
{
    match extref_bytes(table, tree, ino, hash) {
        Some(bytes) => bytes.len(),
        None => 0,
    }
}
