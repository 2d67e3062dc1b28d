//! The items of a tree, and all its names.
ghost use Rattle.std.specs.Prelude.{◌≡◌, IfOk};
ghost use Rattle.tree_check.specs.Items.{HaveKeys};
ghost use Rattle.tree_range.specs.Shape.{IsTree, tree_items};
ghost use Rattle.coherent_names.specs.Names.{all_names, flat_names};

use crate::name::{Name, add_item};
use blk_base::{Key, OutOfMemory};
use block_table::{BlockTable, Tree};
use std::alloc::Global;
use tree_range::{Range, range};

/// The items of a tree by rising keys, with the parts of its blocks that are their data.
pub fn every_item<'t>(table: &'t BlockTable, tree: &Tree) -> Range<'t>
    requires tree { IsTree table.now tree.now }
    requires keys { HaveKeys (tree_items table.now tree.now) }
    ensures { result ≡ tree_items table.now tree.now }
{
    let first = Key {
        objectid: 0,
        kind: 0,
        offset: 0,
    };
    let last = Key {
        objectid: u64::MAX,
        kind: u8::MAX,
        offset: u64::MAX,
    };
    range(table, tree, &first, &last)
}

/// All names that the refs of a tree's items say, in the order of the items ("INODE_REF" and "INODE_EXTREF" of the Btrfs
/// on-disk format). An item that can't be read says none, and `..` in the root directory is no name.
pub fn names_of<'t>(
    alloc: Global,
    table: &'t BlockTable,
    tree: &Tree,
) -> Result<Vec<Name<'t>>, OutOfMemory>
    requires tree { IsTree table.now tree.now }
    requires keys { HaveKeys (tree_items table.now tree.now) }
    ensures { IfOk result (λ names. flat_names names.items ≡ all_names (tree_items table.now tree.now)) }
{
    let mut names = Vec::new(alloc);
    for (key, bytes) in every_item(table, tree) {
        add_item(&mut names, &key, bytes)?;
    }
    Ok(names)
}
