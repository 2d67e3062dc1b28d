//! What must hold of one item.
ghost use Rattle.std.specs.Prelude.{◌≡◌, ◌↔◌, IsTrue};
ghost use Rattle.blk_base.specs.Items.{inode_of};
ghost use Rattle.item_inode.specs.Inode.{inode_view};
ghost use Rattle.tree_check.specs.Items.{HaveKeys};
ghost use Rattle.tree_range.specs.Shape.{IsTree, tree_items};
ghost use Rattle.volume_image.specs.Subvolume.{Data};
ghost use Rattle.image_faults.specs.Said.{said_sub};
ghost use Rattle.inode_lines.specs.Kinds.{said_kind};
ghost use Rattle.coherent.specs.Passes.{HasExtentSize, HasNumbersOf, HasReadNumbers, HasRightContent, PassesItem, PassesRoot};

use crate::survey::Survey;
use blk_base::format::{
    DIR_INDEX, DIR_ITEM, EXTENT_DATA, FIRST_FREE, INODE_ITEM, INODE_REF, XATTR_ITEM,
};
use blk_base::{Ino, Key};
use block_table::{BlockTable, Tree};
use coherent_items::{are_right_attributes, are_right_entries, is_right_index_item};
use coherent_limits::is_right_extent;
use coherent_names::has_own_ref_once;
use coherent_numbers::{is_right_dir, is_right_file, is_right_link};
use flat_model::Kind;
use inode_lines::{has_inode_item, has_own_ref, has_right_key, is_ino_number, kind_at};
use item_inode::InodeItem;

/// Whether the numbers of an inode's item are those of an inode of this kind; without a kind they may be any.
fn are_numbers_of(
    table: &BlockTable,
    tree: &Tree,
    survey: &Survey<'_>,
    kind: Option<Kind>,
    ino: Ino,
    item: &InodeItem,
) -> bool
    requires tree { IsTree table.now tree.now }
    requires keys { HaveKeys (tree_items table.now tree.now) }
    ensures { IsTrue result ↔ HasNumbersOf (tree_items table.now tree.now) survey.now kind ino.0 (inode_view item.now) }
{
    match kind {
        Some(Kind::File) => is_right_file(table, tree, &survey.links, ino, item),
        Some(Kind::Dir) => is_right_dir(table, tree, &survey.links, &survey.reached, ino, item),
        Some(Kind::Link) => is_right_link(table, tree, &survey.links, ino, item),
        None => true,
    }
}

/// Whether the numbers of an inode's item are right; one that can't be read has none.
fn has_right_numbers(
    table: &BlockTable,
    tree: &Tree,
    survey: &Survey<'_>,
    ino: Ino,
    bytes: &[u8],
) -> bool
    requires tree { IsTree table.now tree.now }
    requires keys { HaveKeys (tree_items table.now tree.now) }
    ensures { (blocks : Data) → (IsTrue result ↔ HasReadNumbers (tree_items table.now tree.now) survey.now (said_kind (tree_items table.now tree.now) blocks ino.0) ino.0 (inode_of bytes.now)) }
{
    match InodeItem::decode(bytes) {
        Ok(item) => are_numbers_of(table, tree, survey, kind_at(table, tree, ino), ino, &item),
        Err(_) => true,
    }
}

/// Whether what an item says is right, apart from its key.
fn has_right_content<'t>(
    table: &'t BlockTable,
    tree: &Tree,
    survey: &Survey<'t>,
    key: &Key,
    bytes: &'t [u8],
) -> bool
    requires tree { IsTree table.now tree.now }
    requires keys { HaveKeys (tree_items table.now tree.now) }
    ensures sound { (blocks : Data) → IsTrue result → HasRightContent (tree_items table.now tree.now) table.now (said_kind (tree_items table.now tree.now) blocks) survey.now key.now bytes.now }
    ensures complete { (blocks : Data) → HasExtentSize (tree_items table.now tree.now) key.now → HasRightContent (tree_items table.now tree.now) table.now (said_kind (tree_items table.now tree.now) blocks) survey.now key.now bytes.now → IsTrue result }
{
    match key.kind {
        INODE_ITEM => has_right_numbers(table, tree, survey, Ino(key.objectid), bytes),
        INODE_REF => has_own_ref_once(key, bytes),
        DIR_ITEM => are_right_entries(table, tree, &survey.slots, key, bytes),
        DIR_INDEX => is_right_index_item(table, tree, &survey.slots, key, bytes),
        XATTR_ITEM => are_right_attributes(bytes),
        EXTENT_DATA => is_right_extent(table, tree, key, bytes),
        _ => true,
    }
}

/// Whether an item is right: the number of its inode, which has an inode item, its key, and what it says.
pub(crate) fn is_right_item<'t>(
    table: &'t BlockTable,
    tree: &Tree,
    survey: &Survey<'t>,
    key: &Key,
    bytes: &'t [u8],
) -> bool
    requires tree { IsTree table.now tree.now }
    requires keys { HaveKeys (tree_items table.now tree.now) }
    ensures sound { (blocks : Data) → IsTrue result → PassesItem (tree_items table.now tree.now) table.now blocks survey.now key.now bytes.now }
    ensures complete { (blocks : Data) → HasExtentSize (tree_items table.now tree.now) key.now → PassesItem (tree_items table.now tree.now) table.now blocks survey.now key.now bytes.now → IsTrue result }
{
    is_ino_number(Ino(key.objectid))
        && has_inode_item(table, tree, Ino(key.objectid))
        && has_right_key(table, tree, key, bytes)
        && has_right_content(table, tree, survey, key, bytes)
}

/// Whether the root directory is there, with its name for itself.
pub(crate) fn is_right_root(table: &BlockTable, tree: &Tree) -> bool
    requires { IsTree table.now tree.now }
    ensures { (blocks : Data) → (IsTrue result ↔ PassesRoot (tree_items table.now tree.now) (said_kind (tree_items table.now tree.now) blocks)) }
{
    matches!(kind_at(table, tree, Ino(FIRST_FREE)), Some(Kind::Dir)) && has_own_ref(table, tree)
}
