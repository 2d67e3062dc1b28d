//! Numbers of inodes by their kinds.
ghost use Rattle.std.specs.Prelude.{◌≡◌, ◌↔◌, ◌*◌, IsTrue, filter, sum_by};
ghost use Rattle.blk_base.specs.Keys.{dir_index};
ghost use Rattle.item_inode.specs.Inode.{inode_view};
ghost use Rattle.tree_check.specs.Items.{HaveKeys};
ghost use Rattle.tree_range.specs.Shape.{IsTree, tree_items};
ghost use Rattle.coherent_sums.specs.Sums.{index_bytes, is_of, links_in};
ghost use Rattle.coherent_ways.specs.Ways.{has_reached};
ghost use Rattle.coherent_numbers.specs.Numbers.{HasDirNumbers, HasFileNumbers, HasLinkNumbers, are_dir_links, are_links};

use blk_base::Ino;
use blk_base::format::FIRST_FREE;
use blk_base::limits::MOST_FILE_BYTES;
use block_table::{BlockTable, Tree};
use coherent_sums::{Links, index_names_add_up, runs_add_up, target_adds_up};
use coherent_ways::Reached;
use item_inode::InodeItem;

/// Whether a file or a symlink may have so many names: 1 to 65,535; the root directory has none.
fn are_links(ino: Ino, links: u64) -> bool
    ensures { result ≡ are_links ino.0 links }
{
    if ino.0 == FIRST_FREE {
        return links == 0;
    }
    1 <= links && links <= 65_535
}

/// Whether a directory may have so many names: 1; the root directory has none.
fn are_dir_links(ino: Ino, links: u64) -> bool
    ensures { result ≡ are_dir_links ino.0 links }
{
    if ino.0 == FIRST_FREE {
        return links == 0;
    }
    links == 1
}

/// Whether a directory's size is twice the bytes of the names in its index.
fn is_dir_size(table: &BlockTable, tree: &Tree, dir: Ino, size: u64) -> bool
    requires tree { IsTree table.now tree.now }
    requires keys { HaveKeys (tree_items table.now tree.now) }
    ensures { IsTrue result ↔ (size ≡ 2 * sum_by index_bytes (filter (is_of dir_index dir.0) (tree_items table.now tree.now))) }
{
    size % 2 == 0 && index_names_add_up(table, tree, dir, size / 2)
}

/// Whether the numbers of a file's item are right ("INODE_ITEM" of the Btrfs on-disk format; own limits).
pub fn is_right_file(
    table: &BlockTable,
    tree: &Tree,
    links: &Links,
    ino: Ino,
    item: &InodeItem,
) -> bool
    requires tree { IsTree table.now tree.now }
    requires keys { HaveKeys (tree_items table.now tree.now) }
    ensures { IsTrue result ↔ HasFileNumbers (tree_items table.now tree.now) (links_in links.now ino.0) ino.0 (inode_view item.now) }
{
    let count = links.count(ino);
    u64::from(item.nlink) == count
        && are_links(ino, count)
        && runs_add_up(table, tree, ino, item.nbytes)
        && item.size <= MOST_FILE_BYTES
}

/// Whether the numbers of a directory's item are right, and names lead down to it ("INODE_ITEM" of the Btrfs on-disk
/// format).
pub fn is_right_dir(
    table: &BlockTable,
    tree: &Tree,
    links: &Links,
    reached: &Reached,
    ino: Ino,
    item: &InodeItem,
) -> bool
    requires tree { IsTree table.now tree.now }
    requires keys { HaveKeys (tree_items table.now tree.now) }
    ensures { IsTrue result ↔ HasDirNumbers (tree_items table.now tree.now) (links_in links.now ino.0) (has_reached reached.now ino.0) ino.0 (inode_view item.now) }
{
    item.nlink == 1
        && are_dir_links(ino, links.count(ino))
        && item.nbytes == 0
        && is_dir_size(table, tree, ino, item.size)
        && reached.has(ino)
}

/// Whether the numbers of a symlink's item are right ("INODE_ITEM" of the Btrfs on-disk format; own limits).
pub fn is_right_link(
    table: &BlockTable,
    tree: &Tree,
    links: &Links,
    ino: Ino,
    item: &InodeItem,
) -> bool
    requires tree { IsTree table.now tree.now }
    requires keys { HaveKeys (tree_items table.now tree.now) }
    ensures { IsTrue result ↔ HasLinkNumbers (tree_items table.now tree.now) (links_in links.now ino.0) ino.0 (inode_view item.now) }
{
    let count = links.count(ino);
    u64::from(item.nlink) == count
        && are_links(ino, count)
        && item.nbytes == item.size
        && target_adds_up(table, tree, ino, item.size)
        && (1 <= item.size && item.size <= 1023)
}
