//! How the trees of the subvolumes are read, by the items of the root tree.
ghost use Rattle.std.specs.Prelude.{◌≡◌, ◌<◌, ◌++◌, ◌∷◌, [], Bool, IfErr, IfOk, List, OnOk, Ok, Some, length, slice_get};
ghost use Rattle.blk_base.specs.declared.key.Want.{Want as Wanted};
ghost use Rattle.tree_range.specs.Shape.{IsSubtree, IsTree, items_below, tree_items};
ghost use Rattle.volume_format.specs.Views.{root_view, super_view};
ghost use Rattle.volume_image.specs.Roots.{root_want, sub_want};
ghost use Rattle.tree_mount.specs.Roots.{AreRootsRead, IsOtherBelow, IsOtherOf, IsRootsFault, as_found, is_root_key, sub_id, with_item, with_items};

use crate::MountFault;
use blk_base::format::{FIRST_FREE, FIRST_SUB, FS_TREE, ROOT_ITEM, ROOT_TREE};
use blk_base::limits::MOST_SUBS;
use blk_base::{Addr, Ino, ItemFault, Key, OutOfMemory, Want};
use block_table::{BlockTable, Tree};
use leaf_view::{LeafView, NodeView};
use std::alloc::Global;
use volume_format::{RootItem, Super};

/// How the root tree is read: the superblock's generation, owner 1.
pub(crate) fn root_want(superblock: &Super) -> Want
    ensures { result ≡ root_want (super_view superblock.now) }
{
    Want {
        fsid: superblock.fsid,
        at: superblock.root,
        generation: superblock.generation,
        owner: ROOT_TREE,
        level: superblock.root_level,
    }
}

/// How a subvolume's tree is read: the root item's generation, and the subvolume's number as owner.
fn sub_want(superblock: &Super, id: u64, root: &RootItem) -> Want
    ensures { result ≡ sub_want (super_view superblock.now) id (root_view root.now) }
{
    Want {
        fsid: superblock.fsid,
        at: root.at,
        generation: root.generation,
        owner: id,
        level: root.level,
    }
}

/// The number of the subvolume at this place, 0 to 15.
fn sub_id(place: usize) -> u64
    requires { place < 16 }
    ensures { result ≡ sub_id place }
{
    if place == 0 {
        return FS_TREE;
    }
    255 + place as u64
}

/// Whether a key is that of the root item of a subvolume ("ROOT_ITEM").
fn is_root_key(key: &Key, id: u64) -> bool
    ensures { result ≡ is_root_key key.now id }
{
    key.objectid == id && key.kind == ROOT_ITEM && key.offset == 0
}

/// How the tree is read whose root item stands at this place of the root tree; `Kind` for the item of another key or one too
/// many, and then `Size` ("ROOT_ITEM" of the Btrfs on-disk format).
fn root_at(place: usize, superblock: &Super, key: &Key, bytes: &[u8]) -> Result<Want, ItemFault>
    ensures { (found : List Wanted) → length found ≡ place
        → as_found found key.now result ≡ with_item (super_view superblock.now) found (key.now, bytes.now) }
{
    if place >= MOST_SUBS as usize {
        return Err(ItemFault::Kind);
    }
    let id = sub_id(place);
    if !is_root_key(key, id) {
        return Err(ItemFault::Kind);
    }
    match RootItem::decode(bytes) {
        Ok(root) => Ok(sub_want(superblock, id, &root)),
        Err(_) => Err(ItemFault::Size),
    }
}

/// The key and the data of the item at a place.
fn item_at<'a>(leaf: &LeafView<'a>, place: usize) -> (Key, &'a [u8])
    requires { place < length leaf.now }
    ensures { slice_get leaf.now place ≡ Some (result.0, result.1.now) }
{
    (leaf.key(place), leaf.data(place))
}

/// Adds how a tree is read.
fn add_want(wants: &mut Vec<Want>, want: Want) -> Result<(), OutOfMemory>
    ensures { OnOk result (wants.new.items ≡ wants.old.items ++ want ∷ []) }
{
    wants.push(want)?;
    Ok(())
}

/// Adds what the items of a leaf at a byte address say.
fn add_leaf(
    wants: &mut Vec<Want>,
    superblock: &Super,
    leaf: &LeafView<'_>,
    at: Addr,
) -> Result<(), MountFault>
    ensures ok { OnOk result (with_items (super_view superblock.now) wants.old.items leaf.now ≡ Ok wants.new.items) }
    ensures fault { IfErr result (IsOtherOf (with_items (super_view superblock.now) wants.old.items leaf.now) leaf.now at) }
{
    for place in 0..leaf.len() {
        let (key, bytes) = item_at(leaf, place);
        match root_at(wants.len(), superblock, &key, bytes) {
            Ok(want) => add_want(wants, want)?,
            Err(why) => return Err(MountFault::Item(at, key, why)),
        }
    }
    Ok(())
}

/// Adds what the items below a block on this level say.
fn add_below(
    wants: &mut Vec<Want>,
    superblock: &Super,
    table: &BlockTable,
    level: u8,
    at: Addr,
) -> Result<(), MountFault>
    requires { (is_root : Bool) × IsSubtree level table.now is_root at.0 }
    ensures ok { OnOk result (with_items (super_view superblock.now) wants.old.items (items_below level table.now at.0) ≡ Ok wants.new.items) }
    ensures fault { IfErr result
        (IsOtherBelow (with_items (super_view superblock.now) wants.old.items (items_below level table.now at.0)) table.now level at.0) }
{
    let block = table.block(at);
    if level == 0 {
        return add_leaf(wants, superblock, &LeafView::of_body(block), at);
    }
    let node = NodeView::of_body(block);
    for place in 0..node.len() {
        add_below(wants, superblock, table, level - 1, node.child(place).0)?;
    }
    Ok(())
}

/// How the trees of the subvolumes are read, by the items of the root tree, 1 to 16 root items in the order of the numbers 5,
/// 256, 257 and so on ("ROOT_ITEM" of the Btrfs on-disk format).
///
/// `Item` with the first item that doesn't belong at its place and the byte address of the leaf that has it; `Incoherent`
/// with inode 256 of subvolume 5 where the tree has no item (own).
pub(crate) fn sub_wants(
    alloc: Global,
    table: &BlockTable,
    superblock: &Super,
    root: &Tree,
) -> Result<Vec<Want>, MountFault>
    requires { IsTree table.now root.now }
    ensures ok { IfOk result (λ wants. AreRootsRead (super_view superblock.now) (tree_items table.now root.now) wants.items) }
    ensures fault { IfErr result (IsRootsFault table.now root.now.level root.now.root.0) }
{
    let mut wants = Vec::new(alloc);
    add_below(&mut wants, superblock, table, root.level, root.root)?;
    if wants.is_empty() {
        return Err(MountFault::Incoherent(FIRST_SUB, Ino(FIRST_FREE)));
    }
    Ok(wants)
}
