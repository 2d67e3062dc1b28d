//! Laws of the grammar in `blk_base`: each function that reads is `Ok` exactly where the relation beside it holds, and
//! what is written is read back. All laws are of definitions alone: the functions here have no parameters and no body.
//!
//! Proofs of other crates take the lemmas behind the laws from `specs/`: `Fields` on bytes that others were written
//! over, `Checks` on checks in order, `Places` on lists over the places of a block, `Tables` on tables of fields,
//! `Sealed` on blocks that differ in their headers alone.
#![tactic(auto)]

ghost use Rattle.std.specs.Prelude.{◌≡◌, ◌^◌, ◌<◌, ◌≤◌, ◌↔◌, ℕ, List, length};
ghost use Rattle.blk_base.specs.Superblock.{SuperValue, SuperFits, IsSuper, super_of, super_bytes};
ghost use Rattle.blk_base.specs.Bytes.{IsBytes, IsBlock, field, number_bytes};
ghost use Rattle.blk_base.specs.Items.{InodeValue, IsInode, inode_of, inode_bytes, RootValue, RootFits, IsRoot, root_of, root_bytes, IsRange, range_of};
ghost use Rattle.blk_base.specs.declared.key.Want.{Want};
ghost use Rattle.blk_base.specs.Leaf.{sealed, Item, IsLeafBody, IsLeaf, leaf_body_of, leaf_of, Pointer, IsNodeBody, IsNode, node_body_of, node_of};
ghost use Rattle.format_laws.specs.Items.{InodeFits};
ghost use Rattle.format_laws.specs.Sealed.{WantFits};

/// A field of so many bytes is below that power of 256 (own).
pub fn field_is_below()
    ensures { (count at : ℕ) (bytes : List ℕ) → IsBytes bytes → field count bytes at < 256 ^ count }
{}

/// A superblock is read exactly where the bytes are one that says this ("Superblock" of the on-disk format).
pub fn super_is_read()
    ensures { (bytes : List ℕ) (disk_blocks : ℕ) (value : SuperValue) → (super_of bytes disk_blocks ≡ Ok value) ↔ IsSuper bytes disk_blocks value }
{}

/// The superblock as it is written is a block ("Superblock" of the on-disk format).
pub fn super_is_block()
    ensures { (value : SuperValue) → SuperFits value → IsBlock (super_bytes value) }
{}

/// A superblock is read as it was written, on a disk that has the volume's blocks ("Superblock" of the on-disk format).
pub fn super_reads_back()
    ensures { (value : SuperValue) (disk_blocks : ℕ) → SuperFits value → value.blocks ≤ disk_blocks → super_of (super_bytes value) disk_blocks ≡ Ok value }
{}

/// An inode item is read exactly where the bytes are one that says this ("INODE_ITEM" of the on-disk format).
pub fn inode_is_read()
    ensures { (bytes : List ℕ) (value : InodeValue) → (inode_of bytes ≡ Ok value) ↔ IsInode bytes value }
{}

/// An inode item is read as it was written ("INODE_ITEM" of the on-disk format).
pub fn inode_reads_back()
    ensures { (value : InodeValue) → InodeFits value → inode_of (inode_bytes value) ≡ Ok value }
{}

/// A root item is read exactly where the bytes are one that says this ("ROOT_ITEM" of the on-disk format).
pub fn root_is_read()
    ensures { (bytes : List ℕ) (value : RootValue) → (root_of bytes ≡ Ok value) ↔ IsRoot bytes value }
{}

/// A root item is read as it was written ("ROOT_ITEM" of the on-disk format).
pub fn root_reads_back()
    ensures { (value : RootValue) → RootFits value → root_of (root_bytes value) ≡ Ok value }
{}

/// A range of a log is read exactly where the bytes are one up to this index ("DIR_LOG_INDEX" of the on-disk format).
pub fn range_is_read()
    ensures { (bytes : List ℕ) (last : ℕ) → (range_of bytes ≡ Ok last) ↔ IsRange bytes last }
{}

/// A range of a log is read as it was written ("DIR_LOG_INDEX" of the on-disk format).
pub fn range_reads_back()
    ensures { (last : ℕ) → last < 2 ^ 64 → range_of (number_bytes 8 last) ≡ Ok last }
{}

/// The body of a leaf is read exactly where the block is a leaf with these items ("Leaf Node" of the on-disk format).
pub fn leaf_body_is_read()
    ensures { (bytes : List ℕ) (items : List Item) → (leaf_body_of bytes ≡ Ok items) ↔ IsLeafBody bytes items }
{}

/// A leaf is read exactly where the block is the leaf that is wanted, with these items ("Leaf Node" of the on-disk
/// format).
pub fn leaf_is_read()
    ensures { (want : Want) (bytes : List ℕ) (items : List Item) → (leaf_of want bytes ≡ Ok items) ↔ IsLeaf want bytes items }
{}

/// A block is a leaf of one list of items (own).
pub fn leaf_has_one_list()
    ensures { (bytes : List ℕ) (one other : List Item) → IsLeafBody bytes one → IsLeafBody bytes other → one ≡ other }
{}

/// The body of a node is read exactly where the block is a node with these pointers ("Internal Node" of the on-disk
/// format).
pub fn node_body_is_read()
    ensures { (bytes : List ℕ) (pointers : List Pointer) → (node_body_of bytes ≡ Ok pointers) ↔ IsNodeBody bytes pointers }
{}

/// A node is read exactly where the block is the node that is wanted, with these pointers ("Internal Node" of the
/// on-disk format).
pub fn node_is_read()
    ensures { (want : Want) (bytes : List ℕ) (pointers : List Pointer) → (node_of want bytes ≡ Ok pointers) ↔ IsNode want bytes pointers }
{}

/// A block is a node of one list of pointers (own).
pub fn node_has_one_list()
    ensures { (bytes : List ℕ) (one other : List Pointer) → IsNodeBody bytes one → IsNodeBody bytes other → one ≡ other }
{}

/// A leaf that is sealed, which is to have its header written, is read as its body was ("Header" and "Leaf Node" of the
/// on-disk format).
pub fn sealed_leaf_is_read()
    ensures { (want : Want) (bytes : List ℕ) → length bytes ≡ 4096 → IsBytes bytes → WantFits want → leaf_of want (sealed want bytes) ≡ leaf_body_of bytes }
{}

/// A node that is sealed is read as its body was ("Header" and "Internal Node" of the on-disk format).
pub fn sealed_node_is_read()
    ensures { (want : Want) (bytes : List ℕ) → length bytes ≡ 4096 → IsBytes bytes → WantFits want → node_of want (sealed want bytes) ≡ node_body_of bytes }
{}
