ghost use Rattle.std.specs.Prelude.{◌≡◌, ◌≤◌, ◌<◌, ◌+◌, ◌*◌, ℕ, List, length, insert, true, Ok};
ghost use Rattle.blk_base.specs.Leaf.{Item, Pointer, IsLeafBody, leaf_body_of, data_of};
ghost use Rattle.blk_base.specs.declared.key.Key.{Key};
ghost use Rattle.blk_base.specs.Keys.{keys_rise};
ghost use Rattle.leaf_view.specs.Search.{keys_of, pointer_keys, IsPlace};
ghost use Rattle.leaf_edit.specs.Packed.{IsPacked};
ghost use Rattle.leaf_edit.specs.Written.{data_at, with_data};
ghost use Rattle.leaf_edit.specs.declared.leaf_mut.LeafMut.{LeafMut};
ghost use Rattle.leaf_edit.specs.Editor.{items_of, bytes_of, lender_of};
ghost use Rattle.leaf_edit.specs.Lending.{with_written};

use blk_base::format::{BLOCK_SIZE, ITEM_HEADER_SIZE, LEAF_BYTES};

/// A packed leaf is a leaf's body. A law about the definitions.
pub fn packed_leaves_pass()
    ensures { (bytes : List ℕ) (items : List Item) → IsPacked bytes items → leaf_body_of bytes ≡ Ok items }
{}

/// The items of any leaf fit one that is packed. A law about the definitions.
pub fn leaves_fit()
    ensures { (bytes : List ℕ) (items : List Item) → length bytes ≡ BLOCK_SIZE → IsLeafBody bytes items → ITEM_HEADER_SIZE * length items + data_of items ≤ LEAF_BYTES }
{}

/// A key that is put in where a search says that it belongs leaves the keys rising: the condition of `insert`. A law
/// about the definitions.
pub fn places_keep_order()
    ensures items { (items : List Item) (at : ℕ) (key : Key) (bytes : List ℕ) → keys_rise (keys_of items) ≡ true → IsPlace (keys_of items) key at → keys_rise (keys_of (insert items at (key, bytes))) ≡ true }
    ensures pointers { (pointers : List Pointer) (at : ℕ) (pointer : Pointer) → keys_rise (pointer_keys pointers) ≡ true → IsPlace (pointer_keys pointers) pointer.key at → keys_rise (pointer_keys (insert pointers at pointer)) ≡ true }
{}

/// What a loan of an item's data comes back as: the items with what is left behind it, in a leaf's body, and the same
/// borrow. A law about the definitions.
pub fn loans_come_back()
    ensures items { (leaf : LeafMut) (at : ℕ) (content : List ℕ) → at < length (items_of leaf) → length content ≡ length (data_at (items_of leaf) at) → items_of (with_written leaf at content) ≡ with_data (items_of leaf) at content }
    ensures body { (leaf : LeafMut) (at : ℕ) (content : List ℕ) → leaf_body_of (bytes_of (with_written leaf at content)) ≡ Ok (items_of (with_written leaf at content)) }
    ensures lender { (leaf : LeafMut) (at : ℕ) (content : List ℕ) → lender_of (with_written leaf at content) ≡ lender_of leaf }
{}
