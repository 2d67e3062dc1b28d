//! Edits of one subvolume, one behind the other: the functions here have no parameters and no body.

ghost use Rattle.std.specs.Prelude.{◌≡◌, ◌≢◌, ◌≤◌, ◌⊎◌, ◌+◌, ℕ, List, ◌++◌, All, Contains, None, Some};
ghost use Rattle.blk_base.specs.declared.key.Key.{Key};
ghost use Rattle.blk_base.specs.Bytes.{field};
ghost use Rattle.blk_base.specs.Entries.{EntryValue, IsEntries};
ghost use Rattle.blk_base.specs.ItemFaults.{IsEntriesKind};
ghost use Rattle.blk_base.specs.Keys.{extent_data, inode_item};
ghost use Rattle.blk_base.specs.Leaf.{Item};
ghost use Rattle.blk_base.specs.Trees.{NoneTwice};
ghost use Rattle.block_table.specs.declared.tree.SubState.{SubState};
ghost use Rattle.block_table.specs.declared.tree.Tree.{Tree};
ghost use Rattle.block_table.specs.Table.{Table};
ghost use Rattle.block_table.specs.TreeIn.{IsTaken};
ghost use Rattle.tree_range.specs.Between.{data_under};
ghost use Rattle.tree_range.specs.Shape.{AreAlike, IsTree, tree_items, tree_reach};
ghost use Rattle.tree_frame.specs.Frame.{AreCurrent, IsEdit, with_item, without_item};
ghost use Rattle.flat_model.specs.Volume.{Subvolume};
ghost use Rattle.volume_image.specs.Subvolume.{AreItemsOf};
ghost use Rattle.table_volume.specs.Edited.{BearGeneration, HadEntry, IsSubEdit};
ghost use Rattle.table_volume.specs.Gives.{GivesSubvolume, data_in, sub_reach, tree_data};
ghost use Rattle.table_volume.specs.TreeEdit.{IsTreeEdit};

/// One edit of a subvolume behind another is one that takes what both take at most; no edit takes nothing; and what takes
/// so much at most takes more at most.
pub fn sub_edits_join()
    ensures join { (old mid new : Table) (a b c : SubState) (n m : ℕ) → IsSubEdit old mid a b n → IsSubEdit mid new b c m → IsSubEdit old new a c (n + m) }
    ensures nothing { (table : Table) (state : SubState) → AreCurrent table (sub_reach table state.tree) → IsSubEdit table table state state 0 }
    ensures more { (old new : Table) (a b : SubState) (n m : ℕ) → IsSubEdit old new a b n → n ≤ m → IsSubEdit old new a b m }
{}

/// So it is with edits of one tree.
pub fn tree_edits_join()
    ensures join { (old mid new : Table) (a b c : Tree) (running n m : ℕ) → IsTreeEdit old mid a b running n → IsTreeEdit mid new b c running m → IsTreeEdit old new a c running (n + m) }
    ensures nothing { (table : Table) (tree : Tree) (running : ℕ) → IsTree table tree → AreCurrent table (tree_reach table tree) → IsTreeEdit table table tree tree running 0 }
    ensures more { (old new : Table) (a b : Tree) (running n m : ℕ) → IsTreeEdit old new a b running n → n ≤ m → IsTreeEdit old new a b running m }
{}

/// What is new bears a generation where nothing changes, over two changes one behind the other, where one item is put that
/// bears it, and where items are only taken out.
pub fn generations_join()
    ensures nothing { (running : ℕ) (items : List Item) → BearGeneration running items items }
    ensures join { (running : ℕ) (old mid new : List Item) → BearGeneration running old mid → BearGeneration running mid new → BearGeneration running old new }
    ensures put { (running : ℕ) (items : List Item) (key : Key) (bytes : List ℕ) → (key.kind ≡ inode_item → field 8 bytes 8 ≡ running)
        → ((found : List EntryValue) → IsEntriesKind key.kind → IsEntries key.kind bytes found → All (λ entry. HadEntry items key entry ⊎ (entry.transid ≡ running)) found)
        → (key.kind ≡ extent_data → field 8 bytes 0 ≡ running) → BearGeneration running items (with_item key bytes items) }
    ensures fewer { (running : ℕ) (old new : List Item) → ((item : Item) → Contains new item → Contains old item) → BearGeneration running old new }
{}

/// What stands under a key once an item is put under one, and once the item of one is gone.
pub fn one_item_changes()
    ensures put { (key : Key) (bytes : List ℕ) (items : List Item) → data_under key (with_item key bytes items) ≡ Some bytes }
    ensures put_other { (key other : Key) (bytes : List ℕ) (items : List Item) → other ≢ key → data_under other (with_item key bytes items) ≡ data_under other items }
    ensures gone { (key : Key) (items : List Item) → data_under key (without_item key items) ≡ None }
    ensures gone_other { (key other : Key) (items : List Item) → other ≢ key → data_under other (without_item key items) ≡ data_under other items }
{}

/// An edit of one part of a list of blocks, as a tree, leaves the blocks beside it, as data, as they were, and none stands
/// twice afterwards.
pub fn a_tree_edit_is_beside_data()
    ensures edit { (old new : Table) (before after : Tree) (running most : ℕ) (data_at : List ℕ) → NoneTwice (tree_reach old before ++ data_at) → All (IsTaken old) (tree_reach old before ++ data_at)
        → IsTreeEdit old new before after running most → IsEdit old new (tree_reach old before ++ data_at) (tree_reach new after ++ data_at) }
    ensures once { (old new : Table) (before after : Tree) (running most : ℕ) (data_at : List ℕ) → NoneTwice (tree_reach old before ++ data_at) → All (IsTaken old) (tree_reach old before ++ data_at)
        → IsTreeEdit old new before after running most → NoneTwice (tree_reach new after ++ data_at) }
    ensures alike { (old new : Table) (before after : Tree) (running most : ℕ) (data_at : List ℕ) → NoneTwice (tree_reach old before ++ data_at) → All (IsTaken old) (tree_reach old before ++ data_at)
        → IsTreeEdit old new before after running most → AreAlike old new data_at }
{}

/// An edit of a subvolume's tree behind which its items lead to the same data blocks is one of the subvolume; and where these
/// items, with the data as they stood before, are those of another subvolume, the tree gives that one.
pub fn a_tree_edit_is_a_sub_edit()
    ensures edit { (old new : Table) (before after : SubState) (sub : Subvolume) (most : ℕ) → GivesSubvolume old before.tree sub → AreCurrent old (sub_reach old before.tree)
        → IsTreeEdit old new before.tree after.tree before.running most → tree_data new after.tree ≡ tree_data old before.tree → after.running ≡ before.running
        → IsSubEdit old new before after most }
    ensures gives { (old new : Table) (before after : Tree) (running most : ℕ) (sub next : Subvolume) → GivesSubvolume old before sub
        → IsTreeEdit old new before after running most → tree_data new after ≡ tree_data old before → AreItemsOf (tree_items new after) (data_in old) next
        → GivesSubvolume new after next }
{}
