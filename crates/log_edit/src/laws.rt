//! Laws of the room that a tree has: the functions here have no parameters and no body.

ghost use Rattle.std.specs.Prelude.{◌≤◌, ℕ, min};
ghost use Rattle.block_table.specs.declared.tree.Tree.{Tree};
ghost use Rattle.block_table.specs.Table.{Table, free_blocks};
ghost use Rattle.tree_range.specs.Shape.{IsTree};
ghost use Rattle.log_edit.specs.Room.{EditKeepsBlocks, EditKeepsBuffers, HasRoomFor, room_needed};

/// An edit of a tree keeps the blocks that edits of it may use, and where it takes and gives back as many buffers as
/// blocks, the buffers too (own).
pub fn an_edit_keeps_the_room()
    ensures blocks { EditKeepsBlocks }
    ensures buffers { EditKeepsBuffers }
{}

/// Where a tree has room for what it is, there are the 17 blocks and buffers that an edit may take (own).
pub fn room_is_enough_for_an_edit()
    ensures free { (table : Table) (tree : Tree) → IsTree table tree → HasRoomFor table tree 0 → 17 ≤ free_blocks table }
    ensures spare { (table : Table) (tree : Tree) → IsTree table tree → HasRoomFor table tree 0 → 17 ≤ table.spare }
{}

/// There is room where the blocks that are Free and the buffers that are spare are as many alone, which a caller can
/// count; and where there is room for more items, there is for fewer (own).
pub fn room_is_there()
    ensures counts { (table : Table) (tree : Tree) (more : ℕ) → room_needed table tree more ≤ min (free_blocks table) table.spare → HasRoomFor table tree more }
    ensures fewer { (table : Table) (tree : Tree) (few more : ℕ) → few ≤ more → HasRoomFor table tree more → HasRoomFor table tree few }
{}
