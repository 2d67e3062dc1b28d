ghost use Rattle.std.specs.Prelude.{◌≡◌, ◌≢◌, ◌≤◌, ◌+◌, ℕ, length, IsTrue, ◌↔◌};
ghost use Rattle.block_table.specs.declared.state.SlotState.{SlotState};
ghost use Rattle.block_table.specs.Table.{state_at};
ghost use Rattle.block_table.specs.TreeIn.{IsSealedTree};
ghost use Rattle.tree_range.specs.Shape.{IsTree, reach_below, tree_items, tree_reach};
ghost use Rattle.tree_seal.specs.Above.{IsDirtyAbove};
ghost use Rattle.tree_seal.specs.OnImage.{AreClean};
ghost use Rattle.tree_seal.specs.Sealing.{AreHanded, IsSealable, IsSealedBelow, IsSealing};

use crate::one::seal_one;
use blk_base::{Addr, Want};
use block_table::{BlockTable, Blocks, SlotState, Tree};
use tree_blocks::{node_child, node_len, node_set_child};

/// Whether the block at a byte address is Dirty.
fn is_dirty(table: &BlockTable, at: Addr) -> bool
    ensures { IsTrue result ↔ (state_at table.now at ≡ SlotState.Dirty) }
{
    table.state(at) == SlotState::Dirty
}

/// Seals a tree: each Dirty block of it, from the leaves up, gets its header and its sum, is Sealed, and a box with its
/// bytes is put at the end of `out`; the pointers to blocks that were Dirty get the generation. A tree whose root isn't
/// Dirty has no Dirty block, and nothing is done. It takes no memory ("btrfs_write_and_wait_transaction" of
/// fs/btrfs/transaction.c; "csum_tree_block" of fs/btrfs/disk-io.c).
pub fn seal_tree(
    table: &mut BlockTable,
    tree: &Tree,
    fsid: &[u8; 16],
    generation: u64,
    out: &mut Blocks,
)
    requires tree { IsTree table.old tree.now }
    requires above { IsDirtyAbove table.old tree.now }
    requires written { (was : ℕ) × IsSealedTree table.old tree.now fsid.now was }
    requires lent { out.old.room ≡ length table.old.slots }
    requires room { length out.old.pairs + length (tree_reach table.old tree.now) ≤ length table.old.slots }
    ensures tree { IsTree table.new tree.now }
    ensures items { tree_items table.new tree.now ≡ tree_items table.old tree.now }
    ensures reach { tree_reach table.new tree.now ≡ tree_reach table.old tree.now }
    ensures sealing { IsSealing table.old table.new (tree_reach table.old tree.now) }
    ensures clean { AreClean table.new (tree_reach table.new tree.now) }
    ensures handed { AreHanded table.old table.new (tree_reach table.old tree.now) out.old.pairs out.new.pairs }
    ensures room { out.new.room ≡ out.old.room }
    ensures sealed { state_at table.old tree.now.root ≡ SlotState.Dirty → IsSealedTree table.new tree.now fsid.now generation }
    ensures unchanged { state_at table.old tree.now.root ≢ SlotState.Dirty → (table.new ≡ table.old) × (out.new ≡ out.old) }
{
    if !is_dirty(table, tree.root) {
        return;
    }
    let want = Want {
        fsid: *fsid,
        at: tree.root,
        generation,
        owner: tree.owner,
        level: tree.level,
    };
    seal_below(table, &want, out);
}

/// Seals a Dirty block and the Dirty blocks below it, children first.
fn seal_below(table: &mut BlockTable, want: &Want, out: &mut Blocks)
    requires sealable { IsSealable want.now.level table.old want.now }
    requires lent { out.old.room ≡ length table.old.slots }
    requires room { length out.old.pairs + length (reach_below want.now.level table.old want.now.at.0) ≤ length table.old.slots }
    ensures below { IsSealedBelow want.now.level table.old table.new want.now }
    ensures sealing { IsSealing table.old table.new (reach_below want.now.level table.old want.now.at.0) }
    ensures handed { AreHanded table.old table.new (reach_below want.now.level table.old want.now.at.0) out.old.pairs out.new.pairs }
    ensures room { out.new.room ≡ out.old.room }
{
    if want.level == 0 {
        seal_one(table, want, out);
        return;
    }
    for place in 0..node_len(table, want.at) {
        let (at, _) = node_child(table, want.at, place);
        if is_dirty(table, at) {
            let child = Want {
                at,
                level: want.level - 1,
                ..*want
            };
            seal_below(table, &child, out);
            node_set_child(table, want.at, place, at, want.generation);
        }
    }
    seal_one(table, want, out);
}
