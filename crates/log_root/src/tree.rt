//! The tree of the leaves of root items of logs.
ghost use Rattle.std.specs.Prelude.{◌≡◌, ◌≤◌, ◌<◌, ◌∷◌, [], length};
ghost use Rattle.blk_base.specs.Trees.{ItemsRise};
ghost use Rattle.block_table.specs.declared.tree.Tree.{Tree};
ghost use Rattle.log_root.specs.Built.{IsBuilt, IsSet, addresses, log_reach, log_tree};
ghost use Rattle.log_root.specs.Entries.{IdsRise, log_entries};

use crate::leaf::{ROOTS_IN_LEAF, front_key, write_leaf};
use crate::node::write_node;
use blk_base::format::TREE_LOG;
use blk_base::{Addr, SubId};
use block_table::{BlockTable, Tree};
use tree_blocks::Child;
use volume_format::RootItem;

/// Makes the log root tree of at most 16 logs, each by its subvolume's id with what its root item says, by rising ids, over
/// three Dirty blocks of any bytes ("btrfs_sync_log" of fs/btrfs/tree-log.c; "ROOT_ITEM" of the on-disk format). Eight logs
/// or fewer, also none, stand in one leaf at the first address; more in leaves at the first and the second, under a node at
/// the third (own). It takes no memory, no block and no buffer. The tree may be sealed in any generation, which a seal
/// writes into the node's pointers.
#[tactic(auto, using(crate::proofs::Shapes::entries_rise))]
pub fn build(table: &mut BlockTable, set: &[Addr; 3], subs: &[(SubId, RootItem)]) -> Tree
    requires few { length subs.now ≤ 16 }
    requires rise { IdsRise subs.now }
    requires set { IsSet table.old (addresses set.now) }
    ensures tree { result ≡ log_tree (length subs.now) set.now }
    ensures built { IsBuilt table.old table.new result (log_entries subs.now) (log_reach (length subs.now) set.now) }
{
    if subs.len() <= ROOTS_IN_LEAF {
        return build_leaf(table, set[0], subs);
    }
    build_node(table, set[0], set[1], set[2], subs)
}

/// Makes the tree of one leaf.
fn build_leaf(table: &mut BlockTable, at: Addr, subs: &[(SubId, RootItem)]) -> Tree
    requires few { length subs.now ≤ ROOTS_IN_LEAF }
    requires rise { ItemsRise (log_entries subs.now) }
    requires set { IsSet table.old (at.0 ∷ []) }
    ensures tree { result ≡ record { root = at; level = 0; owner = TREE_LOG } }
    ensures built { IsBuilt table.old table.new result (log_entries subs.now) (at.0 ∷ []) }
{
    write_leaf(table, at, subs);
    Tree {
        root: at,
        level: 0,
        owner: TREE_LOG,
    }
}

/// Makes the tree of two leaves and a node.
fn build_node(
    table: &mut BlockTable,
    first: Addr,
    second: Addr,
    root: Addr,
    subs: &[(SubId, RootItem)],
) -> Tree
    requires many { ROOTS_IN_LEAF < length subs.now }
    requires few { length subs.now ≤ 16 }
    requires rise { ItemsRise (log_entries subs.now) }
    requires set { IsSet table.old (first.0 ∷ second.0 ∷ root.0 ∷ []) }
    ensures tree { result ≡ record { root = root; level = 1; owner = TREE_LOG } }
    ensures built { IsBuilt table.old table.new result (log_entries subs.now) (root.0 ∷ first.0 ∷ second.0 ∷ []) }
{
    let (front, back) = subs.split_at(ROOTS_IN_LEAF);
    write_leaf(table, first, front);
    write_leaf(table, second, back);
    let one = Child {
        key: front_key(front),
        at: first,
        generation: 0,
    };
    let two = Child {
        key: front_key(back),
        at: second,
        generation: 0,
    };
    write_node(table, root, one, two);
    Tree {
        root,
        level: 1,
        owner: TREE_LOG,
    }
}
