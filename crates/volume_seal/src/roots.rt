//! The root items of a volume's trees.
ghost use Rattle.std.specs.Prelude.{◌≡◌, ◌≢◌, ◌≤◌, ◌<◌, ◌^◌, All, length, take};
ghost use Rattle.block_table.specs.declared.state.SlotState.{SlotState};
ghost use Rattle.block_table.specs.TreeIn.{IsTaken, block_at};
ghost use Rattle.volume_format.specs.Views.{root_view};
ghost use Rattle.root_tree.specs.Roots.{root_entries};
ghost use Rattle.volume_seal.specs.Roots.{root_of, state_entries};

use blk_base::format::ROOT_ITEM;
use blk_base::limits::MOST_SUBS;
use blk_base::{Addr, Key, u64_at};
use block_table::{BlockTable, SubState, Tree};
use volume_format::RootItem;

/// Root items under their keys, of as many subvolumes as a volume may have.
pub(crate) type Roots = [(Key, RootItem); MOST_SUBS as usize];

/// What the root item of a tree says whose root's header is right ("ROOT_ITEM" of the on-disk format).
fn root_of(table: &BlockTable, tree: &Tree) -> RootItem
    requires { (block_at table.now tree.now.root.0).state ≢ SlotState.Free }
    ensures root { root_view result ≡ root_of table.now tree.now }
    ensures fits { result.generation < 2 ^ 64 }
{
    RootItem {
        generation: u64_at(table.block(tree.root), 80),
        at: tree.root,
        level: tree.level,
    }
}

/// No root items yet.
fn no_roots() -> Roots
    ensures { length result ≡ 16 }
{
    let key = Key {
        objectid: 0,
        kind: ROOT_ITEM,
        offset: 0,
    };
    let root = RootItem {
        generation: 0,
        at: Addr(0),
        level: 0,
    };
    [(key, root); MOST_SUBS as usize]
}

/// The root items of the trees of at most 16 subvolumes, in front of others that count for nothing.
pub(crate) fn roots_of(table: &BlockTable, states: &[SubState]) -> Roots
    requires few { length states.now ≤ 16 }
    requires taken { All (λ state. IsTaken table.now state.tree.root.0) states.now }
    ensures items { root_entries (take (length states.now) result) ≡ state_entries table.now states.now }
    ensures fits { All (λ state. (root_of table.now state.tree).generation < 2 ^ 64) states.now }
{
    let mut roots = no_roots();
    for place in 0..states.len() {
        let tree = &states[place].tree;
        let key = Key {
            objectid: tree.owner,
            kind: ROOT_ITEM,
            offset: 0,
        };
        roots[place] = (key, root_of(table, tree));
    }
    roots
}
