ghost use Rattle.std.specs.Prelude.{◌≡◌, ◌+◌, ◌<◌, ◌^◌, ◌++◌, ℕ, List, [], ◌∷◌, All, Contains, MatchOption};
ghost use Rattle.blk_base.specs.declared.key.Key.{Key as KeyValue};
ghost use Rattle.blk_base.specs.Keys.{KeyBelow};
ghost use Rattle.blk_base.specs.Leaf.{Item};
ghost use Rattle.blk_base.specs.Trees.{NoneTwice};
ghost use Rattle.block_table.specs.TreeIn.{IsTaken};
ghost use Rattle.tree_range.specs.Between.{items_between};
ghost use Rattle.tree_range.specs.Shape.{IsTree, tree_items, tree_reach};
ghost use Rattle.tree_frame.specs.Frame.{AreCurrent};
ghost use Rattle.volume_image.specs.Subvolume.{item_addresses, run_addresses};
ghost use Rattle.table_volume.specs.Gives.{tree_data};
ghost use Rattle.data_release.specs.LetGo.{AreLeft, behind, files, in_front};

use crate::run::let_go_run;
use blk_base::format::{BLOCK_SIZE, EXTENT_DATA};
use blk_base::{Addr, Key};
use block_table::{BlockTable, Tree};
use item_extent::Extent;
use tree_range::range;

/// The data blocks to which an item leads: so many, from a byte address on.
#[derive(Clone, Copy, Debug)]
struct Run {
    at: Addr,
    blocks: u64,
}

/// The data blocks to which an item leads ("EXTENT_DATA" of the on-disk format).
fn run_of(key: &Key, bytes: &[u8]) -> Run
    ensures { run_addresses result.at.0 result.blocks ≡ item_addresses (key.now, bytes.now) }
{
    let none = Run {
        at: Addr(0),
        blocks: 0,
    };
    if key.kind != EXTENT_DATA {
        return none;
    }
    match Extent::open(key, bytes) {
        Ok(Extent::Regular { at, length, .. }) => Run {
            at,
            blocks: length / BLOCK_SIZE,
        },
        Ok(Extent::Inline(_)) => none,
        Ok(Extent::Hole { .. }) => none,
        Err(_) => none,
    }
}

/// The key of the first item of a tree from one key to another, both included, and the data blocks to which it leads.
fn first_run(table: &BlockTable, tree: &Tree, from: &Key, last: &Key) -> Option<(Key, Run)>
    requires { IsTree table.now tree.now }
    ensures { MatchOption result (items_between from.now last.now (tree_items table.now tree.now) ≡ [])
        (λ first. (bytes : List ℕ) × (rest : List Item) × (items_between from.now last.now (tree_items table.now tree.now) ≡ (first.0, bytes) ∷ rest)
        × (run_addresses first.1.at.0 first.1.blocks ≡ item_addresses (first.0, bytes))) }
{
    let (key, bytes) = range(table, tree, from, last).next()?;
    Some((key, run_of(&key, bytes)))
}

/// Lets the data blocks go to which the items of a tree from one key to another lead, both included. The tree stays.
pub fn let_go_between(table: &mut BlockTable, tree: &Tree, first: &Key, last: &Key)
    requires tree { IsTree table.old tree.now }
    requires order { KeyBelow first.now last.now }
    requires offsets { (key : KeyValue) (bytes : List ℕ) → Contains (tree_items table.old tree.now) (key, bytes) → key.offset + 1 < 2 ^ 64 }
    requires taken { All (IsTaken table.old) (tree_reach table.old tree.now ++ tree_data table.old tree.now) }
    requires current { AreCurrent table.old (tree_reach table.old tree.now ++ tree_data table.old tree.now) }
    requires once { NoneTwice (tree_reach table.old tree.now ++ tree_data table.old tree.now) }
    ensures { AreLeft table.old table.new (tree_reach table.old tree.now ++ tree_data table.old tree.now)
        (tree_reach table.old tree.now ++ (files (in_front first.now (tree_items table.old tree.now)) ++ files (behind last.now (tree_items table.old tree.now)))) }
{
    let mut from = *first;
    while let Some((key, run)) = first_run(table, tree, &from, last) {
        let_go_run(table, run.at, run.blocks);
        from = Key {
            offset: key.offset + 1,
            ..key
        };
    }
}
