ghost use Rattle.std.specs.Prelude.{◌≡◌, ◌≤◌, ◌<◌, ◌+◌, length, drop};
ghost use Rattle.tree_range.specs.Path.{IsChild, IsChildPlace, IsPath, key_behind};
ghost use Rattle.tree_range.specs.Shape.{IsTree};

use blk_base::{Addr, Key};
use block_table::{BlockTable, Tree};
use leaf_view::NodeView;

/// A block on the way from a tree's root to a leaf, by its byte address, and the first key behind all items that are
/// below it, where there is one (own).
#[derive(Clone, Copy)]
pub(crate) struct Way {
    pub(crate) at: Addr,
    pub(crate) next: Option<Key>,
}

/// The number of the child under which a key belongs.
fn child_place(node: &NodeView<'_>, key: &Key) -> usize
    requires { 1 ≤ length node.now }
    ensures { IsChildPlace node.now key.now result }
{
    match node.find(key) {
        Ok(place) => place,
        Err(place) => place.saturating_sub(1),
    }
}

/// The first key of the child behind this one, or `next` where this is the last.
pub(crate) fn key_after(node: &NodeView<'_>, place: usize, next: Option<Key>) -> Option<Key>
    requires { place < length node.now }
    ensures { result ≡ key_behind (drop (place + 1) node.now) next }
{
    let count = node.len();
    if place + 1 < count {
        Some(node.key(place + 1))
    } else {
        next
    }
}

/// The child of a node under which a key belongs, where `next` is the first key behind all items below the node.
fn step_down(node: &NodeView<'_>, key: &Key, next: Option<Key>) -> Way
    requires { 1 ≤ length node.now }
    ensures { IsChild node.now key.now next result.at.0 result.next }
{
    let place = child_place(node, key);
    Way {
        at: node.child(place).0,
        next: key_after(node, place, next),
    }
}

/// The leaf of a tree where a key belongs.
pub(crate) fn leaf_for(table: &BlockTable, tree: &Tree, key: &Key) -> Way
    requires { IsTree table.now tree.now }
    ensures { IsPath table.now tree.now 0 key.now result.at.0 result.next }
{
    let mut level = tree.level;
    let mut way = Way {
        at: tree.root,
        next: None,
    };
    while level > 0 {
        way = step_down(&NodeView::of_body(table.block(way.at)), key, way.next);
        level -= 1;
    }
    way
}
