//! `delete` of an item of a tree in memory, with joining and borrowing.
//!
//! Blocks on the way to the item that aren't Dirty are copied. A leaf whose only item goes is let go; a node that is left
//! with fewer than 30 pointers takes those of a sibling, or one of them.
#![tactic(auto)]

mod below;
mod leaf;
mod node;
mod pair;
mod root;

pub use root::delete;
