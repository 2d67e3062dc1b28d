//! Trees in a table of blocks, read in place.
//!
//! `get` and `range` find items by their keys, and lend the parts of the blocks that hold them; `leaf_at` finds the leaf
//! that has a key. They take no memory.
//!
//! `specs/Shape.antt` says which items a tree has, and which blocks it reaches, as functions of the table; `laws` says
//! that this is the relation of `block_table`, and that it depends on the blocks that the tree reaches alone.
#![tactic(auto)]

mod check;
mod descent;
pub mod laws;
mod search;
mod spot;
mod walk;

pub use check::is_tree;
pub use search::{get, leaf_at, range};
pub use walk::Range;
