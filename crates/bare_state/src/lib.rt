//! Trees that are new: an empty one, and the one of a subvolume that has nothing but its root directory. Neither takes memory.
#![tactic(auto)]

mod bare;
mod empty;

pub use bare::bare_state;
pub use empty::empty_tree;
