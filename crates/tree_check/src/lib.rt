//! The checks of trees that stand in a table of blocks: their items, the data blocks of their extents, and that no two
//! extents name one block.
//!
//! Each call answers exactly the first fault of its own check, in the order of the keys. `specs/` says which that is, as
//! a function, and when there is none, as a relation; `laws` says that the function is Ok exactly where the relation
//! holds.
#![tactic(auto)]

mod blocks;
mod fault;
mod item;
pub mod laws;
mod leaves;
mod marks;
mod runs;
#[cfg(test)]
mod tests;

pub use blocks::data;
pub use fault::TreeFault;
pub use leaves::items;
pub use marks::once;
