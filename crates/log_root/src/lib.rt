//! The log root tree: the root items of the logs of subvolumes, made anew over blocks that are kept for it, and read. It takes
//! no memory.
#![tactic(auto)]

pub mod laws;
mod leaf;
mod node;
mod read;
mod tree;

pub use read::subs;
pub use tree::build;
