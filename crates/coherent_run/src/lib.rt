//! The state that a mount makes of a tree whose checks were all Ok, and laws that say what it gives.
#![tactic(auto)]

mod laws;
mod state;

pub use laws::{checked_trees_are_ready, coherent_trees_give};
pub use state::run_state;
