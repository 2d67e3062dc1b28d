//! What keeps a mounted volume and its commits, seen by the calls on it: one method for each event, and readers for their
//! conditions.
//!
//! What a core keeps goes with what happened since the mount (`Core::has`): events and calls of the device in one order, as
//! `commit_images` has them. Each method says which event it makes, and what it hands out to be written.
#![tactic(auto)]

mod events;
mod work;

pub use commit_history::{Cover, OpEnd, Turn};
pub use events::Core;
pub use work::{Outcome, Work};
