//! A mounted volume, as a core that calls act on.
//!
//! `Volume` has the blocks of a mounted volume (`commit_blocks`) and the callers' wants and covers (`commit_callers`), and
//! is a `Core` of `commit_core`: each of its events is one method. What it keeps goes with what happened since the mount
//! (`specs/Keeps.antt`); it logs nothing, so that each durable state is one of a full commit. No block leaks: `laws` says which
//! are in use, and how many.
#![tactic(auto)]

mod counting;
mod ending;
mod events;
mod laws;
mod spelled;
mod volume;

pub use laws::{blocks_in_use_behind_a_full_commit, blocks_in_use_have_a_use};
pub use volume::Volume;
