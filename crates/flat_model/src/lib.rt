//! What a volume is, apart from any block: its subvolumes, each with the records of its inodes and its list of
//! names, and what every operation makes of it.
//!
//! `specs/` has the definitions that all crates above cite: flat volumes and their coherence, operations and their
//! answers, histories. `FlatVolume` is their slow form in code, for tests and for judging an image from outside.
#![tactic(auto)]

mod answer;
mod laws;
mod op;
mod place;
mod request;
#[cfg(test)]
mod tests;
mod view;

pub use answer::{Answer, Reason};
pub use laws::{histories_stay_coherent, mounting_is_sound, operations_keep_soundness};
pub use op::Op;
pub use place::{Path, Place};
pub use request::{Line, Request};
pub use view::{Kind, NameAt, NameView};
