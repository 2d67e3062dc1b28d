//! Volumes that the kernel or its tools made, opened: the superblock, the chunks, and the roots of the subvolumes.
//!
//! `open` answers what `specs/Opened.antt` defines of the disk's image, or the first fault; `subvolumes` the same of the
//! root tree (`specs/Roots.antt`).
#![tactic(auto)]

mod chunks;
pub mod laws;
mod opened;
mod roots;

pub use opened::{Opened, open};
pub use roots::{Subvolume, subvolumes};

#[cfg(test)]
mod tests;
