//! Whether a flat subvolume is coherent, decided without memory.
#![tactic(auto)]

mod check;
mod inodes;
mod items;
mod names;
mod ways;

pub use check::is_coherent;
