//! The names of a tree that are right, by their slots: which directory and which bytes each has, and its index there.
//!
//! A name is right where both of its directory entries are there, and its directory is one. A slot takes 32 bytes of memory
//! beside what the map has for itself, since the bytes of a name stay in the tree's blocks.
#![tactic(auto)]

mod slots;

pub use slots::{Slots, lower, slots_of};
