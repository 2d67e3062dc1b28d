//! A tree's Dirty blocks are sealed and handed out.
//!
//! `seal_tree` gives each Dirty block of a tree its header and its sum, from the leaves up, and puts a box with its bytes
//! at the end of a list. It looks below Dirty blocks alone: `specs/Above.antt` says that no other block stands above one,
//! and `specs/Sealing.antt` what a seal makes of the table.
//!
//! `laws` says that a tree without Dirty blocks, whose blocks pass their headers' checks, is the tree of each image that
//! has its blocks, and that an edit leaves no Dirty block below one that isn't.
#![tactic(auto)]

pub mod laws;
mod one;
mod seal;

pub use seal::seal_tree;

#[cfg(test)]
mod tests;
