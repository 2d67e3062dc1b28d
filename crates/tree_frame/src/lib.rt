//! What an edit of a tree may change of the table of blocks: laws of `specs/Frame.antt`.
//!
//! `IsEdit` says which blocks an edit takes, leaves and keeps, by the blocks that the tree reached before and reaches
//! after. `edits` says that edits join, that an edit of a part of a tree is one of the whole, and that each step of
//! `tree_blocks` is one. `others` says what an edit leaves of other trees, and `numbers` how many blocks a tree has. Each law is the contract of a function that
//! does nothing; the lemmas of `proofs/` of the same names are for the proofs of crates above.
#![tactic(auto)]

pub mod edits;
pub mod numbers;
pub mod others;
pub mod steps;
