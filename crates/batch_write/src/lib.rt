//! The way of every commit: its blocks, a flush, and then its superblock.
//!
//! At every moment of a call each image that a crash may leave is one from before but for the blocks of the batch, or has
//! the whole batch and its superblock (`specs/Batch.antt`). What an image stands for is left to the crates above.
#![tactic(auto)]

mod batch;
pub mod laws;
mod superblock;

pub use batch::write_batch;
pub use superblock::write_super_again;
