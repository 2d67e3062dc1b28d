//! The disk below the tree log, and what a crash may leave of it.
//!
//! A disk may tell what a read gives, and the record of its calls. Every image that a crash may leave, at each moment of
//! a call and between two, is a function of that record (`specs/Disk.antt`).
#![tactic(auto)]

mod disk;
mod fault;
pub mod laws;

pub use disk::{Disk, DiskFailed};
pub use fault::DeviceFault;
