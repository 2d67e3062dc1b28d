//! The bytes of a file on a volume that the kernel or its tools made, and their sum.
//!
//! `sum_of` answers what `specs/File.antt` defines of a file's extents, or the first fault. Bytes are summed as they come: at
//! most 64 KiB of a file are held at a time.
#![tactic(auto)]

mod bytes;
mod file;

pub use file::{Sum, sum_of};

#[cfg(test)]
mod tests;
