//! Tests of disks in memory, of batches and of streams, by public calls: which calls fail, what a crash may leave, and what
//! a source and a sink give and take.
//!
//! They stand apart so that no crate is proved once more with its tests.
#![tactic(auto)]

#[cfg(test)]
mod batches;
#[cfg(test)]
mod memory;
#[cfg(test)]
mod streams;
