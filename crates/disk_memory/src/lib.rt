//! Disks in memory, for tests: one that keeps the record of its calls and fails when it is told to, one that never
//! fails, and one that lists its calls.
//!
//! `MemoryDisk` tells every moment of its calls, and `crash` makes a disk of one of the images that a crash may leave. It drops
//! what is pending when a flush fails: a later read gives what was there before.
#![tactic(auto)]

mod block_state;
mod blocks;
mod crash;
mod entry;
mod fault;
mod kept;
mod list_disk;
mod memory_disk;
mod never_fails;
mod plan;

pub use fault::MemoryDiskFault;
pub use list_disk::ListDisk;
pub use memory_disk::MemoryDisk;
pub use never_fails::NeverFails;
