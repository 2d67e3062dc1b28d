//! What the device writes of the parts and batches that a volume hands out: a part's blocks ahead of its commit, and a
//! commit's blocks, a flush and its superblock.
//!
//! The state of the writes stands beside the disk (`specs/Device.antt`), so that one disk is lent to each call. Each call
//! says exactly which calls of the disk it added, up to the first that failed.
#![tactic(auto)]

mod batch;
mod blocks;
mod device;

pub use device::DeviceSide;
