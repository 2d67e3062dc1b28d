use block_table::{Batch, Part};
use disk_model::DeviceFault;

/// Work for the device that a seal hands out.
#[derive(Drop)]
pub enum Work {
    /// The blocks of a subvolume's log, to be written.
    Part(Part),
    /// A commit, to be finished: blocks written, a flush, and the superblock.
    Finish(Batch),
}

/// Work that was done by the device, or failed.
#[derive(Drop)]
pub struct Outcome {
    pub work: Work,
    pub result: Result<(), DeviceFault>,
}
