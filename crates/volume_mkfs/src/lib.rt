//! An empty volume made on a disk: the trees of 1 to 16 subvolumes with nothing but their root directories, sealed under a
//! root tree and written as a full commit is.
#![tactic(auto)]

mod empty;
mod fault;
mod make;

pub use fault::MkfsFault;
pub use make::mkfs;
