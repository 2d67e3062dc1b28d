//! Mount of a volume on trees: its superblock and its trees are read into a table of blocks and checked, and the states of
//! its subvolumes are made of them. Nothing is written.
//!
//! Each fault is the first that the order of an image's faults has (`image_order`), and a volume that is mounted is the one
//! for which the image stands.
#![tactic(auto)]

mod checks;
mod fault;
mod mounted;
mod mounting;
mod room;
mod roots;
mod superblock;
mod trees;

pub use fault::MountFault;
pub use mounted::Mounted;
pub use mounting::mount;
