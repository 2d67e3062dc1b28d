//! The superblock and root items, both ways.
//!
//! What is written is what `super_bytes` and `root_bytes` of `blk_base` say of the value, whatever the bytes held
//! before; what is read is what `super_of` and `root_of` say of any bytes, the value or the first fault. What is
//! written is read back, by the laws of `format_laws` that are passed on here.
#![tactic(auto)]

mod root_item;
mod superblock;

pub use blk_base::{RootFault, SuperFault};
pub use format_laws::{root_reads_back, super_is_block, super_reads_back};
pub use root_item::RootItem;
pub use superblock::Super;
