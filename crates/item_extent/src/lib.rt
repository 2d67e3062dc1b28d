//! The extents of a file as items of a tree ("EXTENT_DATA" of the on-disk format): reading one from any bytes, and
//! writing one.
#![tactic(auto)]

mod extent;
mod write;

pub use blk_base::ItemFault;
pub use extent::Extent;
pub use write::{put_hole, put_inline, put_regular};
