//! The items of a directory: its entries ("DIR_ITEM", "DIR_INDEX" of the on-disk format), attributes, which have the
//! same form ("XATTR_ITEM"), and the ranges of a log ("DIR_LOG_INDEX"), from any bytes and into bytes.
#![tactic(auto)]

mod entries;
mod entry;
mod range;
mod write;

pub use blk_base::ItemFault;
pub use entries::Entries;
pub use entry::Entry;
pub use range::DirRange;
pub use write::{put_entry, put_range};
