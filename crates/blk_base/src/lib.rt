//! The bottom of the tree log: blocks, keys, hashes, names and the grammar of all that stands in a block.
//!
//! Contracts of every crate above cite this crate's `specs/`: what bytes spell which superblock, leaf, node or
//! item, each as a relation and as a function to the value or the first fault. The numbers of the format stand in
//! `format`, those that this project chose in `limits`; no crate writes one a second time.
#![tactic(auto)]

mod address;
mod crc;
mod crc_tables;
mod fault;
mod fields;
pub mod format;
mod key;
pub mod limits;
mod name;
mod text;

pub use address::is_allowed;
pub use crc::{crc_register, crc_table_law, crc32c, register_append, register_fits};
pub use fault::{BlockFault, ItemFault, OutOfMemory, RootFault, SuperFault};
pub use fields::{put_bytes, put_u8, put_u16, put_u32, put_u64, u8_at, u16_at, u32_at, u64_at};
pub use key::{Addr, Block, Ino, Key, Marks, SubId, Want};
pub use name::{Name, extref_hash, is_name, is_name_law, name_hash};
pub use text::Text;
