//! The on-disk format of Btrfs as its kernel and its tools write it, on one device with single or DUP chunks: the
//! superblock, chunks, tree blocks of 4096 to 65536 bytes, and the items that a listing needs.
//!
//! Each reader takes any bytes and answers what they say, or the first check that fails. `specs/` has each as a function.
#![tactic(auto)]

mod block;
mod bytes;
mod chunk;
mod entry;
mod extent;
mod fault;
mod inode;
mod root;
mod superblock;

pub use block::{check_block, count_of, item_at, pointer_at};
pub use chunk::{Chunk, ChunkRow, array_rows, chunk_row, mapped, physical_of, put_row};
pub use entry::{Entry, EntryKind, read_entry};
pub use extent::{Coding, Extent, Source, read_extent};
pub use fault::{ForeignFault, ReadFault};
pub use inode::{Inode, read_inode};
pub use root::{Root, read_root};
pub use superblock::{Superblock, read_superblock};
