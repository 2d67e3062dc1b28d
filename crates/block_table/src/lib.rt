//! The blocks of a volume that are in memory, each under its byte address, and the lists that hand them to the device.
//!
//! A block is Free, or it has a buffer: two boxes of 4096 bytes, of which one stands in the table. A seal copies it into
//! the other one, which goes out in a list and comes back with it. So only `new`, `reserve` and `Parts::new` take memory.
//!
//! Contracts see a table as the list of its blocks by their numbers (`specs/Table.antt`), with what each is used for and
//! its bytes. `specs/TreeIn.antt` says which tree stands in a table.
#![tactic(auto)]

mod batch;
mod blocks;
mod slot;
mod state;
mod steps;
mod table;
mod tree;

pub use batch::{Batch, Part, Parts};
pub use blocks::Blocks;
pub use state::SlotState;
pub use table::BlockTable;
pub use tree::{SubState, Tree};
