//! Leaves edited in place, in the bytes of a block.
//!
//! `LeafMut` borrows a block whose body is a leaf, and does to its list of items what each call says. Data are packed
//! from the block's end downwards, so that an edit moves what stands behind its place once. It needs no memory and
//! refuses nothing: what an edit asks is a condition of the call. `seal` alone writes header and sum.
#![tactic(auto)]

mod body;
mod header;
mod laws;
mod leaf_mut;
mod lend;
mod seal;
mod shift;
mod whole;

pub use header::put_key;
pub use laws::{leaves_fit, loans_come_back, packed_leaves_pass, places_keep_order};
pub use leaf_mut::LeafMut;
pub use seal::seal_block;
