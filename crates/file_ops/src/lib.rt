//! Operations on the contents and the attributes of what stands at a path of a subvolume on its tree.
//!
//! Each answers what its definition in `flat_model` says of every run that the state gives, and the state then gives what it
//! says (`IsOperated` of `table_volume`). A refusal changes nothing. Only what answers bytes takes memory.
//! `refused_write` and its like tell the answer that refuses an operation, and edit nothing.
#![tactic(auto)]

mod attributes;
mod contents;
mod judging;
mod place;
#[cfg(test)]
mod tests;

pub use attributes::{del_attr, get_attr, set_attr};
pub use contents::{read, truncate, write};
pub use judging::{refused_del_attr, refused_set_attr, refused_truncate, refused_write};
