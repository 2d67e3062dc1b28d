//! A subvolume of a flat volume, and what the operations on names make of it.
#![tactic(auto)]

mod content;
mod list;
mod making;
mod moving;
mod removal;
mod sub;
mod walk;

pub use list::Item;
pub use sub::FlatSub;
