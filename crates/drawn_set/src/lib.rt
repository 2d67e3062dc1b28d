//! Which inodes an fsync draws into the log with its target: a search by the rules, from the names of the current volume
//! and of the recovered one, which is what replay of the log would leave. It asks for the names of what it draws and of the
//! directories above, and for nothing else.
#![tactic(auto)]

mod drawn;
mod members;
mod names;
mod search;
mod slots;

pub use drawn::{Drawn, draw};
