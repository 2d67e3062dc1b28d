//! The subvolumes of a volume that is new: each has nothing but its root directory, and none is committed yet.
#![tactic(auto)]

mod states;

pub use states::bare_states;
