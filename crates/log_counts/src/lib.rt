//! How many items a log has: what a mount counts in the items of a log tree, and what log steps count on flat logs. All
//! laws are of definitions alone: the functions here have no parameters and no body.
#![tactic(auto)]

mod counts;

pub use counts::log_items_are_counted;
