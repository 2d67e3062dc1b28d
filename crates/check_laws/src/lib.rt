//! Laws that join the checks of loaded trees with what is said of an image's items: the functions here have no parameters
//! and no body.
#![tactic(auto)]

mod items;

pub use items::{checked_items_are_readable, checks_find_what_the_order_does};
