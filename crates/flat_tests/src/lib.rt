//! Tests of the crates of flat volumes, by their public calls: operations and what they answer, worked out by hand; records,
//! coherence, views and listings.
//!
//! They stand apart so that no crate is proved once more with its tests.
#![tactic(auto)]

mod near;

pub use near::nine_long_names_are_near;

#[cfg(test)]
mod applied;
#[cfg(test)]
mod bare;
#[cfg(test)]
mod listed;
#[cfg(test)]
mod records;
#[cfg(test)]
mod told;
