//! The plain, slow volume: every operation as its definition has it, for tests and for judging an image from outside.
#![tactic(auto)]

mod applying;
mod copying;
mod flat_view;
mod putting;
mod reading;
mod subvolumes;
mod volume;

pub use applying::is_in_limits;
pub use flat_view::FlatView;
pub use volume::FlatVolume;
