//! The listing of a volume from its trees: the text that `volume_listing` has of the flat volume which they give, byte for
//! byte.
//!
//! A walk takes the places of a subvolume one by one from a list of those that wait. A directory's names are taken from its
//! indexes and put in the order of their bytes. `specs/Listing.antt` of `volume_listing` has the text.
#![tactic(auto)]

mod listing;
mod names;
mod places;
mod walk;

pub use listing::write_tree_listing;
pub use volume_listing::ListFault;
