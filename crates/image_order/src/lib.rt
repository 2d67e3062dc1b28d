//! Which fault an image without a log has first, in the order in which a mount looks, and that there is none exactly
//! where the image stands for a volume. All laws are of definitions alone: the functions here have no parameters and no
//! body.
#![tactic(auto)]

mod checks;
mod standing;

pub use checks::{data_are_checked, items_are_checked, items_stand_in_named_leaves};
pub use standing::{images_without_fault_commit, images_without_fault_stand};
