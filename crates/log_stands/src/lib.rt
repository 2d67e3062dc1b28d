//! Which image stands for which volume, with a log or without one. All laws are of definitions alone: the functions
//! here have no parameters and no body.
#![tactic(auto)]

mod stands;

pub use stands::{
    reach_by_log_is_sound, stands_by_log_for_one, stands_by_log_is_local, unlogged_images_stand,
};
