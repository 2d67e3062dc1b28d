//! The calls of the device that a full commit makes are admissible: definitions and laws alone.
//!
//! `device_side`'s `finish` says which calls of the disk it made; `commit_images` says which calls may come, so that each
//! image of a crash stands for the right volume. The laws here join the two, over any mounted volume: where a commit is
//! ready to be written, its finish is a list of admissible happenings. What a disk's record tells and what happened are
//! kept together from finish to finish, though a write of a superblock that failed may have left no trace in the record.
#![tactic(auto)]

mod finish;
mod happenings;

pub use finish::finishing_is_admissible;
pub use happenings::{device_calls_keep, happenings_join, held_images_are_left, told_images_stand};
