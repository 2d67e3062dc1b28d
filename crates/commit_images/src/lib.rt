//! What the images stand for that a crash may leave of a mounted volume, over any legal history with admissible calls of
//! the device: definitions and laws alone.
//!
//! `specs/Scene.antt` puts the events of a volume and the calls of its device into one order. `specs/Admissible.antt` says
//! which may come: a block is written only where no superblock that a crash may find reaches it, and a superblock only
//! where all that it reaches is durable. The law says that each image of a crash then stands for a volume that survives the
//! history, with what was acknowledged at the write of the superblock counted.
#![tactic(auto)]

mod images;

pub use images::{Standing, crash_images_stand, what_each_crash_leaves_is_durable};
