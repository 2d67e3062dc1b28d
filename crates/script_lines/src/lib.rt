//! The lines of a script are run on a mounted volume, one call after the other, and their answers are written.
//!
//! `specs/Lines.antt` has the text of a run, byte for byte, and how a run ends; `specs/Happened.antt` what happened in it.
#![tactic(auto)]

mod fault;
mod laws;
mod run;

pub use fault::RunFault;
pub use laws::{
    a_run_has_happened, a_script_is_allowed, images_of_a_run_stand,
    no_space_in_a_run_is_within_the_bound,
};
pub use run::run_lines;
