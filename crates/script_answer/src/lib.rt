//! The text of a script's run: a line for each call that has finished, and a last line.
//!
//! `specs/Words.antt` has the text, byte for byte.
#![tactic(auto)]

mod bytes;
mod line;
mod words;

pub use line::{put_answer, put_done};
