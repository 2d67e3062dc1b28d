//! The top calls of the tree log: a command's words are read, what it asks is done on a disk, and its text goes to a
//! sink.
#![tactic(auto)]

mod answer;
mod command;
mod fault_text;
mod list;
mod request;
mod run;
mod status;
mod text;
mod words;

pub use command::drive;
pub use request::blocks_asked;
pub use run_history::Run;
pub use status::Status;
