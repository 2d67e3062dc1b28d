//! Scripts as texts: bytes are read to the lines of a script, or to the script's first fault.
//!
//! A script is lines that end in LF. A line is empty, a comment from `#` on, or words with one space between them: a
//! caller from 1 to 16, a verb and its arguments. The verbs are those of the operations, `fill` for a write of equal bytes, and
//! `sync`.
#![tactic(auto)]

mod fault;
mod laws;
mod line;
mod number;
mod parts;
mod path;
mod request;
mod script;
mod text;
mod verb;

pub use fault::{ScriptFault, ScriptKind};
pub use flat_model::{Line, Request};
pub use laws::script_law;
pub use script::{Script, parse};
