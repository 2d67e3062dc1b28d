//! Tests of whole commands, by the calls that the program makes: texts and exit statuses, scripts that are stopped at each
//! device call with what a crash then leaves, and images that are refused.
//!
//! They stand apart so that no crate is proved once more with its tests.
#![tactic(auto)]

#[cfg(test)]
mod answering;
#[cfg(test)]
mod listing;
#[cfg(test)]
mod making;
#[cfg(test)]
mod mounting;
#[cfg(test)]
mod parsing;
#[cfg(test)]
mod running;
