//! Data blocks of files let go: those of a run, and those to which a range of a tree's items leads.
//!
//! `AreLeft` of `specs/LetGo.antt` says what is left of a list of blocks: it stands as it stood, and nothing was taken. The
//! tree stays; its items go by another call.
#![tactic(auto)]

mod files;
mod run;

pub use files::let_go_between;
pub use run::let_go_run;
