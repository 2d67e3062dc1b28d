use commit_core::{Turn, Work};
use flat_model::Answer;

/// What a turn of a call did.
#[derive(Drop)]
pub enum Next {
    /// It made an event, and the call goes on.
    Moved,
    /// It sealed something, and this is to be done by the device before the call's next turn.
    Work(Work),
    /// It made no event, since this caller, 1 to 16, holds this turn.
    Waits { turn: Turn, holder: u32 },
    /// The call has finished with this answer.
    Finished(Answer),
}
