ghost use Rattle.std.specs.Prelude.{◌≡◌, []};
ghost use Rattle.commit_core.specs.Coming.{shown_end};
ghost use Rattle.commit_history.specs.Legal.{shown};

use blk_base::Text;
use commit_core::OpEnd;
use flat_model::{Answer, Reason};

fn copy_reason(reason: &Reason) -> Reason
    ensures { result ≡ reason.now }
{
    match reason {
        Reason::Conflicts(count) => Reason::Conflicts(*count),
        Reason::GoneDir(dir) => Reason::GoneDir(*dir),
        Reason::Space { free, need } => Reason::Space {
            free: *free,
            need: *need,
        },
        Reason::FailedLog(count) => Reason::FailedLog(*count),
    }
}

fn show_answer(answer: &Answer) -> Answer
    ensures { result ≡ shown answer.now }
{
    match answer {
        Answer::Plain => Answer::Plain,
        Answer::Number(number) => Answer::Number(*number),
        Answer::Bytes(_) => Answer::Bytes(Text::repeat(0, 0)),
        Answer::Already => Answer::Already,
        Answer::Log => Answer::Log,
        Answer::Commit(reason) => Answer::Commit(copy_reason(reason)),
        Answer::Full => Answer::Full,
        Answer::Sync => Answer::Sync,
        Answer::Xdev => Answer::Xdev,
        Answer::NoEnt => Answer::NoEnt,
        Answer::NotDir => Answer::NotDir,
        Answer::IsDir => Answer::IsDir,
        Answer::Exists => Answer::Exists,
        Answer::NotEmpty => Answer::NotEmpty,
        Answer::Loop => Answer::Loop,
        Answer::Links => Answer::Links,
        Answer::TooLarge => Answer::TooLarge,
        Answer::NoAttr => Answer::NoAttr,
        Answer::Collide => Answer::Collide,
        Answer::NoSpace { free, need } => Answer::NoSpace {
            free: *free,
            need: *need,
        },
        Answer::Io => Answer::Io,
    }
}

/// How an operation ended, as events show it: an answer of bytes stands as no bytes (own).
pub(crate) fn show_end(end: &OpEnd) -> OpEnd
    ensures { result ≡ shown_end end.now }
{
    match end {
        OpEnd::Answered(answer) => OpEnd::Answered(show_answer(answer)),
        OpEnd::Short { free, need } => OpEnd::Short {
            free: *free,
            need: *need,
        },
    }
}
