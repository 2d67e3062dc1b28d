//! The words of an answer.
ghost use Rattle.std.specs.Prelude.{◌++◌, OnOk, OnErr, codes};
ghost use Rattle.std.specs.Fmt.{decimal};
ghost use Rattle.io_edge.specs.Edge.{Takes, TakesFront, HasCause};
ghost use Rattle.script_answer.specs.Words.{reason_words, answer_words};

use crate::bytes::put_bytes;
use flat_model::{Answer, Reason};
use io_edge::{Sink, SinkFailed, put, put_all};
use itoa::Buffer;

/// Writes words and a number in decimal behind them.
pub(crate) fn put_number<K: Sink>(to: &mut K, before: &str, number: u64) -> Result<(), SinkFailed>
    ensures whole { OnOk result (Takes (K.taken to.old) (before.now ++ decimal number) (K.taken to.new)) }
    ensures front { OnErr result (TakesFront (K.taken to.old) (before.now ++ decimal number) (K.taken to.new)) }
    ensures cause { HasCause (K.faults to.old) (K.faults to.new) result }
{
    let mut buffer = Buffer::new();
    put_all(to, &[before, buffer.format(number)])
}

/// Writes words, how many blocks are free, and how many are needed.
fn put_space<K: Sink>(to: &mut K, before: &str, free: u64, need: u64) -> Result<(), SinkFailed>
    ensures whole { OnOk result (Takes (K.taken to.old) (before.now ++ decimal free ++ codes " " ++ decimal need) (K.taken to.new)) }
    ensures front { OnErr result (TakesFront (K.taken to.old) (before.now ++ decimal free ++ codes " " ++ decimal need) (K.taken to.new)) }
    ensures cause { HasCause (K.faults to.old) (K.faults to.new) result }
{
    put_number(to, before, free)?;
    put_number(to, " ", need)
}

/// Writes the words of a full commit.
fn put_reason<K: Sink>(to: &mut K, reason: &Reason) -> Result<(), SinkFailed>
    ensures whole { OnOk result (Takes (K.taken to.old) (reason_words reason.now) (K.taken to.new)) }
    ensures front { OnErr result (TakesFront (K.taken to.old) (reason_words reason.now) (K.taken to.new)) }
    ensures cause { HasCause (K.faults to.old) (K.faults to.new) result }
{
    match reason {
        Reason::Conflicts(count) => put_number(to, "ok commit conflicts ", *count),
        Reason::GoneDir(ino) => put_number(to, "ok commit gone ", ino.0),
        Reason::Space { free, need } => put_space(to, "ok commit space ", *free, *need),
        Reason::FailedLog(count) => put_number(to, "ok commit failed ", *count),
    }
}

/// Writes the words of an operation's answer, or of a sync's.
pub(crate) fn put_words<K: Sink>(to: &mut K, answer: &Answer) -> Result<(), SinkFailed>
    ensures whole { OnOk result (Takes (K.taken to.old) (answer_words answer.now) (K.taken to.new)) }
    ensures front { OnErr result (TakesFront (K.taken to.old) (answer_words answer.now) (K.taken to.new)) }
    ensures cause { HasCause (K.faults to.old) (K.faults to.new) result }
{
    match answer {
        Answer::Plain => put(to, b"ok"),
        Answer::Number(number) => put_number(to, "ok ", *number),
        Answer::Bytes(bytes) => put_bytes(to, bytes),
        Answer::Already => put(to, b"ok already"),
        Answer::Log => put(to, b"ok log"),
        Answer::Commit(reason) => put_reason(to, reason),
        Answer::Full => put(to, b"ok full"),
        Answer::Sync => put(to, b"ok sync"),
        Answer::Xdev => put(to, b"xdev"),
        Answer::NoEnt => put(to, b"noent"),
        Answer::NotDir => put(to, b"notdir"),
        Answer::IsDir => put(to, b"isdir"),
        Answer::Exists => put(to, b"exists"),
        Answer::NotEmpty => put(to, b"notempty"),
        Answer::Loop => put(to, b"loop"),
        Answer::Links => put(to, b"links"),
        Answer::TooLarge => put(to, b"toolarge"),
        Answer::NoAttr => put(to, b"noattr"),
        Answer::Collide => put(to, b"collide"),
        Answer::NoSpace { free, need } => put_space(to, "nospace ", *free, *need),
        Answer::Io => put(to, b"io"),
    }
}
