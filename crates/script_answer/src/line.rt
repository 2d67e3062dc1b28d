//! The lines of a script's run.
ghost use Rattle.std.specs.Prelude.{◌++◌, OnOk, OnErr, codes};
ghost use Rattle.std.specs.Fmt.{decimal};
ghost use Rattle.io_edge.specs.Edge.{Takes, TakesFront, HasCause};
ghost use Rattle.script_answer.specs.Words.{answer_line, done_line};

use crate::words::{put_number, put_words};
use flat_model::Answer;
use io_edge::{Sink, SinkFailed, put};

/// Writes a caller and a space.
fn put_caller<K: Sink>(to: &mut K, caller: u32) -> Result<(), SinkFailed>
    ensures whole { OnOk result (Takes (K.taken to.old) (decimal caller ++ codes " ") (K.taken to.new)) }
    ensures front { OnErr result (TakesFront (K.taken to.old) (decimal caller ++ codes " ") (K.taken to.new)) }
    ensures cause { HasCause (K.faults to.old) (K.faults to.new) result }
{
    put_number(to, "", u64::from(caller))?;
    put(to, b" ")
}

/// Writes the line of a call that has finished: `CALLER ANSWER`, with the caller's number in decimal and the answer's words
/// as `specs/Words.antt` has them: `ok` and what was answered, or the name of the refusal (own). Takes no memory. Where the
/// sink fails it has taken a front of the line.
pub fn put_answer<K: Sink>(to: &mut K, caller: u32, answer: &Answer) -> Result<(), SinkFailed>
    ensures whole { OnOk result (Takes (K.taken to.old) (answer_line caller answer.now) (K.taken to.new)) }
    ensures front { OnErr result (TakesFront (K.taken to.old) (answer_line caller answer.now) (K.taken to.new)) }
    ensures cause { HasCause (K.faults to.old) (K.faults to.new) result }
{
    put_caller(to, caller)?;
    put_words(to, answer)?;
    put(to, b"\n")
}

/// Writes the last line of a script's run: `done N`, with N the number of calls that have finished, in decimal (own). Takes no
/// memory. Where the sink fails it has taken a front of the line.
pub fn put_done<K: Sink>(to: &mut K, count: u64) -> Result<(), SinkFailed>
    ensures whole { OnOk result (Takes (K.taken to.old) (done_line count) (K.taken to.new)) }
    ensures front { OnErr result (TakesFront (K.taken to.old) (done_line count) (K.taken to.new)) }
    ensures cause { HasCause (K.faults to.old) (K.faults to.new) result }
{
    put_number(to, "done ", count)?;
    put(to, b"\n")
}
