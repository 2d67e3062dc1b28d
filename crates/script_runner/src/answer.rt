//! The lines of answers that don't depend on the command.
ghost use Rattle.std.specs.Prelude.{◌≡◌, ◌≤◌, ◌++◌, OnOk, OnErr, codes};
ghost use Rattle.std.specs.Fmt.{decimal};
ghost use Rattle.script_text.specs.Kinds.{kind_word};
ghost use Rattle.io_edge.specs.Edge.{Takes, TakesFront, HasCause};
ghost use Rattle.blk_base.specs.Causes.{HasRisen};
ghost use Rattle.script_runner.specs.Commands.{answer_line};

use crate::Status;
use crate::fault_text::put_fault;
use io_edge::{Sink, SinkFailed, put, put_all};
use itoa::Buffer;
use script_text::ScriptKind;

/// Writes the line of a script's first fault.
fn put_script_fault<K: Sink>(to: &mut K, line: u32, kind: ScriptKind) -> Result<(), SinkFailed>
    ensures whole { OnOk result (Takes (K.taken to.old) (codes "script " ++ decimal line ++ codes " " ++ kind_word kind ++ codes "\n") (K.taken to.new)) }
    ensures front { OnErr result (TakesFront (K.taken to.old) (codes "script " ++ decimal line ++ codes " " ++ kind_word kind ++ codes "\n") (K.taken to.new)) }
    ensures cause { HasCause (K.faults to.old) (K.faults to.new) result }
{
    let mut buffer = Buffer::new();
    put_all(
        to,
        &["script ", buffer.format(line), " ", kind.word(), "\n"],
    )
}

/// Writes the line of an answer; none after `Done` and `WriteFault`.
pub(crate) fn put_answer<K: Sink>(to: &mut K, status: Status) -> Result<(), SinkFailed>
    ensures whole { OnOk result (Takes (K.taken to.old) (answer_line status) (K.taken to.new)) }
    ensures front { OnErr result (TakesFront (K.taken to.old) (answer_line status) (K.taken to.new)) }
    ensures cause { HasCause (K.faults to.old) (K.faults to.new) result }
{
    match status {
        Status::Usage => put(to, b"usage\n"),
        Status::BadScript { line, kind } => put_script_fault(to, line, kind),
        Status::NoVolume(fault) => put_fault(to, fault),
        Status::DiskFault => put(to, b"disk\n"),
        Status::ReadFault { .. } => put(to, b"read\n"),
        Status::Memory => put(to, b"memory\n"),
        Status::MkfsRange => put(to, b"range\n"),
        Status::Done | Status::WriteFault => put(to, b""),
    }
}

/// Writes the line of an answer, and gives the answer: a sink that fails changes nothing of it.
pub(crate) fn answer<K: Sink>(status: Status, to: &mut K) -> Status
    ensures same { result ≡ status }
    ensures front { TakesFront (K.taken to.old) (answer_line status) (K.taken to.new) }
    ensures whole { (HasRisen (K.faults to.old) (K.faults to.new) → ⊥) → Takes (K.taken to.old) (answer_line status) (K.taken to.new) }
    ensures counted { K.faults to.old ≤ K.faults to.new }
{
    match put_answer(to, status) {
        Ok(()) => status,
        Err(SinkFailed) => status,
    }
}
