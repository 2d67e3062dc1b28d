//! The words of bytes.
ghost use Rattle.std.specs.Prelude.{OnOk, OnErr};
ghost use Rattle.io_edge.specs.Edge.{Takes, TakesFront, HasCause};
ghost use Rattle.script_answer.specs.Words.{bytes_words};

use blk_base::Text;
use io_edge::{Sink, SinkFailed, put, put_printed};

/// Writes the words of bytes that were read.
pub(crate) fn put_bytes<K: Sink>(to: &mut K, bytes: &Text) -> Result<(), SinkFailed>
    ensures whole { OnOk result (Takes (K.taken to.old) (bytes_words bytes.now) (K.taken to.new)) }
    ensures front { OnErr result (TakesFront (K.taken to.old) (bytes_words bytes.now) (K.taken to.new)) }
    ensures cause { HasCause (K.faults to.old) (K.faults to.new) result }
{
    if bytes.is_empty() {
        return put(to, b"ok");
    }
    put(to, b"ok ")?;
    put_printed(to, bytes)
}
