ghost use Rattle.std.specs.Prelude.{OnOk, OnErr};
ghost use Rattle.std.specs.List.{flat_map};
ghost use Rattle.io_edge.specs.Edge.{Takes, TakesFront, HasCause};

use crate::{Sink, SinkFailed};

/// Writes the whole text, piece by piece as the sink takes it. Where the sink fails it has taken a front of the text (own).
pub fn put<K: Sink>(to: &mut K, text: &[u8]) -> Result<(), SinkFailed>
    ensures whole { OnOk result (Takes (K.taken to.old) text.now (K.taken to.new)) }
    ensures front { OnErr result (TakesFront (K.taken to.old) text.now (K.taken to.new)) }
    ensures cause { HasCause (K.faults to.old) (K.faults to.new) result }
{
    let mut taken = 0;
    while taken < text.len() {
        taken += to.write(&text[taken..])?;
    }
    Ok(())
}

/// Writes texts, one behind the other. Where the sink fails it has taken a front of them (own).
pub fn put_all<K: Sink>(to: &mut K, texts: &[&str]) -> Result<(), SinkFailed>
    ensures whole { OnOk result (Takes (K.taken to.old) (flat_map (λ text. text.now) texts.now) (K.taken to.new)) }
    ensures front { OnErr result (TakesFront (K.taken to.old) (flat_map (λ text. text.now) texts.now) (K.taken to.new)) }
    ensures cause { HasCause (K.faults to.old) (K.faults to.new) result }
{
    for text in texts {
        put(to, text.as_bytes())?;
    }
    Ok(())
}
