ghost use Rattle.std.specs.Prelude.{◌++◌, OnOk, OnErr, codes};
ghost use Rattle.io_edge.specs.Edge.{Takes, TakesFront, HasCause};

use io_edge::{Sink, SinkFailed, put_all};

/// Writes the line of a volume that was made.
pub(crate) fn put_made<K: Sink>(to: &mut K, blocks: &str, subs: &str) -> Result<(), SinkFailed>
    ensures whole { OnOk result (Takes (K.taken to.old) (codes "made " ++ blocks.now ++ codes " " ++ subs.now ++ codes "\n") (K.taken to.new)) }
    ensures front { OnErr result (TakesFront (K.taken to.old) (codes "made " ++ blocks.now ++ codes " " ++ subs.now ++ codes "\n") (K.taken to.new)) }
    ensures cause { HasCause (K.faults to.old) (K.faults to.new) result }
{
    put_all(to, &["made ", blocks, " ", subs, "\n"])
}
