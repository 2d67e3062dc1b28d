ghost use Rattle.std.specs.Prelude.{◌≡◌, ◌<◌, ◌≤◌, ℕ, List, length, take, Option, IfOk, OnErr};
ghost use Rattle.io_edge.specs.Edge.{Takes, TakesFront, HasCause};

use thiserror::Error;

/// The sink failed in this call.
#[derive(Clone, Copy, Debug, PartialEq, Eq, Error)]
#[error("sink failed")]
pub struct SinkFailed;

/// A sink of bytes (own).
pub trait Sink {
    /// The bytes that it has taken, where it tells them.
    ghost taken: { Self → Option (List ℕ) };

    /// How often it has failed.
    ghost faults: { Self → ℕ };

    /// Takes some bytes from the front of `bytes`, which isn't empty, and answers how many: at least one. At an error it
    /// may have taken some too.
    fn write(&mut self, bytes: &[u8]) -> Result<usize, SinkFailed>
        requires { 0 < length bytes.now }
        ensures some { IfOk result (λ n. 0 < n) }
        ensures fits { IfOk result (λ n. n ≤ length bytes.now) }
        ensures taken { IfOk result (λ n. Takes (taken self.old) (take n bytes.now) (taken self.new)) }
        ensures front { OnErr result (TakesFront (taken self.old) bytes.now (taken self.new)) }
        ensures cause { HasCause (faults self.old) (faults self.new) result };
}
