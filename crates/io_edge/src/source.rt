ghost use Rattle.std.specs.Prelude.{◌≡◌, ◌<◌, ◌≤◌, ℕ, List, length, take, drop, Option, IfOk, OnErr};
ghost use Rattle.io_edge.specs.Edge.{Gives, EndsAt, HasCause};

use thiserror::Error;

/// The source failed in this call.
#[derive(Clone, Copy, Debug, PartialEq, Eq, Error)]
#[error("source failed")]
pub struct SourceFailed;

/// A source of bytes (own).
pub trait Source {
    /// The bytes that it has left to give, where it tells them.
    ghost left: { Self → Option (List ℕ) };

    /// How often it has failed.
    ghost faults: { Self → ℕ };

    /// Reads some bytes into the front of `into`, which isn't empty, and answers how many. 0 is the end of input. At an
    /// error the source has given nothing.
    fn read(&mut self, into: &mut [u8]) -> Result<usize, SourceFailed>
        requires { 0 < length into.old }
        ensures fits { IfOk result (λ n. n ≤ length into.old) }
        ensures rest { IfOk result (λ n. drop n into.new ≡ drop n into.old) }
        ensures bytes { IfOk result (λ n. Gives (left self.old) (take n into.new) (left self.new)) }
        ensures end { IfOk result (EndsAt (left self.old)) }
        ensures left { OnErr result (left self.new ≡ left self.old) }
        ensures cause { HasCause (faults self.old) (faults self.new) result };
}
