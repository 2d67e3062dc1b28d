ghost use Rattle.std.specs.Prelude.{◌≡◌, ◌<◌, ◌≤◌, ◌+◌, ◌-◌, ◌^◌, ◌↔◌, ◌⊎◌, ◌++◌, [], length, take, min, Some, Contains, IfOk, IsErr, OnErr};
ghost use Rattle.io_edge.specs.Edge.{Takes, TakesFront, HasCause};

use crate::calls::Calls;
use crate::{Sink, SinkFailed};
use blk_base::OutOfMemory;
use std::alloc::Global;
use std::marker::Model;

/// The bytes that a sink in memory takes: 16 MiB.
pub const SINK_ROOM: usize = 16_777_216;

/// A sink in memory, which takes each piece whole and fails at the calls that it is told and past 16 MiB.
#[derive(Drop)]
pub struct MemorySink {
    taken: Vec<u8>,
    calls: Calls,
}

impl Model for MemorySink {
    ghost use Rattle.std.specs.Prelude.{◌≤◌, length, vec_capacity};
    ghost use Rattle.io_edge.specs.Memory.{SinkState};

    ghost Value = { SinkState };

    ghost view = { λ s. record { taken = s.taken.items; fails = s.calls.fails.items; made = s.calls.made; faults = s.calls.faults } };

    ghost invariant = { λ s. (length s.taken.items ≤ 16_777_216) × (16_777_216 ≤ vec_capacity s.taken) };
}

impl MemorySink {
    /// An empty sink. `fails` lists the numbers, from 1, of the writes that fail.
    pub fn new(alloc: Global, fails: &[u64]) -> Result<MemorySink, OutOfMemory>
        ensures { IfOk result (λ sink. sink ≡ record { taken = []; fails = fails.now; made = 0; faults = 0 }) }
    {
        Ok(MemorySink {
            taken: Vec::with_capacity(alloc, SINK_ROOM)?,
            calls: Calls::new(alloc, fails)?,
        })
    }

    /// The bytes that it has taken.
    pub fn bytes(&self) -> &[u8]
        ensures { result.now ≡ self.now.taken }
    {
        &self.taken
    }
}

impl Sink for MemorySink {
    ghost use Rattle.std.specs.Prelude.{Some};

    ghost taken = { λ s. Some s.taken };

    ghost faults = { λ s. s.faults };

    /// Takes the whole piece, where it fits into what is left of 16 MiB, and else nothing.
    fn write(&mut self, bytes: &[u8]) -> Result<usize, SinkFailed>
        requires { 0 < length bytes.now }
        ensures some { IfOk result (λ n. 0 < n) }
        ensures fits { IfOk result (λ n. n ≤ length bytes.now) }
        ensures taken { IfOk result (λ n. Takes (Some self.old.taken) (take n bytes.now) (Some self.new.taken)) }
        ensures front { OnErr result (TakesFront (Some self.old.taken) bytes.now (Some self.new.taken)) }
        ensures cause { HasCause self.old.faults self.new.faults result }

        // All of the piece or nothing, and it fails exactly at the told calls and where the piece doesn't fit.
        ensures whole { IfOk result (λ n. n ≡ length bytes.now) }
        ensures nothing { OnErr result (self.new.taken ≡ self.old.taken) }
        ensures fails { IsErr result ↔ (Contains self.old.fails (self.old.made + 1) ⊎ (SINK_ROOM < length self.old.taken + length bytes.now)) }
        ensures made { self.new.made ≡ min (self.old.made + 1) (2 ^ 64 - 1) }
        ensures same { self.new.fails ≡ self.old.fails }
    {
        if self.calls.begin() || bytes.len() > SINK_ROOM - self.taken.len() {
            self.calls.fault();
            return Err(SinkFailed);
        }
        match self.taken.extend_from_slice(bytes) {
            Ok(()) => Ok(bytes.len()),
            Err(_) => unreachable!(),
        }
    }
}
