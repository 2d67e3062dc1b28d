ghost use Rattle.std.specs.Prelude.{◌≡◌, ◌<◌, ◌≤◌, ◌+◌, ◌-◌, ◌^◌, ◌↔◌, [], ◌∷◌, length, take, drop, min, Some, Contains, IfOk, IsErr, OnErr};
ghost use Rattle.io_edge.specs.Edge.{Gives, EndsAt, HasCause};

use crate::calls::Calls;
use crate::{Source, SourceFailed};
use blk_base::OutOfMemory;
use std::alloc::Global;
use std::marker::Model;

/// A source in memory, which fails at the calls that it is told.
#[derive(Drop)]
pub struct MemorySource {
    bytes: Vec<u8>,
    at: usize,
    calls: Calls,
}

impl Model for MemorySource {
    ghost use Rattle.std.specs.Prelude.{◌≤◌, drop, length};
    ghost use Rattle.io_edge.specs.Memory.{SourceState};

    ghost Value = { SourceState };

    ghost view = { λ s. record { left = drop s.at s.bytes.items; fails = s.calls.fails.items; made = s.calls.made; faults = s.calls.faults } };

    ghost invariant = { λ s. s.at ≤ length s.bytes.items };
}

impl MemorySource {
    /// A source of these bytes. `fails` lists the numbers, from 1, of the reads that fail.
    pub fn new(alloc: Global, bytes: &[u8], fails: &[u64]) -> Result<MemorySource, OutOfMemory>
        ensures { IfOk result (λ source. source ≡ record { left = bytes.now; fails = fails.now; made = 0; faults = 0 }) }
    {
        Ok(MemorySource {
            bytes: Vec::from_slice(alloc, bytes)?,
            at: 0,
            calls: Calls::new(alloc, fails)?,
        })
    }
}

/// Copies to the front of `into` as many of these bytes as fit, and answers how many.
fn copy_front(into: &mut [u8], bytes: &[u8]) -> usize
    ensures count { result ≡ min (length into.old) (length bytes.now) }
    ensures front { take result into.new ≡ take result bytes.now }
    ensures rest { drop result into.new ≡ drop result into.old }
{
    let count = into.len().min(bytes.len());
    into[..count].copy_from_slice(&bytes[..count]);
    count
}

impl Source for MemorySource {
    ghost use Rattle.std.specs.Prelude.{Some};

    ghost left = { λ s. Some s.left };

    ghost faults = { λ s. s.faults };

    /// Gives as many bytes as fit, or as are left.
    fn read(&mut self, into: &mut [u8]) -> Result<usize, SourceFailed>
        requires { 0 < length into.old }
        ensures fits { IfOk result (λ n. n ≤ length into.old) }
        ensures rest { IfOk result (λ n. drop n into.new ≡ drop n into.old) }
        ensures bytes { IfOk result (λ n. Gives (Some self.old.left) (take n into.new) (Some self.new.left)) }
        ensures end { IfOk result (EndsAt (Some self.old.left)) }
        ensures left { OnErr result (Some self.new.left ≡ Some self.old.left) }
        ensures cause { HasCause self.old.faults self.new.faults result }

        // As many as fit, and it fails exactly at the told calls.
        ensures all { IfOk result (λ n. n ≡ min (length into.old) (length self.old.left)) }
        ensures fails { IsErr result ↔ Contains self.old.fails (self.old.made + 1) }
        ensures made { self.new.made ≡ min (self.old.made + 1) (2 ^ 64 - 1) }
        ensures same { self.new.fails ≡ self.old.fails }
    {
        if self.calls.begin() {
            self.calls.fault();
            return Err(SourceFailed);
        }
        let count = copy_front(into, &self.bytes[self.at..]);
        self.at += count;
        Ok(count)
    }
}
