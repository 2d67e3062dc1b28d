ghost use Rattle.std.specs.Prelude.{◌≡◌, ◌+◌, ◌-◌, ◌^◌, ◌↔◌, [], min, Contains, IsTrue, IfOk, if◌then◌else◌};

use blk_base::OutOfMemory;
use std::alloc::Global;

/// The calls of an object in memory: the numbers of those that fail, from 1, how many were made, and how many failed.
/// Both counts stand still at 2^64 - 1.
#[derive(Drop)]
pub struct Calls {
    pub fails: Vec<u64>,
    pub made: u64,
    pub faults: u64,
}

impl Calls {
    pub fn new(alloc: Global, fails: &[u64]) -> Result<Calls, OutOfMemory>
        ensures fails { IfOk result (λ calls. calls.fails.items ≡ fails.now) }
        ensures made { IfOk result (λ calls. calls.made ≡ 0) }
        ensures faults { IfOk result (λ calls. calls.faults ≡ 0) }
    {
        Ok(Calls {
            fails: Vec::from_slice(alloc, fails)?,
            made: 0,
            faults: 0,
        })
    }

    /// Counts a call that begins, and answers whether it is one of those that fail.
    pub fn begin(&mut self) -> bool
        ensures fails { IsTrue result ↔ Contains self.old.fails.items (self.old.made + 1) }
        ensures made { self.new.made ≡ min (self.old.made + 1) (2 ^ 64 - 1) }
        ensures same { self.new.fails ≡ self.old.fails }
        ensures faults { self.new.faults ≡ self.old.faults }
    {
        let fails = is_listed(&self.fails, self.made);
        self.made = self.made.saturating_add(1);
        fails
    }

    /// Counts a fault.
    pub fn fault(&mut self)
        ensures made { self.new.made ≡ self.old.made }
        ensures same { self.new.fails ≡ self.old.fails }
        ensures faults { self.new.faults ≡ min (self.old.faults + 1) (2 ^ 64 - 1) }
    {
        self.faults = self.faults.saturating_add(1);
    }
}

/// Whether the call after so many is one of these.
fn is_listed(fails: &[u64], made: u64) -> bool
    ensures { IsTrue result ↔ Contains fails.now (made + 1) }
{
    match made.checked_add(1) {
        Some(number) => fails.contains(&number),
        None => false,
    }
}
