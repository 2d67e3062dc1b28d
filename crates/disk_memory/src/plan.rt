ghost use Rattle.std.specs.Prelude.{◌≡◌, ◌+◌, ◌-◌, ◌^◌, ◌↔◌, ◌⊎◌, min, Contains, IsTrue, IfOk, Some, None, option_map, is_ok, if◌then◌else◌};
ghost use Rattle.disk_model.specs.Disk.{HasCause};

use blk_base::OutOfMemory;
use disk_model::DiskFailed;
use std::alloc::Global;

/// Which calls of a disk fail: the numbers of those that do, from 1, and how many go through until all fail. How many
/// calls were made, and how many failed. Both counts stand still at 2^64 - 1.
#[derive(Drop)]
pub struct Plan {
    pub fails: Vec<u64>,
    pub stop: Option<u64>,
    pub made: u64,
    pub faults: u64,
}

impl Plan {
    pub fn new(alloc: Global, fails: &[u64]) -> Result<Plan, OutOfMemory>
        ensures fails { IfOk result (λ plan. plan.fails.items ≡ fails.now) }
        ensures stop { IfOk result (λ plan. plan.stop ≡ None) }
        ensures made { IfOk result (λ plan. plan.made ≡ 0) }
        ensures faults { IfOk result (λ plan. plan.faults ≡ 0) }
    {
        Ok(Plan {
            fails: Vec::from_slice(alloc, fails)?,
            stop: None,
            made: 0,
            faults: 0,
        })
    }

    /// Counts a call that begins, and answers whether it fails.
    pub fn begin(&mut self) -> bool
        ensures fails { IsTrue result ↔ (Contains self.old.fails.items (self.old.made + 1) ⊎ (self.old.stop ≡ Some 0)) }
        ensures made { self.new.made ≡ min (self.old.made + 1) (2 ^ 64 - 1) }
        ensures stop { self.new.stop ≡ option_map (λ calls. calls - 1) self.old.stop }
        ensures same { self.new.fails ≡ self.old.fails }
        ensures faults { self.new.faults ≡ self.old.faults }
    {
        let listed = is_listed(&self.fails, self.made);
        let stopped = self.stop == Some(0);
        self.made = self.made.saturating_add(1);
        self.stop = match self.stop {
            Some(calls) => Some(calls.saturating_sub(1)),
            None => None,
        };
        listed || stopped
    }

    /// The answer of a call, which counts a fault where it failed.
    pub fn answer(&mut self, ok: bool) -> Result<(), DiskFailed>
        ensures answer { is_ok result ≡ ok }
        ensures cause { HasCause self.old.faults self.new.faults result }
        ensures made { self.new.made ≡ self.old.made }
        ensures stop { self.new.stop ≡ self.old.stop }
        ensures same { self.new.fails ≡ self.old.fails }
        ensures faults { self.new.faults ≡ (if ok then self.old.faults else min (self.old.faults + 1) (2 ^ 64 - 1)) }
    {
        if ok {
            return Ok(());
        }
        self.faults = self.faults.saturating_add(1);
        Err(DiskFailed)
    }
}

/// Whether the call after so many is one of these.
fn is_listed(fails: &[u64], made: u64) -> bool
    ensures { IsTrue result ↔ Contains fails.now (made + 1) }
{
    match made.checked_add(1) {
        Some(number) => fails.contains(&number),
        None => false,
    }
}
