ghost use Rattle.std.specs.Prelude.{◌≡◌, ◌≢◌, ◌≤◌, ◌||◌, ℕ, nat_eq, false};
ghost use Rattle.std.specs.List.{list_any};
ghost use Rattle.commit_callers.specs.Wants.{callers_in};
ghost use Rattle.commit_callers.specs.Covered.{is_covered_in};

use crate::wants::{CALLERS, Wants};

/// For each caller whether a full commit covered what it waits for (own).
#[derive(Clone, Copy)]
pub(crate) struct Covered {
    flags: [bool; CALLERS],
}

impl Covered {
    /// Nobody is covered.
    pub(crate) fn new() -> Covered
        ensures { (caller : ℕ) → is_covered_in result caller ≡ false }
    {
        Covered {
            flags: [false; CALLERS],
        }
    }

    /// Whether the caller is covered.
    pub(crate) fn contains(&self, caller: u32) -> bool
        requires { (1 ≤ caller) × (caller ≤ 16) }
        ensures { result ≡ is_covered_in self.now caller }
    {
        self.flags[caller as usize - 1]
    }

    /// The caller waits anew.
    pub(crate) fn clear(&mut self, caller: u32)
        requires { (1 ≤ caller) × (caller ≤ 16) }
        ensures own { is_covered_in self.new caller ≡ false }
        ensures others { (other : ℕ) → 1 ≤ other → other ≢ caller → is_covered_in self.new other ≡ is_covered_in self.old other }
    {
        self.flags[caller as usize - 1] = false;
    }

    /// Covers the callers that wanted it.
    pub(crate) fn cover(&mut self, wants: &Wants)
        ensures { (caller : ℕ) → 1 ≤ caller
            → is_covered_in self.new caller ≡ (list_any (nat_eq caller) (callers_in wants.now) || is_covered_in self.old caller) }
    {
        for &caller in wants.callers() {
            self.flags[caller as usize - 1] = true;
        }
    }
}
