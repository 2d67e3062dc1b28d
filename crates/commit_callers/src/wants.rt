ghost use Rattle.std.specs.Prelude.{◌≡◌, ◌≤◌, ℕ, [], ◌∷◌, ◌++◌, take, filter, not, nat_eq, false};
ghost use Rattle.std.specs.List.{list_any};
ghost use Rattle.commit_callers.specs.Order.{AreCallers};

/// How many callers a volume has: they are 1 to 16 (own).
pub(crate) const CALLERS: usize = 16;

/// The callers that want a full commit, the oldest want first, none of them twice (own).
#[derive(Clone, Copy)]
pub(crate) struct Wants {
    callers: [u32; CALLERS],
    count: usize,
    ghost within: { count ≤ 16 },
    ghost are_callers: { AreCallers (take count callers) },
}

impl Wants {
    ghost use Rattle.commit_core.specs.Holding.{first_caller};
    ghost use Rattle.commit_history.specs.Effects.{wanting, without};
    ghost use Rattle.commit_callers.specs.Wants.{callers_in};

    /// Nobody wants a full commit.
    pub(crate) fn new() -> Wants
        ensures { callers_in result ≡ [] }
    {
        Wants {
            callers: [0; CALLERS],
            count: 0,
        }
    }

    /// The callers, the oldest want first.
    pub(crate) fn callers(&self) -> &[u32]
        ensures list { result.now ≡ callers_in self.now }
        ensures are { AreCallers result.now }
    {
        &self.callers[..self.count]
    }

    /// Whether the caller is among them.
    pub(crate) fn contains(&self, caller: u32) -> bool
        ensures { result ≡ list_any (nat_eq caller) (callers_in self.now) }
    {
        self.callers().contains(&caller)
    }

    /// The caller with the oldest want.
    pub(crate) fn first(&self) -> Option<u32>
        ensures { result ≡ first_caller (callers_in self.now) }
    {
        self.callers().first().copied()
    }

    /// Puts the caller last, where it isn't there yet.
    pub(crate) fn add(&mut self, caller: u32)
        requires { (1 ≤ caller) × (caller ≤ 16) }
        ensures { callers_in self.new ≡ wanting (callers_in self.old) caller }
    {
        if !self.contains(caller) {
            self.push(caller);
        }
    }

    fn push(&mut self, caller: u32)
        requires caller { (1 ≤ caller) × (caller ≤ 16) }
        requires other { list_any (nat_eq caller) (callers_in self.old) ≡ false }
        ensures { callers_in self.new ≡ callers_in self.old ++ caller ∷ [] }
    {
        self.callers[self.count] = caller;
        self.count += 1;
    }

    /// Takes these callers away.
    pub(crate) fn remove_all(&mut self, others: &Wants)
        ensures { callers_in self.new ≡ filter (λ caller. not (list_any (nat_eq caller) (callers_in others.now))) (callers_in self.old) }
    {
        let mut left = Wants::new();
        for &caller in self.callers() {
            if !others.contains(caller) {
                left.push(caller);
            }
        }
        *self = left;
    }

    /// Takes the caller away.
    pub(crate) fn remove(&mut self, caller: u32)
        requires { (1 ≤ caller) × (caller ≤ 16) }
        ensures { callers_in self.new ≡ without (callers_in self.old) caller }
    {
        let mut one = Wants::new();
        one.push(caller);
        self.remove_all(&one);
    }
}
