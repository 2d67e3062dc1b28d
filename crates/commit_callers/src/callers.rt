ghost use Rattle.std.specs.Prelude.{◌≡◌, ◌≤◌, ◌↔◌, ◌++◌, ℕ, Bool, List, [], ◌∷◌, IsTrue};
ghost use Rattle.flat_model.specs.Volume.{Volume};
ghost use Rattle.flat_model.specs.declared.op.Op.{Op};
ghost use Rattle.commit_history.specs.declared.event.Cover.TheVariants as covers;
ghost use Rattle.commit_history.specs.declared.event.Event.{Event};
ghost use Rattle.commit_history.specs.declared.event.Event.TheVariants as event;
ghost use Rattle.commit_history.specs.declared.event.OpEnd.{OpEnd};
ghost use Rattle.commit_history.specs.declared.event.Turn.TheVariants as turns;
ghost use Rattle.commit_history.specs.Calls.{call_of};
ghost use Rattle.commit_history.specs.Effects.{state_of};
ghost use Rattle.commit_history.specs.Legal.{HoldsFull, MaySealFull, is_short};
ghost use Rattle.commit_core.specs.Coming.{IsUnfinished};
ghost use Rattle.commit_core.specs.Holding.{full_holder};
ghost use Rattle.commit_callers.specs.GoWith.{GoWith, cover_if};

use crate::covered::Covered;
use crate::wants::Wants;

/// A full commit that runs: the caller that runs it, and the callers that wanted it at its seal (own).
#[derive(Clone, Copy)]
struct Running {
    holder: u32,
    wants: Wants,
}

/// Which callers, 1 to 16, want a full commit, which one runs it, and which callers one has covered (own; after
/// btrfs_commit_transaction of fs/btrfs/transaction.c).
#[derive(Clone, Copy)]
pub struct Callers {
    wants: Wants,
    full: Option<Running>,
    covered: Covered,
}

impl Callers {
    /// The callers of a volume that has just been mounted.
    pub fn new() -> Callers
        ensures { (volume : Volume) → GoWith result volume [] }
    {
        Callers {
            wants: Wants::new(),
            full: None,
            covered: Covered::new(),
        }
    }

    /// The caller carried out an operation, `again` where it was short before; `short` where it was short now.
    pub fn operated(&mut self, caller: u32, again: bool, short: bool)
        requires { (1 ≤ caller) × (caller ≤ 16) }
        ensures { (volume : Volume) (events : List Event) (op : Op) (end : OpEnd) (indexes : List ℕ) → is_short end ≡ short
            → GoWith self.old volume events → GoWith self.new volume (events ++ event.Op caller op again end indexes ∷ []) }
    {
        self.covered.clear(caller);
        if short && !again {
            self.wants.add(caller);
        }
    }

    /// The caller asked for a full commit.
    pub fn asked(&mut self, caller: u32)
        requires { (1 ≤ caller) × (caller ≤ 16) }
        ensures { (volume : Volume) (events : List Event) → GoWith self.old volume events
            → GoWith self.new volume (events ++ event.Ask caller ∷ []) }
    {
        self.covered.clear(caller);
        self.wants.add(caller);
    }

    /// The caller sealed the volume for a full commit, which will cover the callers that want one now.
    pub fn sealed(&mut self, caller: u32)
        ensures { (volume : Volume) (events : List Event) → MaySealFull (state_of volume events) caller → GoWith self.old volume events
            → GoWith self.new volume (events ++ event.SealFull caller ∷ []) }
    {
        self.full = Some(Running {
            holder: caller,
            wants: self.wants,
        });
    }

    /// The full commit that the caller runs is done: the callers that wanted it at its seal are covered.
    pub fn done(&mut self, caller: u32)
        ensures { (volume : Volume) (events : List Event) → HoldsFull (state_of volume events) caller → GoWith self.old volume events
            → GoWith self.new volume (events ++ event.FullDone caller ∷ []) }
    {
        if let Some(running) = self.full.take() {
            self.covered.cover(&running.wants);
            self.wants.remove_all(&running.wants);
        }
    }

    /// The full commit that the caller runs failed, which ends its call; the other callers still want one.
    pub fn failed(&mut self, caller: u32)
        requires { (1 ≤ caller) × (caller ≤ 16) }
        ensures { (volume : Volume) (events : List Event) (tried : Bool) → HoldsFull (state_of volume events) caller → GoWith self.old volume events
            → GoWith self.new volume (events ++ event.Failed caller turns.Full tried ∷ []) }
    {
        self.full = None;
        self.wants.remove(caller);
    }

    /// Whether the caller may seal the volume now: it wants a full commit, and none runs.
    pub fn may_seal(&self, caller: u32) -> bool
        ensures { (volume : Volume) (events : List Event) → GoWith self.now volume events
            → (IsTrue result ↔ MaySealFull (state_of volume events) caller) }
    {
        self.full.is_none() && self.wants.contains(caller)
    }

    /// The caller that runs the full commit, or where none runs the one with the oldest want.
    pub fn holder(&self) -> Option<u32>
        ensures { (volume : Volume) (events : List Event) → GoWith self.now volume events
            → result ≡ full_holder (state_of volume events).full (state_of volume events).wants }
    {
        match self.full {
            Some(running) => Some(running.holder),
            None => self.wants.first(),
        }
    }

    /// Whether a full commit covered what the caller waits for, in a call that hasn't ended by an event of its own. Where none
    /// did, no commit did.
    pub fn is_covered(&self, caller: u32) -> bool
        requires { (1 ≤ caller) × (caller ≤ 16) }
        ensures cover { (volume : Volume) (events : List Event) → GoWith self.now volume events → IsUnfinished (call_of volume events caller)
            → (call_of volume events caller).cover ≡ cover_if result }
        ensures full { (volume : Volume) (events : List Event) → GoWith self.now volume events → IsUnfinished (call_of volume events caller)
            → (IsTrue result ↔ ((call_of volume events caller).cover ≡ covers.Full)) }
    {
        self.covered.contains(caller)
    }
}
