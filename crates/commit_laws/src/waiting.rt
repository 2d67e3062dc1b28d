ghost use Rattle.std.specs.Prelude.{ℕ, List};
ghost use Rattle.flat_model.specs.Volume.{Volume};
ghost use Rattle.flat_model.specs.Coherent.{IsCoherentVolume};
ghost use Rattle.commit_history.specs.declared.event.Event.{Event};
ghost use Rattle.commit_history.specs.Effects.{state_of};
ghost use Rattle.commit_history.specs.Legal.{IsLegal};
ghost use Rattle.commit_history.specs.Calls.{IsRuled};
ghost use Rattle.commit_laws.specs.Waiting.{HasUnfinished, HoldsNothing, IsFullUnwanted, SomeoneGoesOn};

/// Law: after each legal list of events in which every caller follows its rules, a call that has finished holds no turn
/// and no slot, and wants no full commit. So where no call is unfinished, the first event of any call may come (own).
pub fn finished_calls_hold_nothing()
    ensures nothing { (volume : Volume) (events : List Event) (caller : ℕ) → IsCoherentVolume volume → IsLegal volume events → IsRuled volume events
        → (HasUnfinished volume events caller → ⊥) → HoldsNothing (state_of volume events) caller }
    ensures unwanted { (volume : Volume) (events : List Event) → IsCoherentVolume volume → IsLegal volume events → IsRuled volume events
        → ((caller : ℕ) → HasUnfinished volume events caller → ⊥) → IsFullUnwanted (state_of volume events) }
{}

/// Law: no state is stuck: after each legal list of events in which every caller follows its rules, where a call is
/// unfinished, the next step of some unfinished call doesn't wait (own).
pub fn no_state_is_stuck()
    ensures { (volume : Volume) (events : List Event) (caller : ℕ) → IsCoherentVolume volume → IsLegal volume events → IsRuled volume events
        → HasUnfinished volume events caller → SomeoneGoesOn volume events }
{}
