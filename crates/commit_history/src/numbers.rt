ghost use Rattle.std.specs.Prelude.{List};
ghost use Rattle.commit_history.specs.declared.event.Event.{Event};
ghost use Rattle.commit_history.specs.State.{State};
ghost use Rattle.commit_history.specs.Effects.{after_events};
ghost use Rattle.commit_history.specs.Legal.{IsLegalFrom};
ghost use Rattle.commit_history.specs.Survival.{NumbersRise};

/// Law: log numbers are never used again: no subvolume's open number falls (own).
pub fn log_numbers_rise()
    ensures { (state : State) (events : List Event) → IsLegalFrom state events → NumbersRise state (after_events state events) }
{}
