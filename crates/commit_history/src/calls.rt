ghost use Rattle.std.specs.Prelude.{◌≡◌, ◌≢◌, ◌≤◌, ℕ, List, Some};
ghost use Rattle.flat_model.specs.Volume.{Volume};
ghost use Rattle.flat_model.specs.declared.answer.Answer.{Answer};
ghost use Rattle.commit_history.specs.declared.event.Event.{Event};
ghost use Rattle.commit_history.specs.State.{State};
ghost use Rattle.commit_history.specs.Calls.{Begins, Call, IsRuled, KeepsAnswer, answer_of, call_after, call_of, caller_of, duty};

/// Law: a call has one answer: once it has finished, no event of another caller changes what it answers, and the next
/// event of its caller is the first of another call (own).
pub fn calls_have_one_answer()
    ensures stays { (state : State) (caller : ℕ) (call : Call) (event : Event) → caller ≢ caller_of event → KeepsAnswer call (call_after state caller call event) }
    ensures ends { (state : State) (call : Call) (answer : Answer) → answer_of call ≡ Some answer → duty state call ≡ Begins }
{}

/// Law: a call makes at most 16 events (own).
pub fn calls_make_few_events()
    ensures { (volume : Volume) (events : List Event) (caller : ℕ) → IsRuled volume events → (call_of volume events caller).events ≤ 16 }
{}
