ghost use Rattle.std.specs.Prelude.{◌≡◌, ◌≢◌, ℕ, cond, false};
ghost use Rattle.commit_history.specs.declared.event.Event.{Event};
ghost use Rattle.commit_history.specs.declared.event.Event.TheVariants as event;
ghost use Rattle.commit_history.specs.declared.event.Cover.TheVariants as covers;
ghost use Rattle.commit_history.specs.State.{State, is_taken};
ghost use Rattle.commit_history.specs.Calls.{Call, HasTicket, Part, after_own, call_after, caller_of, duty};
ghost use Rattle.commit_laws.specs.Answers.{is_of_commit};

/// Law: a call that a commit has covered makes no further step of a commit: it has finished, or it is an operation that is
/// tried once more (own).
pub fn covered_calls_need_no_commit()
    ensures { (state : State) (call : Call) → call.cover ≢ covers.Open → is_of_commit (duty state call) ≡ false }
{}

/// Law: what a call answers comes from its own events, from how many failures stood when it asked, and from the first
/// commit that covered it: the events of other callers change nothing of a call but its cover, and nothing once it is
/// covered. A root commit covers the tickets whose numbers it takes, a full commit covers all (own).
pub fn answers_come_from_own_events()
    ensures own { (one two : State) (caller : ℕ) (call : Call) (event : Event) → one.failures ≡ two.failures
        → after_own one caller call event ≡ after_own two caller call event }
    ensures other { (state : State) (caller : ℕ) (call : Call) (event : Event) → caller ≢ caller_of event
        → (call_after state caller call event).stage ≡ call.stage }
    ensures once { (state : State) (caller : ℕ) (call : Call) (event : Event) → caller ≢ caller_of event → call.cover ≢ covers.Open
        → call_after state caller call event ≡ call }
    ensures root { (state : State) (caller by sub number : ℕ) (part : Part) (call : Call) → caller ≢ by → call.stage ≡ HasTicket sub number part
        → call.cover ≡ covers.Open → (call_after state caller call (event.RootDone by)).cover ≡ cond (is_taken state.root sub number) covers.Root covers.Open }
    ensures full { (state : State) (caller by sub number : ℕ) (part : Part) (call : Call) → caller ≢ by → call.stage ≡ HasTicket sub number part
        → call.cover ≡ covers.Open → (call_after state caller call (event.FullDone by)).cover ≡ covers.Full }
{}
