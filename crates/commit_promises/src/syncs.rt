ghost use Rattle.std.specs.Prelude.{◌++◌, ◌≤◌, ℕ, List, ◌∷◌};
ghost use Rattle.flat_model.specs.Volume.{Volume};
ghost use Rattle.flat_model.specs.Coherent.{IsCoherentVolume};
ghost use Rattle.flat_model.specs.declared.answer.Answer.TheVariants as answers;
ghost use Rattle.commit_history.specs.declared.event.Event.{Event};
ghost use Rattle.commit_history.specs.declared.event.Event.TheVariants as event;
ghost use Rattle.commit_history.specs.Effects.{state_of};
ghost use Rattle.commit_history.specs.Survival.{operations_of};
ghost use Rattle.commit_promises.specs.Answered.{EachLeft, HasAnswered, NamesAreSince, RecordIsSince};

/// Law: once a sync has answered, the last full commit was sealed at a point not before the sync began, and whatever a
/// crash leaves has each inode's record and names as at points not before it (own).
pub fn answered_syncs_survive()
    ensures committed { (volume : Volume) (front back : List Event) (caller : ℕ) → IsCoherentVolume volume
        → HasAnswered volume front (event.Ask caller) back answers.Sync
        → (state_of volume front).point ≤ (state_of volume (front ++ event.Ask caller ∷ back)).committed_at }
    ensures records { (volume : Volume) (front back : List Event) (caller id ino : ℕ) → IsCoherentVolume volume
        → HasAnswered volume front (event.Ask caller) back answers.Sync
        → EachLeft volume (front ++ event.Ask caller ∷ back) id
        (RecordIsSince volume (operations_of (front ++ event.Ask caller ∷ back)) id ino (state_of volume front).point) }
    ensures names { (volume : Volume) (front back : List Event) (caller id ino : ℕ) → IsCoherentVolume volume
        → HasAnswered volume front (event.Ask caller) back answers.Sync
        → EachLeft volume (front ++ event.Ask caller ∷ back) id
        (NamesAreSince volume (operations_of (front ++ event.Ask caller ∷ back)) id ino (state_of volume front).point) }
{}
