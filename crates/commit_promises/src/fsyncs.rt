ghost use Rattle.std.specs.Prelude.{◌≡◌, ◌++◌, ℕ, List, ◌∷◌, Bool, Contains, true, false};
ghost use Rattle.blk_base.specs.declared.key.SubId.{SubId};
ghost use Rattle.blk_base.specs.declared.key.Ino.{Ino};
ghost use Rattle.flat_model.specs.Volume.{Volume};
ghost use Rattle.flat_model.specs.Coherent.{IsCoherentVolume};
ghost use Rattle.flat_model.specs.declared.answer.Answer.{Answer};
ghost use Rattle.commit_history.specs.declared.event.Event.{Event};
ghost use Rattle.commit_history.specs.declared.event.Event.TheVariants as event;
ghost use Rattle.commit_history.specs.declared.event.Logged.{Logged};
ghost use Rattle.commit_history.specs.State.{HasLog, SubLog};
ghost use Rattle.commit_history.specs.Effects.{state_of, synced};
ghost use Rattle.commit_history.specs.Survival.{operations_of};
ghost use Rattle.commit_promises.specs.Answered.{EachLeft, HasAnswered, EntriesAreSince, NamesAreSince, RecordIsSince, is_durable, number_given};

/// Law: an fsync or fdatasync is acknowledged from the moment on at which it has an answer by which it is durable: its
/// subvolume's log has it among those that no crash may undo, with the point of its log step (own).
pub fn answered_fsyncs_are_acknowledged()
    ensures { (volume : Volume) (front back : List Event) (caller : ℕ) (sub : SubId) (ino : Ino) (end : Logged) (datasync : Bool)
        (old new : SubLog) (answer : Answer) → IsCoherentVolume volume
        → HasAnswered volume front (event.Log caller sub ino end datasync) back answer → is_durable answer ≡ true
        → HasLog (state_of volume front) sub.0 old → HasLog (state_of volume (front ++ event.Log caller sub ino end datasync ∷ back)) sub.0 new
        → Contains new.acknowledged (synced old caller (state_of volume front).point ino.0 datasync (number_given end)) }
{}

/// Law: once an fsync or fdatasync has such an answer, whatever a crash leaves has the inode's record as at a point not
/// before its log step, and after an fsync its names too, and where it is a directory's the names of what it had and of
/// what it has (own).
pub fn answered_fsyncs_survive()
    ensures records { (volume : Volume) (front back : List Event) (caller : ℕ) (sub : SubId) (ino : Ino) (end : Logged) (datasync : Bool)
        (answer : Answer) → IsCoherentVolume volume
        → HasAnswered volume front (event.Log caller sub ino end datasync) back answer → is_durable answer ≡ true
        → EachLeft volume (front ++ event.Log caller sub ino end datasync ∷ back) sub.0
        (RecordIsSince volume (operations_of (front ++ event.Log caller sub ino end datasync ∷ back)) sub.0 ino.0 (state_of volume front).point) }
    ensures names { (volume : Volume) (front back : List Event) (caller : ℕ) (sub : SubId) (ino : Ino) (end : Logged) (answer : Answer)
        → IsCoherentVolume volume → HasAnswered volume front (event.Log caller sub ino end false) back answer → is_durable answer ≡ true
        → EachLeft volume (front ++ event.Log caller sub ino end false ∷ back) sub.0
        (NamesAreSince volume (operations_of (front ++ event.Log caller sub ino end false ∷ back)) sub.0 ino.0 (state_of volume front).point) }
    ensures entries { (volume : Volume) (front back : List Event) (caller : ℕ) (sub : SubId) (dir : Ino) (end : Logged) (answer : Answer)
        → IsCoherentVolume volume → HasAnswered volume front (event.Log caller sub dir end false) back answer → is_durable answer ≡ true
        → EachLeft volume (front ++ event.Log caller sub dir end false ∷ back) sub.0
        (EntriesAreSince volume (operations_of (front ++ event.Log caller sub dir end false ∷ back)) sub.0 dir.0 (state_of volume front).point) }
{}
