ghost use Rattle.std.specs.Prelude.{◌≡◌, ◌++◌, ℕ, List, Bool, [], ◌∷◌, Some};
ghost use Rattle.std.specs.FinMap.{get};
ghost use Rattle.blk_base.specs.declared.key.SubId.{SubId};
ghost use Rattle.blk_base.specs.declared.key.Ino.{Ino};
ghost use Rattle.flat_model.specs.Volume.{Volume};
ghost use Rattle.flat_model.specs.Coherent.{IsCoherentVolume};
ghost use Rattle.flat_model.specs.declared.op.Op.{Op};
ghost use Rattle.flat_model.specs.declared.answer.Reason.TheVariants as reasons;
ghost use Rattle.commit_history.specs.declared.event.Event.{Event};
ghost use Rattle.commit_history.specs.declared.event.Event.TheVariants as event;
ghost use Rattle.commit_history.specs.declared.event.Logged.TheVariants as logged;
ghost use Rattle.commit_history.specs.declared.event.OpEnd.TheVariants as ends;
ghost use Rattle.commit_history.specs.State.{HasLog, SubLog};
ghost use Rattle.commit_history.specs.Effects.{state_of};
ghost use Rattle.commit_history.specs.Legal.{IsLegal};
ghost use Rattle.commit_room.specs.Ledger.{ledger_of};
ghost use Rattle.commit_room.specs.Room.{InUse, IsInUse, ShortIsTrue, SpaceIsTrue};

/// Law: each operation that was short, and each log step that found too little room, had fewer blocks free than it
/// needed, its need is that of the operation or the step, and at least so many blocks were free as all but 82, the data
/// blocks and trees of the last full commit, and the charges of all events since its seal (own).
pub fn room_of_answers()
    ensures short { (blocks : ℕ) (use_ : InUse) (volume : Volume) (front : List Event) (caller : ℕ) (op : Op) (again : Bool)
        (free need : ℕ) (indexes : List ℕ) → IsLegal volume (front ++ event.Op caller op again (ends.Short free need) indexes ∷ [])
        → IsInUse blocks use_ volume (front ++ event.Op caller op again (ends.Short free need) indexes ∷ [])
        → ShortIsTrue blocks (ledger_of volume front) op free need }
    ensures space { (blocks : ℕ) (use_ : InUse) (volume : Volume) (front : List Event) (caller : ℕ) (sub : SubId) (ino : Ino) (datasync : Bool)
        (free need : ℕ) → IsInUse blocks use_ volume (front ++ event.Log caller sub ino (logged.Full (reasons.Space free need)) datasync ∷ [])
        → SpaceIsTrue blocks (ledger_of volume front) sub.0 ino.0 datasync free need }
{}

/// Law: the committed volume from which room is counted is that of the logs, and the state is that of the events (own).
pub fn committed_is_of_logs()
    ensures state { (volume : Volume) (events : List Event) → (ledger_of volume events).state ≡ state_of volume events }
    ensures committed { (volume : Volume) (events : List Event) (id : ℕ) (log : SubLog) → IsCoherentVolume volume → IsLegal volume events
        → HasLog (state_of volume events) id log → get (ledger_of volume events).committed id ≡ Some log.committed }
{}
