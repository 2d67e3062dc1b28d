ghost use Rattle.std.specs.Prelude.{ℕ, List, take};
ghost use Rattle.flat_model.specs.Volume.{Volume};
ghost use Rattle.flat_model.specs.Coherent.{IsCoherentVolume};
ghost use Rattle.commit_history.specs.declared.event.Event.{Event};
ghost use Rattle.commit_history.specs.Effects.{state_of};
ghost use Rattle.commit_history.specs.Legal.{IsLegal};
ghost use Rattle.commit_history.specs.Survival.{AreCoherent, CrashesSurvive, DoAgree};

/// Law: in each legal history, all current and logged subvolumes of all moments are coherent and agree pairwise (own).
pub fn states_agree()
    ensures coherent { (volume : Volume) (events : List Event) → IsCoherentVolume volume → IsLegal volume events → AreCoherent (state_of volume events) }
    ensures agree { (volume : Volume) (events : List Event) (early late : ℕ) → IsCoherentVolume volume → IsLegal volume events
        → DoAgree (state_of volume (take early events)) (state_of volume (take late events)) }
{}

/// Law: after each legal list of events, whatever a crash may leave survives them: the durable volume, that of the
/// superblock being written, and those of superblocks whose write failed and that none replaced (own).
pub fn what_a_crash_leaves_survives()
    ensures { (volume : Volume) (events : List Event) → IsCoherentVolume volume → IsLegal volume events → CrashesSurvive volume events }
{}
