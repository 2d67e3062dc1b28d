ghost use Rattle.std.specs.Prelude.{◌≡◌, ℕ, List};
ghost use Rattle.flat_model.specs.Volume.{Volume, RunVolume, mounted, volume_of};
ghost use Rattle.flat_model.specs.Coherent.{IsCoherentVolume};
ghost use Rattle.flat_model.specs.Running.{IsSoundVolume};
ghost use Rattle.flat_model.specs.Step.{Operated, IsHistory, IsChoice, IsSpelled, IsInLimits, step, volume_at};
ghost use Rattle.flat_model.specs.declared.op.Op.{Op};

/// Law: every operation leaves a sound volume sound, whichever of the indexes that it may choose its names get (own).
pub fn operations_keep_soundness()
    ensures { (run : RunVolume) (op : Op) (indexes : List ℕ) → IsSoundVolume run → IsSpelled op → IsInLimits op → IsChoice run op indexes → IsSoundVolume (step run op indexes).next }
{}

/// Law: a coherent volume is sound once it is mounted, and is still the same volume (own).
pub fn mounting_is_sound()
    ensures sound { (volume : Volume) → IsCoherentVolume volume → IsSoundVolume (mounted volume) }
    ensures same { (volume : Volume) → volume_of (mounted volume) ≡ volume }
{}

/// Law: from a coherent volume on, the volume at each point of each history is coherent (own).
pub fn histories_stay_coherent()
    ensures { (volume : Volume) (history : List Operated) (point : ℕ) → IsCoherentVolume volume → IsHistory (mounted volume) history → IsCoherentVolume (volume_at volume history point) }
{}
