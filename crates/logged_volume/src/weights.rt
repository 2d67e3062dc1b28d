ghost use Rattle.std.specs.Prelude.{◌≡◌, ◌≤◌};
ghost use Rattle.flat_model.specs.Coherent.{IsCoherent};
ghost use Rattle.logged_volume.specs.Replay.{replay};
ghost use Rattle.logged_volume.specs.Standing.{IsLogOf};
ghost use Rattle.logged_volume.specs.Weight.{item_count, weight_of};
ghost use Rattle.logged_volume.specs.Laws.{AfterSteps};

/// Law: after all log steps since the last full commit, those with nothing to do included, the logged volume is
/// coherent, the log says what it is, replay of the log over the committed subvolume leaves it, and the log's items,
/// counted entry by entry, are at most the weight of these steps (own).
pub fn steps_bound_logs()
    ensures coherent { AfterSteps (λ committed steps logged log. IsCoherent logged) }
    ensures log { AfterSteps (λ committed steps logged log. IsLogOf committed logged log) }
    ensures replay { AfterSteps (λ committed steps logged log. replay committed log ≡ logged) }
    ensures items { AfterSteps (λ committed steps logged log. item_count log ≤ weight_of committed steps) }
{}
