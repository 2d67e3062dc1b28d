ghost use Rattle.flat_model.specs.Coherent.{IsCoherent};
ghost use Rattle.logged_volume.specs.Agreement.{Agree, AreMadeAlike, KeepsCommon};
ghost use Rattle.logged_volume.specs.Laws.{AfterStep, StepKeeps};

/// Law: from a coherent current and a coherent logged volume that agree, a log step in place of which no full commit is
/// made leaves a coherent logged volume that agrees with the current one, and keeps what the two had in common (own).
pub fn log_steps_keep_coherence()
    ensures coherent { AfterStep (λ current logged next. IsCoherent next) }
    ensures agrees { AfterStep (λ current logged next. Agree current next) }
    ensures common { AfterStep KeepsCommon }
{}

/// Law: a subvolume that agrees with the current and with the logged volume agrees with what a log step leaves; and so for
/// what inodes were made as (own).
pub fn log_steps_keep_agreement()
    ensures agree { StepKeeps Agree }
    ensures alike { StepKeeps AreMadeAlike }
{}
