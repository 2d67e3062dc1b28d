//! Laws on calls, as contracts of functions that do nothing.
ghost use Rattle.std.specs.Prelude.{ℕ};
ghost use Rattle.commit_core.specs.Coming.{state_of};
ghost use Rattle.commit_images.specs.Scene.{Mounted};
ghost use Rattle.flat_model.specs.declared.answer.Answer.TheVariants as answers;
ghost use Rattle.flat_model.specs.declared.op.Op.{Op};
ghost use Rattle.flat_model.specs.declared.request.Request.TheVariants as requests;
ghost use Rattle.volume_calls.specs.Between.{Between};
ghost use Rattle.volume_calls.specs.Calls.{IsCalled, LacksRoom};

/// Law: an operation answers that there is no space only where fewer blocks are free than it needs on the current volume,
/// and of all but 82 no more are in use than that volume's data blocks and the most that its trees may have (own).
pub fn no_space_is_within_the_bound()
    ensures { (mounted : Mounted) (caller : ℕ) (op : Op) (free needed : ℕ) (before after : Between)
        → IsCalled mounted caller (requests.Op op) (answers.NoSpace free needed) before after
        → LacksRoom after.blocks (state_of mounted after.scene).current op free needed }
{}
