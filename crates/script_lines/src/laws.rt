//! Laws on runs of scripts, as contracts of functions that do nothing.
ghost use Rattle.std.specs.Prelude.{◌≡◌, ◌+◌, ℕ, List, Option, Ok, Result, Some, slice_get, take};
ghost use Rattle.commit_core.specs.Coming.{state_of};
ghost use Rattle.commit_device.specs.Calls.{HoldsAtLeast};
ghost use Rattle.commit_device.specs.Moments.{EachMomentStands};
ghost use Rattle.commit_images.specs.Images.{IsMountedBy};
ghost use Rattle.commit_images.specs.Scene.{Commit, Mounted, first_scene};
ghost use Rattle.disk_model.specs.Disk.{Held, held_now};
ghost use Rattle.flat_model.specs.Coherent.{IsCoherentVolume};
ghost use Rattle.flat_model.specs.declared.answer.Answer.{Answer};
ghost use Rattle.flat_model.specs.declared.answer.Answer.TheVariants as answers;
ghost use Rattle.flat_model.specs.declared.op.Op.{Op};
ghost use Rattle.flat_model.specs.declared.request.Line.{Line};
ghost use Rattle.flat_model.specs.declared.request.Line.TheVariants.{Plain};
ghost use Rattle.flat_model.specs.declared.request.Request.TheVariants as requests;
ghost use Rattle.script_lines.specs.declared.fault.RunFault.{RunFault};
ghost use Rattle.script_lines.specs.Happened.{AllHappened};
ghost use Rattle.script_lines.specs.Lines.{AreAllowed, AreCalled, HasRun};
ghost use Rattle.script_text.specs.Script.{script_of};
ghost use Rattle.volume_calls.specs.Between.{Between};
ghost use Rattle.volume_calls.specs.Calls.{LacksRoom};
ghost use Rattle.volume_image.specs.Stands.{Stands};

/// Law: the callers of a script's lines are 1 to 16, and the operations that they ask for are in their limits (own).
pub fn a_script_is_allowed()
    ensures { (bytes : List ℕ) (lines : List Line) → script_of bytes ≡ Ok lines → AreAllowed lines }
{}

/// Law: however a run of lines ended, all that happened in it might come, in its order (own).
pub fn a_run_has_happened()
    ensures { (mounted : Mounted) (lines : List Line) (before after : Between) (taken now : Option (List ℕ)) (result : Result (Unit {0}) RunFault)
        → HasRun mounted lines before after taken now result → AllHappened mounted before after }
{}

/// Law: where a run begins right behind a mount by a superblock that a crash may find alone, each image that a crash may
/// leave at any moment of the run stands for a volume that survives what happened until then: the durable one, that of a
/// superblock whose write is under way, or one whose write failed and that none replaced (own).
pub fn images_of_a_run_stand()
    ensures { (mounted : Mounted) (held : Held) (first : Commit) (before after : Between) → IsCoherentVolume mounted.volume
        → IsMountedBy Stands mounted held first → before.scene ≡ first_scene held first → HoldsAtLeast (held_now before.told) held
        → (run : AllHappened mounted before after)
        → EachMomentStands Stands mounted.volume (first_scene held first) run.happenings before.told after.told }
{}

/// Law: where a line of a run, at this place counted from 0, answers that there is no space, a volume of as many blocks as
/// at the run's begin had too little room for its operation: fewer were free than it needs on the volume behind this line,
/// and of all but 82 no more were in use than that volume's data blocks and the most that its trees may have (own).
pub fn no_space_in_a_run_is_within_the_bound()
    ensures { (mounted : Mounted) (lines : List Line) (given : List Answer) (before after : Between) → AreCalled mounted before lines given after
        → (place caller : ℕ) (op : Op) (free needed : ℕ) → slice_get lines place ≡ Some (Plain caller (requests.Op op))
        → slice_get given place ≡ Some (answers.NoSpace free needed)
        → (next : Between) × AreCalled mounted before (take (place + 1) lines) (take (place + 1) given) next
        × LacksRoom before.blocks (state_of mounted next.scene).current op free needed }
{}
