ghost use Rattle.std.specs.Prelude.{◌≡◌, ◌≢◌, ◌↔◌, ℕ};
ghost use Rattle.disk_model.specs.Disk.{Held};
ghost use Rattle.flat_model.specs.Coherent.{IsCoherentVolume};
ghost use Rattle.commit_history.specs.declared.event.Event.{Event};
ghost use Rattle.commit_history.specs.Calls as history;
ghost use Rattle.commit_history.specs.Calls.{EndsFull, caller_of, duty};
ghost use Rattle.commit_images.specs.Admissible.{MayHappen};
ghost use Rattle.commit_images.specs.Scene.{Comes, Commit, Handed, Happening, Mounted, Scene, first_scene, scene_after};
ghost use Rattle.commit_core.specs.Coming.{IsDeviceCall, call_in, state_of};
ghost use Rattle.commit_core.specs.Holding.{IsFullOf};
ghost use Rattle.call_steps.specs.declared.call.Call.{Call};
ghost use Rattle.call_steps.specs.Orderly.{IsOrderly};
ghost use Rattle.call_steps.specs.Standing.{IsAt, IsFinished, IsOver};

/// Law: right behind the mount of a coherent volume the history is orderly, each caller may begin a call, and none runs a
/// full commit (own).
pub fn mounting_is_orderly()
    ensures orderly { (mounted : Mounted) (held : Held) (first : Commit) → IsCoherentVolume mounted.volume → IsOrderly mounted (first_scene held first) }
    ensures over { (mounted : Mounted) (held : Held) (first : Commit) (caller : ℕ) → IsOver (call_in mounted (first_scene held first) caller) }
    ensures free { (mounted : Mounted) (held : Held) (first : Commit) (caller : ℕ) → IsFullOf mounted (first_scene held first) caller → ⊥ }
{}

/// Law: an event of another caller leaves a call where it stands, and whether its caller runs the full commit (own).
pub fn calls_of_others_leave_a_call()
    ensures at { (mounted : Mounted) (scene : Scene) (call : Call) (event : Event) (handed : Handed) → call.caller ≢ caller_of event
        → IsAt call (call_in mounted scene call.caller) → IsAt call (call_in mounted (scene_after mounted.volume scene (Comes event handed)) call.caller) }
    ensures turn { (mounted : Mounted) (scene : Scene) (caller : ℕ) (event : Event) (handed : Handed) → caller ≢ caller_of event
        → MayHappen mounted scene (Comes event handed)
        → (IsFullOf mounted (scene_after mounted.volume scene (Comes event handed)) caller ↔ IsFullOf mounted scene caller) }
{}

/// Law: a call of the device is no event: the history stays as it is (own).
pub fn device_calls_are_no_events()
    ensures { (mounted : Mounted) (scene : Scene) (happening : Happening) → IsDeviceCall happening
        → (scene_after mounted.volume scene happening).events ≡ scene.events }
{}

/// Law: behind a call that has finished its caller may begin another, and at most one caller runs a full commit (own).
pub fn calls_end()
    ensures over { (call : Call) (past : history.Call) → IsAt call past → IsFinished call → IsOver past }
    ensures alone { (mounted : Mounted) (scene : Scene) (one two : ℕ) → IsFullOf mounted scene one → IsFullOf mounted scene two → one ≡ two }
{}

/// Law: a caller runs the full commit exactly where the rules have its call end one next (own).
pub fn callers_end_their_full_commits()
    ensures { (mounted : Mounted) (scene : Scene) (caller : ℕ) → IsOrderly mounted scene
        → (IsFullOf mounted scene caller ↔ (duty (state_of mounted scene) (call_in mounted scene caller) ≡ EndsFull)) }
{}
