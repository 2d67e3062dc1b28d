//! Laws on what a crash may leave, for the proofs of the crates above.
ghost use Rattle.std.specs.Prelude.{◌≡◌, ◌≢◌, ◌↔◌, ◌∷◌, [], ℕ, List, length, ◌<◌, Some, Contains, Bool, true, false, slice_get, slice_index_or};
ghost use Rattle.disk_model.specs.Disk.{Image, Told, Call, Held, Leaves, after_call, during_call, GoesOn, EveryMoment, Throughout, HasNoSuper, Writes, Settles, IsUnsettled, held_now, image_now};

/// A property of an image, for laws that hold of each.
pub trait Property {
    /// The image has it.
    ghost holds: { Image → Type 0 };
}

/// What holds at every moment of a stretch of calls and of the next one holds at every moment of both.
pub fn moments_join<P: Property>()
    ensures { (old mid new : Told) → EveryMoment old mid P.holds → EveryMoment mid new P.holds → EveryMoment old new P.holds }
{}

/// What follows from a property that holds at every moment holds at every moment.
pub fn moments_weaken<P: Property, Q: Property>()
    ensures { (old new : Told) → ((image : Image) → P.holds image → Q.holds image) → EveryMoment old new P.holds → EveryMoment old new Q.holds }
{}

/// At every moment of a stretch of calls, and before, during and after each of them, is the same.
pub fn moments_by_calls<P: Property>()
    ensures { (old new : Told) (added : List Call) → GoesOn old new added → (EveryMoment old new P.holds ↔ Throughout (held_now old) added P.holds) }
{}

/// After a flush that answered Ok, a crash leaves what a read gives in every block but the superblock and the lost ones.
pub fn flush_settles()
    ensures { (old new : Told) (image : Image) → GoesOn old new (Call.Flush true ∷ []) → Leaves (held_now new) image → (at : ℕ)
        → at ≢ 16 → (Contains (held_now new).lost at → ⊥) → slice_get image at ≡ slice_get (image_now new) at }
{}

/// After a flush that failed, what was pending is lost until it is written again, whatever other calls answer.
pub fn failed_flush_loses()
    ensures { (old mid new : Told) (calls : List Call) (block : ℕ) → GoesOn old mid (Call.Flush false ∷ []) → GoesOn mid new calls → (Writes calls block → ⊥)
        → Contains (held_now old).pending block → Contains (held_now new).lost block }
{}

/// A block that a list of calls settled, and that no later call writes, has its bytes at every later moment.
pub fn settled_stays()
    ensures { (old mid new : Told) (calls later : List Call) (block : ℕ) (bytes : List ℕ) → GoesOn old mid calls → GoesOn mid new later → Settles calls block bytes
        → (Writes later block → ⊥) → block ≢ 16 → block < length (image_now old) → EveryMoment mid new (λ image. slice_get image block ≡ Some bytes) }
{}

/// After a write of the superblock that answered Ok, and until the next such write, a crash finds its bytes.
pub fn super_is_durable()
    ensures { (old mid new : Told) (bytes left : List ℕ) (calls : List Call) → GoesOn old mid (Call.Super bytes true left ∷ []) → GoesOn mid new calls → HasNoSuper calls
        → EveryMoment mid new (λ image. slice_index_or image 16 [] ≡ bytes) }
{}

/// A block that isn't the superblock, isn't pending or lost and that no call writes, stays at every moment.
pub fn unwritten_stays()
    ensures { (old new : Told) (calls : List Call) (block : ℕ) → GoesOn old new calls → block ≢ 16 → (IsUnsettled (held_now old) block → ⊥) → (Writes calls block → ⊥)
        → EveryMoment old new (λ image. slice_get image block ≡ slice_get (image_now old) block) }
{}

/// What a crash may leave before a call or after it, it may leave while the call runs.
pub fn running_call_leaves_most()
    ensures before { (held : Held) (call : Call) (image : Image) → Leaves held image → Leaves (during_call held call) image }
    ensures after { (held : Held) (call : Call) (image : Image) → Leaves (after_call held call) image → Leaves (during_call held call) image }
{}
