ghost use Rattle.std.specs.Prelude.{◌≡◌, ◌↔◌, ◌≤◌, ◌<◌, ◌+◌, ◌-◌, ◌*◌, ◌%◌, ◌^◌, ℕ, List, [], length, Option, IfOk, IfErr, OnErr, IsTrue, true, false, if◌then◌else◌};
ghost use Rattle.commit_history.specs.declared.event.Event.TheVariants as event;
ghost use Rattle.commit_history.specs.declared.event.OpEnd.TheVariants as ends;
ghost use Rattle.commit_history.specs.declared.event.Turn.TheVariants as turns;
ghost use Rattle.commit_history.specs.Legal.{HoldsFull, MaySealFull};
ghost use Rattle.commit_images.specs.Admissible.{IsFailureOf, MayHappen};
ghost use Rattle.commit_images.specs.Scene.{Comes, Happening, IsWritten, Mounted, Nothing, Scene, scene_after};
ghost use Rattle.commit_room.specs.Room.{free_blocks};
ghost use Rattle.flat_model.specs.Step.{IsInLimits};
ghost use Rattle.commit_core.specs.Coming.{HasCome, IsDeviceCall, IsOpDone, IsUnfinished, call_in, state_of};
ghost use Rattle.commit_core.specs.Few.{HasFew, IsJustSealed};
ghost use Rattle.commit_core.specs.Holding.{HasFailed, IsFullOf, holder_of};
ghost use Rattle.commit_core.specs.Sealed.{HavePlaces, IsSealedFull, SaysCommit};
ghost use Rattle.blk_base.specs.declared.key.Marks.{Marks};
ghost use Rattle.block_table.specs.declared.batch.Batch.{Batch};

use blk_base::{Marks, OutOfMemory};
use block_table::Batch;
use commit_history::{Cover, OpEnd, Turn};
use flat_model::Op;
use std::alloc::Global;

/// What keeps a mounted volume: each method that takes `&mut self` is an event of the volume, for a caller, 1 to 16 (own;
/// after btrfs_commit_transaction of fs/btrfs/transaction.c).
pub trait Core {
    /// What the core keeps goes with this, which happened since the mount.
    ghost has: { Self → Mounted → Scene → Type 0 };

    /// How many blocks the volume has.
    ghost size: { Self → ℕ };

    /// The volume's uuid.
    ghost fsid: { Self → List ℕ };

    /// The generation of the next full commit.
    ghost generation: { Self → ℕ };

    /// The byte addresses in use: each of them once.
    ghost in_use: { Self → List ℕ };

    /// The marks of the seals of this run.
    ghost marks: { Self → Marks };

    /// How many seals of root and full commits came.
    ghost seals: { Self → ℕ };

    /// The indexes of the names that the last operation made, 0 where there is none.
    ghost made: { Self → List ℕ };

    /// The batch is the one that the last seal handed out, and it may come back.
    ghost out: { Self → Batch → Type 0 };

    /// Carries out an operation, or finds that fewer blocks are free than it needs, which leaves a want of a full commit,
    /// unless it is tried again. Makes room for the seals after it.
    ///
    /// # Errors
    ///
    /// Out of memory: then no event came.
    fn op(&mut self, alloc: Global, caller: u32, op: &Op, again: bool) -> Result<OpEnd, OutOfMemory>
        requires caller { (1 ≤ caller) × (caller ≤ 16) }
        requires limits { IsInLimits op.now }
        requires has { (mounted : Mounted) × (scene : Scene) × has self.old mounted scene }
        ensures came { (mounted : Mounted) (scene : Scene) → has self.old mounted scene
            → IfOk result (λ end. IsOpDone (has self.new) mounted scene caller op.now again end (made self.new)) }
        ensures short { (free need : ℕ) → IfOk result (λ end. end ≡ ends.Short free need → free ≡ free_blocks (size self.old) (length (in_use self.old))) }
        ensures memory { (mounted : Mounted) (scene : Scene) → has self.old mounted scene → OnErr result (has self.new mounted scene) }
        ensures out { (batch : Batch) → out self.old batch → out self.new batch }
        ensures marks { marks self.new ≡ marks self.old }
        ensures seals { seals self.new ≡ seals self.old }
        ensures size { size self.new ≡ size self.old }
        ensures fsid { fsid self.new ≡ fsid self.old }
        ensures generation { generation self.new ≡ generation self.old };

    /// Leaves a want of a full commit. Makes room for the seal.
    ///
    /// # Errors
    ///
    /// Out of memory: then no event came.
    fn ask_full(&mut self, alloc: Global, caller: u32) -> Result<(), OutOfMemory>
        requires caller { (1 ≤ caller) × (caller ≤ 16) }
        requires has { (mounted : Mounted) × (scene : Scene) × has self.old mounted scene }
        ensures came { (mounted : Mounted) (scene : Scene) → has self.old mounted scene
            → IfOk result (λ done. HasCome (has self.new) mounted scene (event.Ask caller) Nothing) }
        ensures memory { (mounted : Mounted) (scene : Scene) → has self.old mounted scene → OnErr result (has self.new mounted scene) }
        ensures out { (batch : Batch) → out self.old batch → out self.new batch }
        ensures marks { marks self.new ≡ marks self.old }
        ensures seals { seals self.new ≡ seals self.old }
        ensures size { size self.new ≡ size self.old }
        ensures fsid { fsid self.new ≡ fsid self.old }
        ensures generation { generation self.new ≡ generation self.old };

    /// Seals the whole volume, and hands out the blocks and the superblock of a full commit. Takes no memory.
    fn seal_full(&mut self, caller: u32) -> Batch
        requires caller { (1 ≤ caller) × (caller ≤ 16) }
        requires has { (mounted : Mounted) × (scene : Scene) × has self.old mounted scene × MaySealFull (state_of mounted scene) caller }
        requires more { seals self.old + 1 < 2 ^ 64 }
        ensures sealed { (mounted : Mounted) (scene : Scene) → has self.old mounted scene → MaySealFull (state_of mounted scene) caller
            → IsSealedFull (has self.new) mounted scene caller result }
        ensures says { SaysCommit result.superblock.value (size self.old) (fsid self.old) (generation self.old) }
        ensures places { HavePlaces (size self.old) result.blocks.pairs }
        ensures full { result.full ≡ true }
        ensures parts { result.parts ≡ [] }
        ensures number { result.seal ≡ seals self.old + 1 }
        ensures at_seal { result.marks ≡ marks self.old }
        ensures out { out self.new result }
        ensures marks { marks self.new ≡ marks self.old }
        ensures seals { seals self.new ≡ seals self.old + 1 }
        ensures size { size self.new ≡ size self.old }
        ensures fsid { fsid self.new ≡ fsid self.old }
        ensures generation { generation self.new ≡ (generation self.old + 1) % 2 ^ 64 };

    /// The superblock of the full commit is written. Where nothing else came since its seal, few blocks are in use behind it.
    /// Takes the batch back. Takes no memory.
    fn full_done(&mut self, caller: u32, batch: Batch)
        requires caller { (1 ≤ caller) × (caller ≤ 16) }
        requires out { out self.old batch }
        requires has { (mounted : Mounted) × (scene : Scene) × has self.old mounted scene × IsFullOf mounted scene caller × (scene.progress ≡ IsWritten) }
        ensures came { (mounted : Mounted) (scene : Scene) → has self.old mounted scene → IsFullOf mounted scene caller → scene.progress ≡ IsWritten
            → HasCome (has self.new) mounted scene (event.FullDone caller) Nothing }
        ensures few { (mounted : Mounted) (scene : Scene) → has self.old mounted scene → IsFullOf mounted scene caller → scene.progress ≡ IsWritten
            → IsJustSealed scene caller
            → HasFew mounted (scene_after mounted.volume scene (Comes (event.FullDone caller) Nothing)) (length (in_use self.new)) }
        ensures marks { marks self.new ≡ record { done = batch.seal; tried = batch.seal; full = batch.seal } }
        ensures seals { seals self.new ≡ seals self.old }
        ensures size { size self.new ≡ size self.old }
        ensures fsid { fsid self.new ≡ fsid self.old }
        ensures generation { generation self.new ≡ generation self.old };

    /// The full commit failed; `tried` where the write of its superblock was made. Takes the batch back. Takes no memory.
    fn failed(&mut self, caller: u32, tried: bool, batch: Batch)
        requires caller { (1 ≤ caller) × (caller ≤ 16) }
        requires out { out self.old batch }
        requires has { (mounted : Mounted) × (scene : Scene) × has self.old mounted scene × IsFullOf mounted scene caller × HasFailed scene tried }
        ensures came { (mounted : Mounted) (scene : Scene) → has self.old mounted scene → IsFullOf mounted scene caller → HasFailed scene tried
            → HasCome (has self.new) mounted scene (event.Failed caller turns.Full tried) Nothing }
        ensures marks { marks self.new ≡ if tried then record { done = (marks self.old).done; tried = batch.seal; full = batch.seal } else marks self.old }
        ensures seals { seals self.new ≡ seals self.old }
        ensures size { size self.new ≡ size self.old }
        ensures fsid { fsid self.new ≡ fsid self.old }
        ensures generation { generation self.new ≡ generation self.old };

    /// Whether the caller may seal the whole volume now.
    fn may_seal_full(&self, caller: u32) -> bool
        ensures { (mounted : Mounted) (scene : Scene) → has self.now mounted scene → (IsTrue result ↔ MaySealFull (state_of mounted scene) caller) };

    /// By which commit what the caller waits for was first covered, for a call that hasn't finished.
    fn cover(&self, caller: u32) -> Cover
        requires caller { (1 ≤ caller) × (caller ≤ 16) }
        ensures { (mounted : Mounted) (scene : Scene) → has self.now mounted scene → IsUnfinished (call_in mounted scene caller)
            → result ≡ (call_in mounted scene caller).cover };

    /// The caller that holds a turn, and for a full turn that is only wanted the caller with the oldest want; none where the
    /// turn is free and not wanted.
    fn holder(&self, turn: Turn) -> Option<u32>
        ensures { (mounted : Mounted) (scene : Scene) → has self.now mounted scene → result ≡ holder_of (state_of mounted scene) turn };

    /// How many blocks are free: all but 82 and those in use.
    fn free(&self) -> u64
        ensures { result ≡ free_blocks (size self.now) (length (in_use self.now)) };

    /// How many device calls failed since the last full commit.
    fn failures(&self) -> u64
        ensures { (mounted : Mounted) (scene : Scene) → has self.now mounted scene → result ≡ (state_of mounted scene).failures };

    /// The indexes of the names that the last operation made, 0 where there is none.
    fn made(&self) -> [u64; 2]
        ensures { result ≡ made self.now };

    /// A call of the device that may happen changes nothing of what the core keeps.
    ghost goes_on: { (core : Self) (mounted : Mounted) (scene : Scene) (happening : Happening) → has core mounted scene → IsDeviceCall happening
        → MayHappen mounted scene happening → has core mounted (scene_after mounted.volume scene happening) };
}
