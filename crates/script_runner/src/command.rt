ghost use Rattle.std.specs.Prelude.{◌≡◌, ◌≤◌, ◌⊎◌, ◌↔◌, ◌∷◌, [], ℕ, List, ◌≢◌, OnOk, OnErr, IsTrue};
ghost use Rattle.disk_model.specs.Disk.{IfBoth, IfTold, known};
ghost use Rattle.io_edge.specs.Edge.{Takes, TakesFront, HasCause};
ghost use Rattle.blk_base.specs.Causes.{HasRisen};
ghost use Rattle.tree_mount.specs.declared.fault.MountFault.{MountFault};
ghost use Rattle.script_text.specs.declared.fault.ScriptKind.{ScriptKind};
ghost use Rattle.script_runner.specs.Run.{CrashMounts, HasLostNone, HasRunAnswer, IsSettled, KeepsSettled, outside};
ghost use Rattle.script_runner.specs.Commands.{IsOfMkfs, AreInRange, HasVolume, IsAnyMkfs, IsCommand, IsDone, IsFaultOf, IsInRange, IsList, IsOfScript};
ghost use Rattle.script_runner.specs.Commands.{IsOutOfRange, IsRun, IsTextOf, IsPut, bytes_of, made_line};
ghost use Rattle.volume_mkfs.specs.Made.{CrashLeaves};
ghost use Rattle.script_runner.specs.Mkfs.{HasVolumeAsked, HasVolumeOf, IsOldOrAsked, IsOldOrMade};

use crate::Status;
use crate::answer::answer;
use crate::list::list;
use crate::request::Request;
use crate::run::run_source;
use crate::text::put_made;
use disk_model::Disk;
use io_edge::{Sink, SinkFailed, Source};
use run_history::Run;
use std::alloc::Global;
use volume_mkfs::{MkfsFault, mkfs};

/// Does what the words ask, on the disk, and writes text about it to the sink. The words are those behind an image's
/// path.
///
/// `mkfs FSID BLOCKS SUBS` makes an empty volume and writes `made BLOCKS SUBS`.
/// `list` mounts the volume, which writes nothing to the disk, and writes its listing. `run` reads a script from the source,
/// to its end, mounts the volume and runs the script: it writes a line for each call that has finished, and then `done N`,
/// with N the number of calls. Other words are no command. Every other answer but `WriteFault` has a line of its own. The
/// causes are looked for in this order: `Usage`, `MkfsRange`, the source, `BadScript`, the volume, and then the calls of a
/// script with their lines; memory stands where it was wanted. A script with a fault leaves the disk without a call. `run` is
/// empty at first, and then has the events of the script that was run, in their order (own).
pub fn drive<S: Source, K: Sink, D: Disk>(
    alloc: Global,
    words: &[String],
    from: &mut S,
    to: &mut K,
    disk: &mut D,
    run: &mut Run,
) -> Status
    requires empty { run.old.events ≡ [] }

    // Which answer comes.
    ensures usage { (result ≡ Status.Usage) ↔ (IsCommand (bytes_of words.now) → ⊥) }
    ensures range { (result ≡ Status.MkfsRange) ↔ IsOutOfRange (bytes_of words.now) (D.count disk.old) }
    ensures bad_script { (line : ℕ) (kind : ScriptKind) → (result ≡ Status.BadScript line kind) → IsRun (bytes_of words.now) × (disk.new ≡ disk.old) }
    ensures read_fault { (taken : ℕ) → (result ≡ Status.ReadFault taken) → IsRun (bytes_of words.now) × (disk.new ≡ disk.old) }
    ensures no_volume { (fault : MountFault) → (result ≡ Status.NoVolume fault) → (IsList (bytes_of words.now) ⊎ IsRun (bytes_of words.now))
        × IsFaultOf (known (D.seen disk.old) (D.lost disk.old)) fault }
    ensures disk_fault { (result ≡ Status.DiskFault) → HasRisen (D.faults disk.old) (D.faults disk.new) }
    ensures write_fault { (result ≡ Status.WriteFault) → HasRisen (K.faults to.old) (K.faults to.new) }
    ensures complete { IsInRange (bytes_of words.now) (D.count disk.old) → (HasRisen (D.faults disk.old) (D.faults disk.new) → ⊥)
        → (HasRisen (K.faults to.old) (K.faults to.new) → ⊥) → (result ≡ Status.Done) ⊎ (result ≡ Status.Memory) }
    ensures list_complete { IsList (bytes_of words.now) → IfTold (known (D.seen disk.old) (D.lost disk.old)) (λ image. HasVolume image
        → (HasRisen (D.faults disk.old) (D.faults disk.new) → ⊥) → (HasRisen (K.faults to.old) (K.faults to.new) → ⊥)
        → (result ≡ Status.Done) ⊎ (result ≡ Status.Memory)) }
    ensures run_complete { IsRun (bytes_of words.now) → IfTold (known (D.seen disk.old) (D.lost disk.old)) (λ image. HasVolume image
        → (HasRisen (D.faults disk.old) (D.faults disk.new) → ⊥) → (HasRisen (K.faults to.old) (K.faults to.new) → ⊥)
        → (result ≡ Status.Done) ⊎ (result ≡ Status.Memory) ⊎ IsOfScript result) }

    // What is left of the source, what the sink was told, and what stays.
    ensures source { (IsRun (bytes_of words.now) → ⊥) → from.new ≡ from.old }
    ensures untouched { (result ≡ Status.Usage) ⊎ (result ≡ Status.MkfsRange) → disk.new ≡ disk.old }
    ensures mkfs_untouched { IsAnyMkfs (bytes_of words.now) → (result ≡ Status.Memory) → disk.new ≡ disk.old }
    ensures list_untouched { IsList (bytes_of words.now)
        → (D.seen disk.new ≡ D.seen disk.old) × (D.lost disk.new ≡ D.lost disk.old) × (D.told disk.new ≡ D.told disk.old) }
    ensures text { (IsRun (bytes_of words.now) → ⊥) → (text : List ℕ)
        × IsTextOf (bytes_of words.now) (known (D.seen disk.old) (D.lost disk.old)) result text
        × IsPut result text (K.taken to.old) (K.taken to.new) (K.faults to.old) (K.faults to.new) }

    // What a run of a script answers, what it writes, and what a crash at any moment leaves.
    ensures run { IsRun (bytes_of words.now) → HasRunAnswer
        (record { left = S.left from.old; faults = S.faults from.old }) (record { left = S.left from.new; faults = S.faults from.new })
        (outside (known (D.seen disk.old) (D.lost disk.old)) (D.told disk.old) (K.taken to.old) (D.faults disk.old) (K.faults to.old) run.old.events)
        (outside (known (D.seen disk.new) (D.lost disk.new)) (D.told disk.new) (K.taken to.new) (D.faults disk.new) (K.faults to.new) run.new.events) result }

    // Where the disk stands for a volume and is settled when a run begins, at every moment each image that a crash may leave mounts
    // to a volume that survives what happened until then.
    ensures run_crash { IsRun (bytes_of words.now) → CrashMounts (D.told disk.old) (D.told disk.new) }

    // No event comes but in a run; and no other command than `mkfs` leaves a settled disk unsettled without a sign of it.
    ensures no_event { (IsRun (bytes_of words.now) → ⊥) → run.new ≡ run.old }
    ensures keeps_settled { (IsAnyMkfs (bytes_of words.now) → ⊥) → KeepsSettled (D.told disk.old) (D.told disk.new) }

    // What is on the disk once a volume was made, that a run may begin there, and what a crash at any moment leaves.
    ensures made { IsAnyMkfs (bytes_of words.now) → IsDone result → IfTold (D.seen disk.new) (HasVolumeAsked (bytes_of words.now)) }
    ensures settled { IsAnyMkfs (bytes_of words.now) → IsDone result → IfBoth (D.told disk.old) (D.told disk.new) (λ old new. HasLostNone old → IsSettled new) }
    ensures crash { (IsRun (bytes_of words.now) → ⊥) → CrashLeaves (D.told disk.old) (D.told disk.new) (IsOldOrAsked (bytes_of words.now)) }

    ensures size { D.count disk.new ≡ D.count disk.old }
    ensures source_counted { S.faults from.old ≤ S.faults from.new }
    ensures disk_counted { D.faults disk.old ≤ D.faults disk.new }
    ensures sink_counted { K.faults to.old ≤ K.faults to.new }
{
    if is_only(words, "list") {
        return list(alloc, to, disk);
    }
    if is_only(words, "run") {
        return run_source(alloc, from, to, disk, run);
    }
    let status = execute(alloc, words, disk);
    match status {
        Status::Done => tell_made(words, to),
        _ => answer(status, to),
    }
}

/// Whether the words are this one alone.
fn is_only(words: &[String], word: &str) -> bool
    ensures { IsTrue result ↔ (bytes_of words.now ≡ word.now ∷ []) }
{
    match words {
        [command] => command.as_str() == word,
        _ => false,
    }
}

/// Makes the volume that the words of a `mkfs` ask for; other words are `Usage`.
fn execute<D: Disk>(alloc: Global, words: &[String], disk: &mut D) -> Status
    ensures usage { (result ≡ Status.Usage) ↔ (IsAnyMkfs (bytes_of words.now) → ⊥) }
    ensures range { (result ≡ Status.MkfsRange) ↔ IsOutOfRange (bytes_of words.now) (D.count disk.old) }
    ensures disk_fault { (result ≡ Status.DiskFault) → HasRisen (D.faults disk.old) (D.faults disk.new) }
    ensures no_text { result ≢ Status.WriteFault }
    ensures no_other { IsOfMkfs result }
    ensures untouched { (result ≡ Status.Usage) ⊎ (result ≡ Status.MkfsRange) ⊎ (result ≡ Status.Memory) → disk.new ≡ disk.old }
    ensures made { (result ≡ Status.Done) → IfTold (D.seen disk.new) (HasVolumeAsked (bytes_of words.now)) }
    ensures settled { (result ≡ Status.Done) → IfBoth (D.told disk.old) (D.told disk.new) (λ old new. HasLostNone old → IsSettled new) }
    ensures crash { CrashLeaves (D.told disk.old) (D.told disk.new) (IsOldOrAsked (bytes_of words.now)) }
    ensures size { D.count disk.new ≡ D.count disk.old }
    ensures counted { D.faults disk.old ≤ D.faults disk.new }
{
    match words {
        [command, fsid, blocks, subs] if command.as_str() == "mkfs" => {
            make(alloc, fsid.as_str(), blocks.as_str(), subs.as_str(), disk)
        }
        _ => Status::Usage,
    }
}

/// Makes the volume that the three words of `mkfs` ask for.
fn make<D: Disk>(alloc: Global, fsid: &str, blocks: &str, subs: &str, disk: &mut D) -> Status
    ensures command { (result ≢ Status.Usage) × (result ≢ Status.WriteFault) × IsOfMkfs result }
    ensures range { (result ≡ Status.MkfsRange) ↔ (AreInRange (D.count disk.old) fsid.now blocks.now subs.now → ⊥) }
    ensures disk_fault { (result ≡ Status.DiskFault) → HasRisen (D.faults disk.old) (D.faults disk.new) }
    ensures untouched { (result ≡ Status.MkfsRange) ⊎ (result ≡ Status.Memory) → disk.new ≡ disk.old }
    ensures made { (result ≡ Status.Done) → IfTold (D.seen disk.new) (HasVolumeOf fsid.now blocks.now subs.now) }
    ensures settled { (result ≡ Status.Done) → IfBoth (D.told disk.old) (D.told disk.new) (λ old new. HasLostNone old → IsSettled new) }
    ensures crash { CrashLeaves (D.told disk.old) (D.told disk.new) (IsOldOrMade subs.now) }
    ensures size { D.count disk.new ≡ D.count disk.old }
    ensures counted { D.faults disk.old ≤ D.faults disk.new }
{
    let Some(request) = Request::read(fsid, blocks, subs) else {
        return Status::MkfsRange;
    };
    match mkfs(
        alloc,
        disk,
        request.fsid,
        request.block_count,
        request.subvolume_count,
    ) {
        Ok(()) => Status::Done,
        Err(MkfsFault::Range) => Status::MkfsRange,
        Err(MkfsFault::Disk) => Status::DiskFault,
        Err(MkfsFault::OutOfMemory) => Status::Memory,
    }
}

/// Writes the line of the volume that was made, and gives `Done` or `WriteFault`.
fn tell_made<K: Sink>(words: &[String], to: &mut K) -> Status
    ensures answer { (result ≡ Status.Done) ⊎ (result ≡ Status.WriteFault) }
    ensures text { IsPut result (made_line (bytes_of words.now)) (K.taken to.old) (K.taken to.new) (K.faults to.old) (K.faults to.new) }
    ensures write_fault { (result ≡ Status.WriteFault) → HasRisen (K.faults to.old) (K.faults to.new) }
    ensures counted { K.faults to.old ≤ K.faults to.new }
{
    match put_made_line(words, to) {
        Ok(()) => Status::Done,
        Err(SinkFailed) => Status::WriteFault,
    }
}

/// Writes the line of the volume that was made.
fn put_made_line<K: Sink>(words: &[String], to: &mut K) -> Result<(), SinkFailed>
    ensures whole { OnOk result (Takes (K.taken to.old) (made_line (bytes_of words.now)) (K.taken to.new)) }
    ensures front { OnErr result (TakesFront (K.taken to.old) (made_line (bytes_of words.now)) (K.taken to.new)) }
    ensures cause { HasCause (K.faults to.old) (K.faults to.new) result }
{
    match words {
        [_, _, blocks, subs] => put_made(to, blocks.as_str(), subs.as_str()),
        _ => Ok(()),
    }
}
