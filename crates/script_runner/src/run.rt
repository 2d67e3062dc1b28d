//! The command `run`.
ghost use Rattle.std.specs.Prelude.{◌≡◌, ◌≤◌, [], ℕ, length};
ghost use Rattle.disk_model.specs.Disk.{IfTold, known};
ghost use Rattle.tree_mount.specs.Mounted.{IsMountedAs, IsReadyMount};
ghost use Rattle.script_runner.specs.Commands.{IsOfScript};
ghost use Rattle.script_lines.specs.Lines.{AreAllowed};
ghost use Rattle.script_runner.specs.Run.{FromSource, HasLinesAnswer, HasRunAnswer, IsRead, outside, status_of_script, status_of_source};

use crate::Status;
use crate::answer::answer;
use crate::list::status_of;
use call_steps::mounting_is_orderly;
use device_side::DeviceSide;
use disk_model::Disk;
use io_edge::{ReadFault, Sink, Source, read_all};
use run_history::{Recorder, Run};
use script_lines::{
    RunFault, a_run_has_happened, a_script_is_allowed, images_of_a_run_stand, run_lines,
};
use script_text::{Line, ScriptFault, parse};
use std::alloc::Global;
use tree_mount::{Mounted, mount};
use volume_core::Volume;

/// The answer to a source that wasn't read to its end.
fn status_of_source(fault: ReadFault) -> Status
    ensures { result ≡ status_of_source fault }
{
    match fault {
        ReadFault::Failed { taken } => Status::ReadFault { taken },
        ReadFault::OutOfMemory => Status::Memory,
    }
}

/// The answer to a script that wasn't read.
fn status_of_script(fault: ScriptFault) -> Status
    ensures { result ≡ status_of_script fault }
{
    match fault {
        ScriptFault::Bad { line, kind } => Status::BadScript { line, kind },
        ScriptFault::OutOfMemory => Status::Memory,
    }
}

/// Runs the lines of a script on the volume that was mounted, and writes their answers.
fn run_mounted<K: Sink, D: Disk>(
    alloc: Global,
    lines: Vec<Line>,
    mounted: Mounted,
    disk: &mut D,
    to: &mut K,
    run: &mut Run,
) -> Status
    requires empty { run.old.events ≡ [] }
    requires allowed { AreAllowed lines.items }
    requires few { length lines.items ≤ 65536 }
    requires ready { IsReadyMount mounted (D.count disk.old) }
    requires stands { IfTold (known (D.seen disk.old) (D.lost disk.old)) (λ image. IsMountedAs image mounted) }
    ensures answer { (faults : ℕ) → faults ≤ D.faults disk.old → HasLinesAnswer lines.items
        (outside (known (D.seen disk.old) (D.lost disk.old)) (D.told disk.old) (K.taken to.old) faults (K.faults to.old) run.old.events)
        (outside (known (D.seen disk.new) (D.lost disk.new)) (D.told disk.new) (K.taken to.new) (D.faults disk.new) (K.faults to.new) run.new.events) result }
    ensures size { D.count disk.new ≡ D.count disk.old }
    ensures disk_counted { D.faults disk.old ≤ D.faults disk.new }
    ensures sink_counted { K.faults to.old ≤ K.faults to.new }
{
    mounting_is_orderly();
    a_run_has_happened();
    images_of_a_run_stand();
    let Ok(volume) = Volume::new(alloc, mounted) else {
        return answer(Status::Memory, to);
    };
    let mut core = Recorder::new(volume, Run::new(alloc));
    let mut device = DeviceSide::new();
    let ended = run_lines(alloc, lines, &mut core, &mut device, disk, to);
    let (_, history) = core.into_parts();
    *run = history;
    match ended {
        Ok(()) => Status::Done,
        Err(fault) => match fault {
            RunFault::Sink => Status::WriteFault,
            RunFault::OutOfMemory => answer(Status::Memory, to),
        },
    }
}

/// Mounts the volume and runs the lines of a script on it.
fn run_script<K: Sink, D: Disk>(
    alloc: Global,
    lines: Vec<Line>,
    disk: &mut D,
    to: &mut K,
    run: &mut Run,
) -> Status
    requires empty { run.old.events ≡ [] }
    requires allowed { AreAllowed lines.items }
    requires few { length lines.items ≤ 65536 }
    ensures answer { HasLinesAnswer lines.items
        (outside (known (D.seen disk.old) (D.lost disk.old)) (D.told disk.old) (K.taken to.old) (D.faults disk.old) (K.faults to.old) run.old.events)
        (outside (known (D.seen disk.new) (D.lost disk.new)) (D.told disk.new) (K.taken to.new) (D.faults disk.new) (K.faults to.new) run.new.events) result }
    ensures size { D.count disk.new ≡ D.count disk.old }
    ensures disk_counted { D.faults disk.old ≤ D.faults disk.new }
    ensures sink_counted { K.faults to.old ≤ K.faults to.new }
{
    match mount(alloc, disk) {
        Ok(mounted) => run_mounted(alloc, lines, mounted, disk, to, run),
        Err(fault) => answer(status_of(fault), to),
    }
}

/// Runs the script of the bytes, or writes the line of its first fault.
fn run_bytes<K: Sink, D: Disk>(
    alloc: Global,
    bytes: &[u8],
    disk: &mut D,
    to: &mut K,
    run: &mut Run,
) -> Status
    requires empty { run.old.events ≡ [] }
    ensures answer { (given left : FromSource) → IsRead given left bytes.now → HasRunAnswer given left
        (outside (known (D.seen disk.old) (D.lost disk.old)) (D.told disk.old) (K.taken to.old) (D.faults disk.old) (K.faults to.old) run.old.events)
        (outside (known (D.seen disk.new) (D.lost disk.new)) (D.told disk.new) (K.taken to.new) (D.faults disk.new) (K.faults to.new) run.new.events) result }
    ensures untouched { IsOfScript result → (disk.new ≡ disk.old) × (run.new ≡ run.old) }
    ensures size { D.count disk.new ≡ D.count disk.old }
    ensures disk_counted { D.faults disk.old ≤ D.faults disk.new }
    ensures sink_counted { K.faults to.old ≤ K.faults to.new }
{
    a_script_is_allowed();
    match parse(alloc, bytes) {
        Ok(script) => run_script(alloc, script.into_lines(), disk, to, run),
        Err(fault) => answer(status_of_script(fault), to),
    }
}

/// Reads a script from the source, to its end, and runs it on the volume of the disk.
pub(crate) fn run_source<S: Source, K: Sink, D: Disk>(
    alloc: Global,
    from: &mut S,
    to: &mut K,
    disk: &mut D,
    run: &mut Run,
) -> Status
    requires empty { run.old.events ≡ [] }
    ensures answer { HasRunAnswer
        (record { left = S.left from.old; faults = S.faults from.old }) (record { left = S.left from.new; faults = S.faults from.new })
        (outside (known (D.seen disk.old) (D.lost disk.old)) (D.told disk.old) (K.taken to.old) (D.faults disk.old) (K.faults to.old) run.old.events)
        (outside (known (D.seen disk.new) (D.lost disk.new)) (D.told disk.new) (K.taken to.new) (D.faults disk.new) (K.faults to.new) run.new.events) result }
    ensures untouched { IsOfScript result → (disk.new ≡ disk.old) × (run.new ≡ run.old) }
    ensures size { D.count disk.new ≡ D.count disk.old }
    ensures source_counted { S.faults from.old ≤ S.faults from.new }
    ensures disk_counted { D.faults disk.old ≤ D.faults disk.new }
    ensures sink_counted { K.faults to.old ≤ K.faults to.new }
{
    match read_all(alloc, from) {
        Ok(bytes) => run_bytes(alloc, &bytes, disk, to, run),
        Err(fault) => answer(status_of_source(fault), to),
    }
}
