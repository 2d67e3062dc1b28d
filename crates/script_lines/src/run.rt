//! The lines of a script, one after the other.
ghost use Rattle.std.specs.Prelude.{◌≡◌, ◌≤◌, ◌<◌, ◌+◌, ◌^◌, Err, OnOk, length};
ghost use Rattle.commit_images.specs.Scene.{Mounted};
ghost use Rattle.disk_model.specs.Disk.{HasRisen};
ghost use Rattle.script_lines.specs.Lines.{AreAllowed, HasRun, HasRunLine, IsAllowedLine};
ghost use Rattle.flat_model.specs.declared.request.Line.TheVariants.{Plain};
ghost use Rattle.volume_calls.specs.Between.{Between, IsBetween, IsDiskAt, TellsStill};

use crate::fault::RunFault;
use commit_core::Core;
use device_side::DeviceSide;
use disk_model::Disk;
use io_edge::Sink;
use script_answer::{put_answer, put_done};
use script_text::{Line, Request};
use std::alloc::Global;
use volume_calls::call;

/// The caller of a line, and what it asks for.
fn plain_of(line: Line) -> (u32, Request)
    requires { IsAllowedLine line }
    ensures { line ≡ Plain result.0 result.1 }
{
    match line {
        Line::Plain(caller, request) => (caller, request),
        Line::Start(_, _) | Line::Step(_) | Line::End(_) => unreachable!(),
    }
}

/// Makes the call of a line, and writes the line of its answer.
fn run_line<C: Core, K: Sink, D: Disk>(
    alloc: Global,
    line: Line,
    core: &mut C,
    device: &mut DeviceSide,
    disk: &mut D,
    to: &mut K,
) -> Result<(), RunFault>
    requires allowed { IsAllowedLine line }
    requires between { (mounted : Mounted) × (at : Between)
        × IsBetween (C.has core.old) (C.size core.old) (C.marks core.old) device.old (D.count disk.old) mounted at
        × IsDiskAt (D.told disk.old) (D.faults disk.old) at }
    requires more { C.seals core.old + 2 < 2 ^ 64 }
    ensures ran { (mounted : Mounted) (at : Between) → IsBetween (C.has core.old) (C.size core.old) (C.marks core.old) device.old (D.count disk.old) mounted at
        → IsDiskAt (D.told disk.old) (D.faults disk.old) at → (next : Between) × HasRunLine mounted line at next (K.taken to.old) (K.taken to.new) result
        × C.has core.new mounted next.scene × IsDiskAt (D.told disk.new) (D.faults disk.new) next
        × OnOk result (IsBetween (C.has core.new) (C.size core.new) (C.marks core.new) device.new (D.count disk.new) mounted next) }
    ensures sink_fault { result ≡ Err RunFault.Sink → HasRisen (K.faults to.old) (K.faults to.new) }
    ensures seals { C.seals core.new ≤ C.seals core.old + 1 }
    ensures counted { K.faults to.old ≤ K.faults to.new }
    ensures disk_counted { D.faults disk.old ≤ D.faults disk.new }
    ensures tells { TellsStill (D.told disk.old) (D.told disk.new) }
    ensures size { D.count disk.new ≡ D.count disk.old }
{
    let (caller, request) = plain_of(line);
    let answer = call(alloc, core, device, disk, caller, request)?;
    put_answer(to, caller, &answer)?;
    Ok(())
}

/// Runs the lines of a script in their order, each as a call that begins and ends, and writes a line for each call that has
/// finished; then `done N`, with N the number of calls (own).
///
/// # Errors
///
/// `Sink` where the sink failed, in the line of a call that has finished or in the last one, and `OutOfMemory` where there was
/// no memory for a call.
pub fn run_lines<C: Core, K: Sink, D: Disk>(
    alloc: Global,
    lines: Vec<Line>,
    core: &mut C,
    device: &mut DeviceSide,
    disk: &mut D,
    to: &mut K,
) -> Result<(), RunFault>
    requires allowed { AreAllowed lines.items }
    requires between { (mounted : Mounted) × (at : Between)
        × IsBetween (C.has core.old) (C.size core.old) (C.marks core.old) device.old (D.count disk.old) mounted at
        × IsDiskAt (D.told disk.old) (D.faults disk.old) at }
    requires more { C.seals core.old + length lines.items + 2 < 2 ^ 64 }
    ensures ran { (mounted : Mounted) (at : Between) → IsBetween (C.has core.old) (C.size core.old) (C.marks core.old) device.old (D.count disk.old) mounted at
        → IsDiskAt (D.told disk.old) (D.faults disk.old) at → (next : Between) × HasRun mounted lines.items at next (K.taken to.old) (K.taken to.new) result
        × C.has core.new mounted next.scene × IsDiskAt (D.told disk.new) (D.faults disk.new) next }
    ensures sink_fault { result ≡ Err RunFault.Sink → HasRisen (K.faults to.old) (K.faults to.new) }
    ensures counted { K.faults to.old ≤ K.faults to.new }
    ensures disk_counted { D.faults disk.old ≤ D.faults disk.new }
    ensures tells { TellsStill (D.told disk.old) (D.told disk.new) }
    ensures size { D.count disk.new ≡ D.count disk.old }
{
    let count = lines.len() as u64;
    for line in lines {
        run_line(alloc, line, core, device, disk, to)?;
    }
    put_done(to, count)?;
    Ok(())
}
