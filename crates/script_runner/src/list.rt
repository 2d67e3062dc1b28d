//! The command `list`.
ghost use Rattle.std.specs.Prelude.{◌≡◌, ◌≢◌, ◌≤◌, ◌⊎◌, List, ℕ};
ghost use Rattle.disk_model.specs.Disk.{IfTold, known};
ghost use Rattle.blk_base.specs.Causes.{HasRisen};
ghost use Rattle.flat_model.specs.Volume.{RunVolume, volume_of};
ghost use Rattle.table_volume.specs.Running.{GiveVolume};
ghost use Rattle.tree_mount.specs.declared.fault.MountFault.{MountFault};
ghost use Rattle.script_runner.specs.Commands.{HasVolume, IsFaultOf, IsOfList, IsListAnswer, IsListText, IsPut, status_of};

use crate::Status;
use crate::answer::answer;
use disk_model::Disk;
use io_edge::Sink;
use std::alloc::Global;
use tree_listing::{ListFault, write_tree_listing};
use tree_mount::{MountFault, Mounted, mount};

/// The answer to a fault of a mount.
pub(crate) fn status_of(fault: MountFault) -> Status
    ensures { result ≡ status_of fault }
{
    match fault {
        MountFault::Disk => Status::DiskFault,
        MountFault::OutOfMemory => Status::Memory,
        _ => Status::NoVolume(fault),
    }
}

/// Writes the listing of the volume that was mounted, or the line of out of memory.
fn print<K: Sink>(alloc: Global, mounted: &Mounted, to: &mut K) -> Status
    requires given { (run : RunVolume) × GiveVolume mounted.now.table mounted.now.states.items run }
    ensures answer { (result ≡ Status.Done) ⊎ (result ≡ Status.WriteFault) ⊎ (result ≡ Status.Memory) }
    ensures text { (run : RunVolume) → GiveVolume mounted.now.table mounted.now.states.items run
        → (text : List ℕ) × IsListAnswer (volume_of run) result text
        × IsPut result text (K.taken to.old) (K.taken to.new) (K.faults to.old) (K.faults to.new) }
    ensures write_fault { (result ≡ Status.WriteFault) → HasRisen (K.faults to.old) (K.faults to.new) }
    ensures counted { K.faults to.old ≤ K.faults to.new }
{
    match write_tree_listing(alloc, &mounted.table, &mounted.states, to) {
        Ok(()) => Status::Done,
        Err(ListFault::Sink) => Status::WriteFault,
        Err(ListFault::OutOfMemory) => answer(Status::Memory, to),
    }
}

/// Writes the listing of the volume on the disk, or the line of why it can't be mounted.
pub(crate) fn list<K: Sink, D: Disk>(alloc: Global, to: &mut K, disk: &mut D) -> Status
    ensures command { IsOfList result }
    ensures no_volume { (fault : MountFault) → (result ≡ Status.NoVolume fault) → IsFaultOf (known (D.seen disk.old) (D.lost disk.old)) fault }
    ensures disk_fault { (result ≡ Status.DiskFault) → HasRisen (D.faults disk.old) (D.faults disk.new) }
    ensures write_fault { (result ≡ Status.WriteFault) → HasRisen (K.faults to.old) (K.faults to.new) }
    ensures complete { IfTold (known (D.seen disk.old) (D.lost disk.old)) (λ image. HasVolume image
        → (HasRisen (D.faults disk.old) (D.faults disk.new) → ⊥) → (HasRisen (K.faults to.old) (K.faults to.new) → ⊥)
        → (result ≡ Status.Done) ⊎ (result ≡ Status.Memory)) }

    ensures text { (text : List ℕ) × IsListText (known (D.seen disk.old) (D.lost disk.old)) result text
        × IsPut result text (K.taken to.old) (K.taken to.new) (K.faults to.old) (K.faults to.new) }
    ensures seen { D.seen disk.new ≡ D.seen disk.old }
    ensures lost { D.lost disk.new ≡ D.lost disk.old }
    ensures told { D.told disk.new ≡ D.told disk.old }

    ensures size { D.count disk.new ≡ D.count disk.old }
    ensures disk_counted { D.faults disk.old ≤ D.faults disk.new }
    ensures sink_counted { K.faults to.old ≤ K.faults to.new }
{
    match mount(alloc, disk) {
        Ok(mounted) => print(alloc, &mounted, to),
        Err(fault) => answer(status_of(fault), to),
    }
}
