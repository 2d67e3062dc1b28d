ghost use Rattle.std.specs.Prelude.{◌≡◌, ◌≤◌, ◌⊎◌, ◌↔◌, ℕ, List, IsTrue, Ok, Err};
ghost use Rattle.blk_base.specs.Causes.{HasRisen};
ghost use Rattle.disk_model.specs.Disk.{IfTold, known};
ghost use Rattle.foreign_format.specs.declared.fault.ForeignFault.{ForeignFault};
ghost use Rattle.foreign_listing.specs.Listing.{listing_of};
ghost use Rattle.foreign_read.specs.Commands.{IsDone, IsFirstFault, IsForeign, IsPut, IsTextOf, bytes_of};
ghost use Rattle.foreign_read.specs.Faults.{fault_line};

use crate::ForeignStatus;
use crate::fault_text::put_fault;
use disk_model::Disk;
use foreign_format::{ForeignFault, ReadFault};
use foreign_listing::list_foreign;
use io_edge::{Sink, SinkFailed, put};
use std::alloc::Global;

/// Whether the words are `foreign` alone.
fn is_foreign(words: &[String]) -> bool
    ensures { IsTrue result ↔ IsForeign (bytes_of words.now) }
{
    match words {
        [word] => word.as_str() == "foreign",
        _ => false,
    }
}

/// Writes a listing, and gives `Done` or `WriteFault`.
fn print<K: Sink>(text: &[u8], to: &mut K) -> ForeignStatus
    ensures answer { (result ≡ ForeignStatus.Done) ⊎ (result ≡ ForeignStatus.WriteFault) }
    ensures put { IsPut result text.now (K.taken to.old) (K.taken to.new) (K.faults to.old) (K.faults to.new) }
    ensures write_fault { (result ≡ ForeignStatus.WriteFault) → HasRisen (K.faults to.old) (K.faults to.new) }
    ensures counted { K.faults to.old ≤ K.faults to.new }
{
    match put(to, text) {
        Ok(()) => ForeignStatus::Done,
        Err(SinkFailed) => ForeignStatus::WriteFault,
    }
}

/// Writes the line of a volume's first fault, and gives that fault: a sink that fails changes nothing of it.
fn refuse<K: Sink>(fault: ForeignFault, to: &mut K) -> ForeignStatus
    ensures answer { result ≡ ForeignStatus.NoVolume fault }
    ensures put { IsPut result (fault_line fault) (K.taken to.old) (K.taken to.new) (K.faults to.old) (K.faults to.new) }
    ensures counted { K.faults to.old ≤ K.faults to.new }
{
    match put_fault(to, fault) {
        Ok(()) | Err(SinkFailed) => ForeignStatus::NoVolume(fault),
    }
}

/// Writes the listing of a volume that the kernel or its tools made, where the words are `foreign` alone. The words are those
/// behind an image's path.
///
/// `Done`: the sink was given exactly the listing (`list_foreign`), and then nothing else. `NoVolume`: the line `foreign ..` of
/// the volume's first fault: its word, its numbers in decimal, and the word of the check that a block or an item fails. Nothing
/// is written before the last check, and with `Usage`, `DiskFault` and `Memory` the sink is given nothing (own). The disk is
/// only read.
pub fn drive_foreign<K: Sink, D: Disk>(
    alloc: Global,
    words: &[String],
    to: &mut K,
    disk: &mut D,
) -> ForeignStatus
    // Which answer comes.
    ensures usage { (result ≡ ForeignStatus.Usage) ↔ (IsForeign (bytes_of words.now) → ⊥) }
    ensures no_volume { (fault : ForeignFault) → (result ≡ ForeignStatus.NoVolume fault)
        → IsFirstFault (D.count disk.old) (known (D.seen disk.old) (D.lost disk.old)) fault }
    ensures disk_fault { (result ≡ ForeignStatus.DiskFault) → HasRisen (D.faults disk.old) (D.faults disk.new) }
    ensures write_fault { (result ≡ ForeignStatus.WriteFault) → HasRisen (K.faults to.old) (K.faults to.new) }
    ensures done { IsForeign (bytes_of words.now) → IfTold (known (D.seen disk.old) (D.lost disk.old)) (λ image.
        (text : List ℕ) → (listing_of (D.count disk.old) image ≡ Ok text)
        → (HasRisen (D.faults disk.old) (D.faults disk.new) → ⊥) → (HasRisen (K.faults to.old) (K.faults to.new) → ⊥)
        → (result ≡ ForeignStatus.Done) ⊎ (result ≡ ForeignStatus.Memory)) }
    ensures refused { IsForeign (bytes_of words.now) → IfTold (known (D.seen disk.old) (D.lost disk.old)) (λ image.
        (fault : ForeignFault) → (listing_of (D.count disk.old) image ≡ Err fault)
        → (HasRisen (D.faults disk.old) (D.faults disk.new) → ⊥) → (result ≡ ForeignStatus.NoVolume fault) ⊎ (result ≡ ForeignStatus.Memory)) }

    // What the sink was given.
    ensures text { (text : List ℕ)
        × IsTextOf (D.count disk.old) (known (D.seen disk.old) (D.lost disk.old)) result text
        × IsPut result text (K.taken to.old) (K.taken to.new) (K.faults to.old) (K.faults to.new) }
    ensures silent { (result ≡ ForeignStatus.Usage) ⊎ (result ≡ ForeignStatus.DiskFault) ⊎ (result ≡ ForeignStatus.Memory) → to.new ≡ to.old }

    // What stays.
    ensures untouched { (result ≡ ForeignStatus.Usage) → disk.new ≡ disk.old }
    ensures seen { D.seen disk.new ≡ D.seen disk.old }
    ensures lost { D.lost disk.new ≡ D.lost disk.old }
    ensures told { D.told disk.new ≡ D.told disk.old }
    ensures size { D.count disk.new ≡ D.count disk.old }
    ensures disk_counted { D.faults disk.old ≤ D.faults disk.new }
    ensures sink_counted { K.faults to.old ≤ K.faults to.new }
{
    if !is_foreign(words) {
        return ForeignStatus::Usage;
    }
    match list_foreign(alloc, disk) {
        Ok(text) => print(&text, to),
        Err(ReadFault::Foreign(fault)) => refuse(fault, to),
        Err(ReadFault::Disk) => ForeignStatus::DiskFault,
        Err(ReadFault::OutOfMemory) => ForeignStatus::Memory,
    }
}
