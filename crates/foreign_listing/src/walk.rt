//! The names of a subvolume, from directory 256 down.
ghost use Rattle.std.specs.Prelude.{◌≡◌, ◌≢◌, ◌≤◌, ◌<◌, ◌+◌, ◌*◌, ◌^◌, ◌++◌, ◌∷◌, [], All, IfErr, IfOk, OnOk, Err, length, map, vec_len};
ghost use Rattle.blk_base.specs.Causes.{HasRisen};
ghost use Rattle.disk_model.specs.Disk.{IfTold, known};
ghost use Rattle.foreign_format.specs.declared.fault.ReadFault.{ReadFault};
ghost use Rattle.foreign_format.specs.Answer.{Answers};
ghost use Rattle.foreign_format.specs.Chunks.{IsOnDisk};
ghost use Rattle.foreign_items.specs.View.{name_view};
ghost use Rattle.foreign_tree.specs.Tree.{disk_bytes, volume_value};
ghost use Rattle.foreign_listing.specs.Lines.{incoherent};
ghost use Rattle.foreign_listing.specs.Walk.{Between, enter, is_dir, pass, root_place, tree_listed, visit};
ghost use Rattle.foreign_tree.specs.Reached.{HasReached};
ghost use Rattle.foreign_listing.specs.Names.{rows_of};
ghost use Rattle.foreign_listing.specs.View.{HasNames, IsBetween, IsVisited, left_of_walk, listed_view, pending_view, place_view, tree_value};

use crate::inodes::incoherent;
use crate::lines::line_of;
use crate::names::names_of;
use crate::places::{Place, push_places};
use crate::tree::Tree;
use blk_base::OutOfMemory;
use disk_model::Disk;
use foreign_format::{EntryKind, ReadFault};
use foreign_tree::{Reached, Volume};
use std::alloc::Global;

/// The number of a subvolume's root directory.
const ROOT_DIRECTORY: u64 = 256;

/// A text, and how many lines of names it has.
#[derive(Drop)]
pub(crate) struct Listed {
    pub text: Vec<u8>,
    pub lines: u128,
}

/// What a walk holds between two names: what is listed, the directories that were reached, and the places that are to be listed,
/// the next one last.
#[derive(Drop)]
pub(crate) struct Walk {
    pub listed: Listed,
    pub reached: Reached,
    pub pending: Vec<Place>,
}

impl Walk {
    /// Adds the line of a name.
    fn add_line(&mut self, line: &[u8]) -> Result<(), ReadFault>
        requires { self.old.listed.lines + 1 < 2 ^ 128 }
        ensures text { OnOk result (self.new.listed.text.items ≡ self.old.listed.text.items ++ line.now) }
        ensures lines { OnOk result (self.new.listed.lines ≡ self.old.listed.lines + 1) }
        ensures reached { self.new.reached ≡ self.old.reached }
        ensures pending { self.new.pending ≡ self.old.pending }
        ensures memory { IfErr result (λ fault. fault ≡ ReadFault.OutOfMemory) }
    {
        self.listed.text.extend_from_slice(line)?;
        self.listed.lines += 1;
        Ok(())
    }

    /// Makes the names of a directory the next ones, in the order of their bytes, or answers the first fault of their rows.
    fn add_names(&mut self, alloc: Global, tree: &Tree, dir: &Place) -> Result<(), ReadFault>
        ensures names { HasNames dir.now.path.items (rows_of dir.now.to (map name_view tree.now.names.items)) self.old self.new result }
        ensures listed { self.new.listed ≡ self.old.listed }
        ensures reached { self.new.reached ≡ self.old.reached }
        ensures len { OnOk result (vec_len self.new.pending ≡ vec_len self.old.pending + length (rows_of dir.now.to (map name_view tree.now.names.items))) }
        ensures no_disk { IfErr result (λ fault. fault ≢ ReadFault.Disk) }
    {
        let names = names_of(alloc, tree, dir.to)?;
        push_places(alloc, &mut self.pending, &dir.path, names)?;
        Ok(())
    }
}

/// Lists a directory, and makes its names the next ones.
fn enter<D: Disk>(
    alloc: Global,
    disk: &mut D,
    volume: &Volume,
    tree: &Tree,
    dir: &Place,
    walk: &mut Walk,
) -> Result<(), ReadFault>
    requires on_disk { All (IsOnDisk (4096 * D.count disk.old)) volume.now.chunks.items }
    requires room { walk.old.listed.lines + 1 < 2 ^ 128 }
    ensures answer { IfTold (known (D.seen disk.old) (D.lost disk.old)) (λ image.
        (before : Between) → IsBetween (map name_view tree.now.names.items) walk.old before
        → IsVisited (map name_view tree.now.names.items) walk.old walk.new result
        (enter (volume_value volume.now) (disk_bytes image) (tree_value tree.now) (place_view dir.now) before)) }
    ensures lines { OnOk result (walk.new.listed.lines ≡ walk.old.listed.lines + 1) }
    ensures len { OnOk result (left_of_walk tree.now walk.new ≡ left_of_walk tree.now walk.old) }
    ensures disk_fault { (result ≡ Err ReadFault.Disk) → HasRisen (D.faults disk.old) (D.faults disk.new) }
    ensures size { D.count disk.new ≡ D.count disk.old }
    ensures seen { D.seen disk.new ≡ D.seen disk.old }
    ensures lost { D.lost disk.new ≡ D.lost disk.old }
    ensures told { D.told disk.new ≡ D.told disk.old }
    ensures counted { D.faults disk.old ≤ D.faults disk.new }
{
    if !walk.reached.add(dir.to)? {
        return Err(ReadFault::Foreign(incoherent(tree.sub, dir.to)));
    }
    let line = line_of(alloc, disk, volume, tree, dir)?;
    walk.add_line(&line)?;
    walk.add_names(alloc, tree, dir)
}

/// Lists what is no directory.
fn pass<D: Disk>(
    alloc: Global,
    disk: &mut D,
    volume: &Volume,
    tree: &Tree,
    place: &Place,
    walk: &mut Walk,
) -> Result<(), ReadFault>
    requires on_disk { All (IsOnDisk (4096 * D.count disk.old)) volume.now.chunks.items }
    requires room { walk.old.listed.lines + 1 < 2 ^ 128 }
    ensures answer { IfTold (known (D.seen disk.old) (D.lost disk.old)) (λ image.
        (before : Between) → IsBetween (map name_view tree.now.names.items) walk.old before
        → IsVisited (map name_view tree.now.names.items) walk.old walk.new result
        (pass (volume_value volume.now) (disk_bytes image) (tree_value tree.now) (place_view place.now) before)) }
    ensures lines { OnOk result (walk.new.listed.lines ≡ walk.old.listed.lines + 1) }
    ensures len { OnOk result (left_of_walk tree.now walk.new ≡ left_of_walk tree.now walk.old) }
    ensures disk_fault { (result ≡ Err ReadFault.Disk) → HasRisen (D.faults disk.old) (D.faults disk.new) }
    ensures size { D.count disk.new ≡ D.count disk.old }
    ensures seen { D.seen disk.new ≡ D.seen disk.old }
    ensures lost { D.lost disk.new ≡ D.lost disk.old }
    ensures told { D.told disk.new ≡ D.told disk.old }
    ensures counted { D.faults disk.old ≤ D.faults disk.new }
{
    let line = line_of(alloc, disk, volume, tree, place)?;
    walk.add_line(&line)
}

/// Whether an entry of this kind leads to a directory.
fn is_dir(kind: EntryKind) -> bool
    ensures { result ≡ is_dir kind }
{
    match kind {
        EntryKind::Dir => true,
        EntryKind::File
        | EntryKind::Chr
        | EntryKind::Blk
        | EntryKind::Fifo
        | EntryKind::Sock
        | EntryKind::Link
        | EntryKind::Sub => false,
    }
}

/// Lists what stands at a place, by the kind of its entry.
fn visit<D: Disk>(
    alloc: Global,
    disk: &mut D,
    volume: &Volume,
    tree: &Tree,
    place: &Place,
    walk: &mut Walk,
) -> Result<(), ReadFault>
    requires on_disk { All (IsOnDisk (4096 * D.count disk.old)) volume.now.chunks.items }
    requires room { walk.old.listed.lines + 1 < 2 ^ 128 }
    ensures answer { IfTold (known (D.seen disk.old) (D.lost disk.old)) (λ image.
        (before : Between) → IsBetween (map name_view tree.now.names.items) walk.old before
        → IsVisited (map name_view tree.now.names.items) walk.old walk.new result
        (visit (volume_value volume.now) (disk_bytes image) (tree_value tree.now) (place_view place.now) before)) }
    ensures lines { OnOk result (walk.new.listed.lines ≡ walk.old.listed.lines + 1) }
    ensures len { OnOk result (left_of_walk tree.now walk.new ≡ left_of_walk tree.now walk.old) }
    ensures disk_fault { (result ≡ Err ReadFault.Disk) → HasRisen (D.faults disk.old) (D.faults disk.new) }
    ensures size { D.count disk.new ≡ D.count disk.old }
    ensures seen { D.seen disk.new ≡ D.seen disk.old }
    ensures lost { D.lost disk.new ≡ D.lost disk.old }
    ensures told { D.told disk.new ≡ D.told disk.old }
    ensures counted { D.faults disk.old ≤ D.faults disk.new }
{
    if is_dir(place.kind) {
        enter(alloc, disk, volume, tree, place, walk)
    } else {
        pass(alloc, disk, volume, tree, place, walk)
    }
}

/// A walk that is to begin at a subvolume's root directory.
fn start(alloc: Global, listed: Listed) -> Result<Walk, OutOfMemory>
    ensures listed { IfOk result (λ walk. listed_view walk.listed ≡ listed_view listed) }
    ensures reached { IfOk result (λ walk. HasReached walk.reached []) }
    ensures pending { IfOk result (λ walk. pending_view walk.pending.items ≡ root_place ∷ []) }
    ensures len { IfOk result (λ walk. vec_len walk.pending ≡ 1) }
    ensures lines { IfOk result (λ walk. walk.listed.lines ≡ listed.lines) }
{
    let mut pending = Vec::new(alloc);
    pending.push(Place {
        path: Vec::new(alloc),
        to: ROOT_DIRECTORY,
        kind: EntryKind::Dir,
    })?;
    Ok(Walk {
        listed,
        reached: Reached::new(alloc),
        pending,
    })
}

/// Lists a subvolume behind what is listed so far, or answers the first fault in the order of the lines.
pub(crate) fn list_tree<D: Disk>(
    alloc: Global,
    disk: &mut D,
    volume: &Volume,
    tree: &Tree,
    listed: Listed,
) -> Result<Listed, ReadFault>
    requires on_disk { All (IsOnDisk (4096 * D.count disk.old)) volume.now.chunks.items }
    requires room { listed.lines + 2 ^ 64 < 2 ^ 128 }
    ensures answer { IfTold (known (D.seen disk.old) (D.lost disk.old)) (λ image.
        Answers listed_view result (tree_listed (volume_value volume.now) (disk_bytes image) (tree_value tree.now)
        (map name_view tree.now.names.items) (listed_view listed))) }
    ensures lines { IfOk result (λ after. after.lines ≤ listed.lines + 2 ^ 64) }
    ensures disk_fault { (result ≡ Err ReadFault.Disk) → HasRisen (D.faults disk.old) (D.faults disk.new) }
    ensures size { D.count disk.new ≡ D.count disk.old }
    ensures seen { D.seen disk.new ≡ D.seen disk.old }
    ensures lost { D.lost disk.new ≡ D.lost disk.old }
    ensures told { D.told disk.new ≡ D.told disk.old }
    ensures counted { D.faults disk.old ≤ D.faults disk.new }
{
    let mut walk = start(alloc, listed)?;
    while let Some(place) = walk.pending.pop() {
        visit(alloc, disk, volume, tree, &place, &mut walk)?;
    }
    Ok(walk.listed)
}
