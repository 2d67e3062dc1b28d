//! The names of one inode or of one directory, and whether an inode's names differ between two views.
ghost use Rattle.std.specs.Prelude.{◌≡◌, IfOk, IsTrue, OnOk, map};
ghost use Rattle.std.specs.List.{list_all};
ghost use Rattle.flat_model.specs.Coherent.{IsCoherent};
ghost use Rattle.flat_model.specs.Volume.{is_dir_at};
ghost use Rattle.logged_volume.specs.Agreement.{do_names_differ};
ghost use Rattle.logged_volume.specs.Drawn.{is_out_of_step};
ghost use Rattle.drawn_set.specs.Names.{AddsAll, AreInodesIn, AreInodesInEither, AreParents, IsParentOf, are_alike, is_among, is_same_at};

use blk_base::{Ino, OutOfMemory};
use flat_model::{NameAt, NameView};
use std::alloc::Global;
use std::collections::BTreeSet;

/// The numbers of the directories of names.
fn directories(alloc: Global, names: &[NameAt]) -> Result<Vec<u64>, OutOfMemory>
    ensures { IfOk result (λ dirs. dirs.items ≡ map (λ name. name.dir.0) names.now) }
{
    Ok(names.iter().map(|name| name.dir.0).collect(alloc)?)
}

/// The numbers of the inodes of names.
pub(crate) fn inodes(alloc: Global, names: &[NameAt]) -> Result<Vec<u64>, OutOfMemory>
    ensures { IfOk result (λ inos. inos.items ≡ map (λ name. name.ino.0) names.now) }
{
    Ok(names.iter().map(|name| name.ino.0).collect(alloc)?)
}

/// The directories that have a name of the inode, in any order.
pub(crate) fn parents<V: NameView>(
    alloc: Global,
    view: &V,
    ino: u64,
) -> Result<Vec<u64>, OutOfMemory>
    ensures { IfOk result (λ dirs. AreParents (V.sub view.now).names ino dirs.items) }
{
    let names = view.names_of(alloc, Ino(ino))?;
    directories(alloc, &names)
}

/// The directory that has the one name of a directory; none for the root directory.
pub(crate) fn parent<V: NameView>(
    alloc: Global,
    view: &V,
    dir: u64,
) -> Result<Option<u64>, OutOfMemory>
    requires coherent { IsCoherent (V.sub view.now) }
    requires dir { IsTrue (is_dir_at (V.sub view.now) dir) }
    ensures { IfOk result (λ parent. IsParentOf (V.sub view.now).names dir parent) }
{
    let mut dirs = parents(alloc, view, dir)?;
    Ok(dirs.pop())
}

/// The inodes that have a name in the directory, in any order.
fn inodes_in<V: NameView>(alloc: Global, view: &V, dir: u64) -> Result<Vec<u64>, OutOfMemory>
    ensures { IfOk result (λ inos. AreInodesIn (V.sub view.now).names dir inos.items) }
{
    let names = view.entries(alloc, Ino(dir))?;
    inodes(alloc, &names)
}

/// Adds these numbers to a set.
fn add_all(numbers: &[u64], set: &mut BTreeSet<u64>) -> Result<(), OutOfMemory>
    ensures { OnOk result (AddsAll numbers.now set.old.keys set.new.keys) }
{
    for number in numbers {
        set.insert(*number)?;
    }
    Ok(())
}

/// The numbers of a set, ascending.
fn list_of(alloc: Global, set: &BTreeSet<u64>) -> Result<Vec<u64>, OutOfMemory>
    ensures { IfOk result (λ numbers. numbers.items ≡ set.now.keys) }
{
    Ok(set.iter().copied().collect(alloc)?)
}

/// The inodes that have a name in the directory in one of the views, each once, ascending.
pub(crate) fn inodes_in_either<A: NameView, B: NameView>(
    alloc: Global,
    current: &A,
    recovered: &B,
    dir: u64,
) -> Result<Vec<u64>, OutOfMemory>
    ensures { IfOk result (λ inos. AreInodesInEither (A.sub current.now).names (B.sub recovered.now).names dir inos.items) }
{
    let here = inodes_in(alloc, current, dir)?;
    let there = inodes_in(alloc, recovered, dir)?;
    let mut inos = BTreeSet::new(alloc);
    add_all(&here, &mut inos)?;
    add_all(&there, &mut inos)?;
    list_of(alloc, &inos)
}

/// Whether two names are one: the same bytes at the same index of the same directory, and of the same inode.
fn is_same(one: &NameAt, two: &NameAt) -> bool
    ensures { result ≡ is_same_at one.now two.now }
{
    one.dir == two.dir && one.index == two.index && one.name == two.name && one.ino == two.ino
}

/// Whether a name is among others.
fn is_among(name: &NameAt, others: &[NameAt]) -> bool
    ensures { result ≡ is_among others.now name.now }
{
    others.iter().any(|other| is_same(name, other))
}

/// Whether all of these names are among the others.
fn are_among(names: &[NameAt], others: &[NameAt]) -> bool
    ensures { result ≡ list_all (is_among others.now) names.now }
{
    names.iter().all(|name| is_among(name, others))
}

/// Whether these names are the others, in any order.
fn are_alike(names: &[NameAt], others: &[NameAt]) -> bool
    ensures { result ≡ are_alike names.now others.now }
{
    are_among(names, others) && are_among(others, names)
}

/// Whether the inode's names differ between the two views, apart from their order and their marks.
pub(crate) fn do_differ<A: NameView, B: NameView>(
    alloc: Global,
    current: &A,
    recovered: &B,
    ino: u64,
) -> Result<bool, OutOfMemory>
    ensures { IfOk result (λ differ. differ ≡ do_names_differ (A.sub current.now) (B.sub recovered.now) ino) }
{
    let here = current.names_of(alloc, Ino(ino))?;
    let there = recovered.names_of(alloc, Ino(ino))?;
    Ok(!are_alike(&here, &there))
}

/// Whether the inode stands otherwise in the recovered view than in the current one: its names differ, or it lacks it.
pub(crate) fn is_out_of_step<A: NameView, B: NameView>(
    alloc: Global,
    current: &A,
    recovered: &B,
    ino: u64,
) -> Result<bool, OutOfMemory>
    ensures { IfOk result (λ is. is ≡ is_out_of_step (A.sub current.now) (B.sub recovered.now) ino) }
{
    if !recovered.has(Ino(ino)) {
        return Ok(true);
    }
    do_differ(alloc, current, recovered, ino)
}
