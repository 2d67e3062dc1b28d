//! What an fsync draws into the log.
ghost use Rattle.std.specs.Prelude.{◌≡◌, ℕ, ◌&&◌, false, not, filter, find, map, IfOk};
ghost use Rattle.std.specs.BTreeSet.{contains};
ghost use Rattle.std.specs.List.{list_any};
ghost use Rattle.std.specs.Ordering.{nat_cmp};
ghost use Rattle.logged_volume.specs.Agreement.{AreStep, is_there};
ghost use Rattle.drawn_set.specs.Drawn.{IsDrawn, ino_of};
ghost use Rattle.drawn_set.specs.Stranded.{does_strand, has_other};

use crate::members::{Members, find_members};
use blk_base::{Ino, OutOfMemory};
use flat_model::{NameAt, NameView};
use std::alloc::Global;
use std::collections::BTreeSet;

/// The inodes that an fsync draws into the log with its target: the members of its log step.
#[derive(Drop)]
pub struct Drawn {
    /// The members that the current volume has, ascending.
    pub present: Vec<Ino>,
    /// The members that it lacks, ascending.
    pub gone: Vec<Ino>,
    /// The members that are drawn by slots alone, ascending.
    pub conflicts: Vec<Ino>,
    /// The first gone directory that in the recovered volume has a name of an inode that is no member.
    pub stranded: Option<Ino>,
}

/// The members that the current volume has.
fn present<V: NameView>(
    alloc: Global,
    current: &V,
    members: &BTreeSet<u64>,
) -> Result<Vec<Ino>, OutOfMemory>
    ensures { IfOk result (λ inos. inos.items ≡ map ino_of (filter (is_there (V.sub current.now)) members.now.keys)) }
{
    Ok(
        members
            .iter()
            .filter(|ino| current.has(Ino(**ino)))
            .map(|ino| Ino(*ino))
            .collect(alloc)?,
    )
}

/// The members that the current volume lacks.
fn gone<V: NameView>(
    alloc: Global,
    current: &V,
    members: &BTreeSet<u64>,
) -> Result<Vec<Ino>, OutOfMemory>
    ensures { IfOk result (λ inos. inos.items ≡ map ino_of (filter (λ ino. not (is_there (V.sub current.now) ino)) members.now.keys)) }
{
    Ok(
        members
            .iter()
            .filter(|ino| !current.has(Ino(**ino)))
            .map(|ino| Ino(*ino))
            .collect(alloc)?,
    )
}

/// The members that the rules without slots don't draw.
fn conflicts(alloc: Global, members: &Members) -> Result<Vec<Ino>, OutOfMemory>
    ensures { IfOk result (λ inos. inos.items ≡ map ino_of (filter (λ ino. not (contains nat_cmp members.now.plain ino)) members.now.all.keys)) }
{
    Ok(
        members
            .all
            .iter()
            .filter(|ino| !members.plain.contains(*ino))
            .map(|ino| Ino(*ino))
            .collect(alloc)?,
    )
}

/// Whether one of the names is of an inode that is no member.
fn has_other(names: &[NameAt], members: &BTreeSet<u64>) -> bool
    ensures { result ≡ has_other members.now names.now }
{
    names.iter().any(|name| !members.contains(&name.ino.0))
}

/// Whether the inode is a directory of the recovered volume with a name of an inode that is no member.
fn does_strand<V: NameView>(
    alloc: Global,
    recovered: &V,
    members: &BTreeSet<u64>,
    dir: Ino,
) -> Result<bool, OutOfMemory>
    ensures { IfOk result (λ does. does ≡ does_strand (V.sub recovered.now) members.now.keys dir) }
{
    if !recovered.is_dir(dir) {
        return Ok(false);
    }
    let names = recovered.entries(alloc, dir)?;
    Ok(has_other(&names, members))
}

/// The first gone member that is a directory of the recovered volume with a name of an inode that is no member.
fn stranded<V: NameView>(
    alloc: Global,
    recovered: &V,
    members: &BTreeSet<u64>,
    gone: &[Ino],
) -> Result<Option<Ino>, OutOfMemory>
    ensures { IfOk result (λ dir. dir ≡ find (does_strand (V.sub recovered.now) members.now.keys) gone.now) }
{
    for dir in gone {
        if does_strand(alloc, recovered, members, *dir)? {
            return Ok(Some(*dir));
        }
    }
    Ok(None)
}

/// What an fsync of the target draws into the log (after the kernel's `btrfs_log_inode_parent`, own). It asks the views for
/// the names of the members and of the directories above them, for what stands in the members' slots, and for the names in
/// the target and in each gone directory. Fails where there is no memory, and for nothing else.
pub fn draw<A: NameView, B: NameView>(
    alloc: Global,
    current: &A,
    recovered: &B,
    target: Ino,
) -> Result<Drawn, OutOfMemory>
    requires { AreStep (A.sub current.now) (B.sub recovered.now) target.0 }
    ensures { IfOk result (λ drawn. IsDrawn (A.sub current.now) (B.sub recovered.now) target.0 drawn) }
{
    let members = find_members(alloc, current, recovered, target.0)?;
    let gone = gone(alloc, current, &members.all)?;
    Ok(Drawn {
        present: present(alloc, current, &members.all)?,
        conflicts: conflicts(alloc, &members)?,
        stranded: stranded(alloc, recovered, &members.all, &gone)?,
        gone,
    })
}
