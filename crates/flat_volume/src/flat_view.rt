//! A subvolume of a flat volume as its names and kinds are seen.
ghost use Rattle.std.specs.Prelude.{◌≡◌, ◌&&◌, ℕ, List, IfOk, IsPermutation, option_map, filter, find, map, nat_eq, bytes_eq};
ghost use Rattle.blk_base.specs.Crc.{name_hash_of};

use blk_base::{Ino, OutOfMemory, name_hash};
use flat_model::{NameAt, NameView};
use flat_sub::FlatSub;
use std::alloc::Global;
use std::marker::Model;

/// A subvolume of a flat volume, lent, and seen as the subvolume. It copies nothing.
#[derive(Drop)]
pub struct FlatView<'a> {
    pub(crate) sub: &'a FlatSub,
}

impl<'a> Model for FlatView<'a> {
    ghost use Rattle.flat_model.specs.Volume.{Subvolume};
    ghost use Rattle.flat_model.specs.Codes.{subvolume_code};
    ghost use Rattle.flat_sub.specs.View.{sub_view, IsWellKept};

    ghost Value = { Subvolume };

    ghost coded = { subvolume_code };

    ghost view = { λ view. (sub_view view.sub.now).sub };

    ghost invariant = { λ view. IsWellKept view.sub.now };
}

/// Those of these names that lead to an inode, in their order.
fn leading(alloc: Global, names: &Vec<NameAt>, ino: Ino) -> Result<Vec<NameAt>, OutOfMemory>
    ensures { IfOk result (λ found. found.items ≡ filter (λ at. nat_eq at.ino.0 ino.0) names.now.items) }
{
    let mut found = Vec::new(alloc);
    for at in names {
        if at.ino == ino {
            found.push(at.copy(alloc)?)?;
        }
    }
    Ok(found)
}

/// Those of these names that a directory has, in their order.
fn standing(alloc: Global, names: &Vec<NameAt>, dir: Ino) -> Result<Vec<NameAt>, OutOfMemory>
    ensures { IfOk result (λ found. found.items ≡ filter (λ at. nat_eq at.dir.0 dir.0) names.now.items) }
{
    let mut found = Vec::new(alloc);
    for at in names {
        if at.dir == dir {
            found.push(at.copy(alloc)?)?;
        }
    }
    Ok(found)
}

/// Whether a directory has a name, and its bytes have this hash.
fn is_hashed_in(at: &NameAt, dir: Ino, hash: u32) -> bool
    ensures { result ≡ (nat_eq at.now.dir.0 dir.0 && nat_eq (name_hash_of at.now.name) hash) }
{
    at.dir == dir && name_hash(at.name.as_bytes()) == hash
}

/// Those of these names that a directory has and whose bytes have this hash, in their order.
fn hashed_in(
    alloc: Global,
    names: &Vec<NameAt>,
    dir: Ino,
    hash: u32,
) -> Result<Vec<NameAt>, OutOfMemory>
    ensures { IfOk result (λ found. found.items ≡ filter (λ at. nat_eq at.dir.0 dir.0 && nat_eq (name_hash_of at.name) hash) names.now.items) }
{
    let mut found = Vec::new(alloc);
    for at in names {
        if is_hashed_in(at, dir, hash) {
            found.push(at.copy(alloc)?)?;
        }
    }
    Ok(found)
}

/// The inode to which the first of these names in a slot leads, a slot being a directory and bytes.
fn in_slot(names: &Vec<NameAt>, dir: Ino, bytes: &[u8]) -> Option<Ino>
    ensures { result ≡ option_map (λ at. at.ino) (find (λ at. nat_eq at.dir.0 dir.0 && bytes_eq at.name bytes.now) names.now.items) }
{
    match names
        .iter()
        .find(|at| at.dir == dir && at.name.as_bytes() == bytes)
    {
        Some(at) => Some(at.ino),
        None => None,
    }
}

impl<'a> NameView for FlatView<'a> {
    ghost sub = { λ view. view };

    fn names_of(&self, alloc: Global, ino: Ino) -> Result<Vec<NameAt>, OutOfMemory> {
        leading(alloc, &self.sub.names, ino)
    }

    fn entries(&self, alloc: Global, dir: Ino) -> Result<Vec<NameAt>, OutOfMemory> {
        standing(alloc, &self.sub.names, dir)
    }

    fn hashed(&self, alloc: Global, dir: Ino, hash: u32) -> Result<Vec<NameAt>, OutOfMemory> {
        hashed_in(alloc, &self.sub.names, dir, hash)
    }

    fn slot(&self, dir: Ino, name: &[u8]) -> Option<Ino> {
        in_slot(&self.sub.names, dir, name)
    }

    fn has(&self, ino: Ino) -> bool {
        match self.sub.kind(ino.0) {
            Some(_) => true,
            None => false,
        }
    }

    fn is_dir(&self, ino: Ino) -> bool {
        self.sub.is_dir(ino.0)
    }
}
