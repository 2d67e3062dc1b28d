//! The inodes of a subvolume by the names that lead to them.
ghost use Rattle.std.specs.Prelude.{◌≡◌, ◌∷◌, ◌++◌, [], OnOk, IfOk};
ghost use Rattle.flat_sub.specs.View.{sub_view, IsWellKept};
ghost use Rattle.volume_listing.specs.Listing.{below, listed};

use crate::order::in_byte_order;
use blk_base::{Name, OutOfMemory};
use flat_sub::FlatSub;
use std::alloc::Global;
use std::marker::Model;

/// An inode, and the names that lead to it from the root directory.
#[derive(Drop)]
pub(crate) struct Found {
    pub(crate) path: Vec<Name>,
    pub(crate) ino: u64,
}

impl Model for Found {
    ghost use Rattle.volume_listing.specs.Listing.{Listed};
    ghost use Rattle.volume_listing.specs.Found.{listed_code};

    ghost Value = { Listed };

    ghost coded = { listed_code };

    ghost view = { λ found. record { path = found.path.items; ino = found.ino } };
}

/// A path with a further name.
fn extended(alloc: Global, path: &Vec<Name>, name: &Name) -> Result<Vec<Name>, OutOfMemory>
    ensures { IfOk result (λ to. to.items ≡ path.now.items ++ name.now ∷ []) }
{
    let mut to = Vec::new(alloc);
    for step in path {
        to.push(step.copy(alloc)?)?;
    }
    to.push(name.copy(alloc)?)?;
    Ok(to)
}

/// Adds what is below a directory, so many names deep, with the names that lead to it behind this path.
fn add_below(
    alloc: Global,
    sub: &FlatSub,
    depth: usize,
    dir: u64,
    path: &Vec<Name>,
    found: &mut Vec<Found>,
) -> Result<(), OutOfMemory>
    requires { IsWellKept sub.now }
    ensures { OnOk result (found.new.items ≡ found.old.items ++ below depth (sub_view sub.now).sub dir path.now.items) }
{
    if depth == 0 {
        return Ok(());
    }
    let entries = in_byte_order(alloc, &sub.names, dir)?;
    for entry in &entries {
        let ino = entry.1;
        let to = extended(alloc, path, &entry.0)?;
        found.push(Found {
            path: extended(alloc, path, &entry.0)?,
            ino,
        })?;
        if sub.is_dir(ino) {
            add_below(alloc, sub, depth - 1, ino, &to, found)?;
        }
    }
    Ok(())
}

/// All of a subvolume: its root directory, and what is below that.
pub(crate) fn all_of(alloc: Global, sub: &FlatSub) -> Result<Vec<Found>, OutOfMemory>
    requires { IsWellKept sub.now }
    ensures { IfOk result (λ found. found.items ≡ listed (sub_view sub.now).sub) }
{
    let root = Vec::new(alloc);
    let mut found = Vec::new(alloc);
    found.push(Found {
        path: Vec::new(alloc),
        ino: 256,
    })?;
    add_below(alloc, sub, sub.names.len(), 256, &root, &mut found)?;
    Ok(found)
}
