//! A volume once more.
ghost use Rattle.std.specs.Prelude.{◌≡◌, IfOk};
ghost use Rattle.flat_sub.specs.View.{sub_view, IsWellKept};

use crate::FlatVolume;
use blk_base::OutOfMemory;
use flat_model::NameAt;
use flat_record::Inode;
use flat_sub::FlatSub;
use std::alloc::Global;

/// The same inodes once more. Fails only for want of memory.
fn copy_inodes(alloc: Global, inodes: &Vec<(u64, Inode)>) -> Result<Vec<(u64, Inode)>, OutOfMemory>
    ensures { IfOk result (λ copy. copy.items ≡ inodes.now.items) }
{
    let mut copy = Vec::new(alloc);
    for entry in inodes {
        copy.push((entry.0, entry.1.copy(alloc)?))?;
    }
    Ok(copy)
}

/// The same names once more. Fails only for want of memory.
fn copy_names(alloc: Global, names: &Vec<NameAt>) -> Result<Vec<NameAt>, OutOfMemory>
    ensures { IfOk result (λ copy. copy.items ≡ names.now.items) }
{
    let mut copy = Vec::new(alloc);
    for name in names {
        copy.push(name.copy(alloc)?)?;
    }
    Ok(copy)
}

/// The same subvolume once more. Fails only for want of memory.
fn copy_sub(alloc: Global, sub: &FlatSub) -> Result<FlatSub, OutOfMemory>
    requires { IsWellKept sub.now }
    ensures view { IfOk result (λ copy. sub_view copy ≡ sub_view sub.now) }
    ensures kept { IfOk result (λ copy. IsWellKept copy) }
{
    Ok(FlatSub {
        inodes: copy_inodes(alloc, &sub.inodes)?,
        names: copy_names(alloc, &sub.names)?,
        near: Vec::from_slice(alloc, &sub.near)?,
        last_ino: sub.last_ino,
        last_index: sub.last_index,
        dir_indexes: Vec::from_slice(alloc, &sub.dir_indexes)?,
    })
}

impl FlatVolume {
    /// The same volume once more. Fails only for want of memory.
    pub fn copy(&self, alloc: Global) -> Result<FlatVolume, OutOfMemory>
        ensures { IfOk result (λ copy. copy ≡ self.now) }
    {
        let mut subs = Vec::new(alloc);
        for entry in &self.subs {
            subs.push((entry.0, copy_sub(alloc, &entry.1)?))?;
        }
        Ok(FlatVolume { subs })
    }
}
