//! Blocks and attributes put into a volume piece by piece.
ghost use Rattle.std.specs.Prelude.{◌≡◌, IsSome, OnOk, OnErr, Some, option_map};
ghost use Rattle.std.specs.FinMap.{get};
ghost use Rattle.flat_model.specs.Records.{kind_of};
ghost use Rattle.flat_sub.specs.View.{sub_view, IsWellKept};
ghost use Rattle.flat_volume.specs.Building.{at_sub, at_inode, record_in, with_block, with_attribute};

use crate::FlatVolume;
use blk_base::{Block, Ino, Name, OutOfMemory, SubId, Text};
use flat_model::Kind;
use flat_record::place_of;
use flat_sub::FlatSub;
use std::alloc::Global;

/// Puts these bytes as a block into a file of a subvolume, in place of those that it has under that number.
fn put_block_in(
    sub: &mut FlatSub,
    alloc: Global,
    ino: u64,
    number: u64,
    bytes: &Block,
) -> Result<(), OutOfMemory>
    requires kept { IsWellKept sub.old }
    requires file { option_map kind_of (get (sub_view sub.old).sub.inodes ino) ≡ Some Kind.File }
    ensures ok { OnOk result (sub_view sub.new ≡ at_inode ino (with_block number bytes.now) (sub_view sub.old)) }
    ensures err { OnErr result (sub_view sub.new ≡ sub_view sub.old) }
    ensures kept { IsWellKept sub.new }
{
    let Some(at) = place_of(&sub.inodes, ino) else {
        unreachable!()
    };
    let entry = &mut sub.inodes[at];
    entry.1.put_block(alloc, number, bytes)
}

/// Gives an attribute of an inode of a subvolume a value, in place of the one that it has.
fn put_attr_in(
    sub: &mut FlatSub,
    alloc: Global,
    ino: u64,
    name: &Name,
    value: &Text,
) -> Result<(), OutOfMemory>
    requires kept { IsWellKept sub.old }
    requires there { IsSome (get (sub_view sub.old).sub.inodes ino) }
    ensures ok { OnOk result (sub_view sub.new ≡ at_inode ino (with_attribute name.now value.now) (sub_view sub.old)) }
    ensures err { OnErr result (sub_view sub.new ≡ sub_view sub.old) }
    ensures kept { IsWellKept sub.new }
{
    let Some(at) = place_of(&sub.inodes, ino) else {
        unreachable!()
    };
    let entry = &mut sub.inodes[at];
    entry.1.set_attribute(alloc, name, value)
}

impl FlatVolume {
    /// Puts these bytes as a block of this number into a file that is there, in place of those that it has. Its size
    /// stays, whatever the number is.
    pub fn put_block(
        &mut self,
        alloc: Global,
        sub: SubId,
        ino: Ino,
        number: u64,
        bytes: &Block,
    ) -> Result<(), OutOfMemory>
        requires { option_map kind_of (record_in self.old sub.0 ino.0) ≡ Some Kind.File }
        ensures ok { OnOk result (self.new ≡ at_sub self.old sub.0 (at_inode ino.0 (with_block number bytes.now))) }
        ensures err { OnErr result (self.new ≡ self.old) }
    {
        let Some(at) = place_of(&self.subs, sub.0) else {
            unreachable!()
        };
        let entry = &mut self.subs[at];
        put_block_in(&mut entry.1, alloc, ino.0, number, bytes)
    }

    /// Gives an attribute of an inode that is there a value, in place of the one that it has.
    pub fn put_attr(
        &mut self,
        alloc: Global,
        sub: SubId,
        ino: Ino,
        name: Name,
        value: Text,
    ) -> Result<(), OutOfMemory>
        requires { IsSome (record_in self.old sub.0 ino.0) }
        ensures ok { OnOk result (self.new ≡ at_sub self.old sub.0 (at_inode ino.0 (with_attribute name value))) }
        ensures err { OnErr result (self.new ≡ self.old) }
    {
        let Some(at) = place_of(&self.subs, sub.0) else {
            unreachable!()
        };
        let entry = &mut self.subs[at];
        put_attr_in(&mut entry.1, alloc, ino.0, &name, &value)
    }
}
