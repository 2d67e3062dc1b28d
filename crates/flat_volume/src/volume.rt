ghost use Rattle.std.specs.Prelude.{◌≡◌, ◌≤◌, ◌<◌, ℕ, List, length, IfOk, OnOk, OnErr, IsSome, IfSome, map, ◌+◌, nat_eq, if◌then◌else◌, is_some};
ghost use Rattle.std.specs.FinMap.{get};

use blk_base::{Ino, OutOfMemory, SubId, Text};
use flat_model::{Kind, NameAt};
use flat_record::{Inode, place_of};
use flat_sub::FlatSub;
use std::alloc::Global;
use std::marker::Model;

/// A flat volume in a run, seen as the volume with the greatest numbers that its subvolumes have had.
#[derive(Drop)]
pub struct FlatVolume {
    pub(crate) subs: Vec<(u64, FlatSub)>,
}

impl Model for FlatVolume {
    ghost use Rattle.flat_model.specs.Volume.{RunVolume};
    ghost use Rattle.flat_model.specs.Codes.{run_volume_code};

    ghost Value = { RunVolume };

    ghost coded = { run_volume_code };

    ghost use Rattle.flat_volume.specs.View.{volume_view, AreWellKept};

    ghost view = { λ volume. volume_view volume.subs.items };

    ghost invariant = { λ volume. AreWellKept volume.subs.items };
}

/// The number of the subvolume at this place among all, from 0.
fn subvolume_id(number: u8) -> u64
    ensures { result ≡ (if nat_eq number 0 then 5 else 255 + number) }
{
    if number == 0 { 5 } else { 255 + number as u64 }
}

impl FlatVolume {
    ghost use Rattle.flat_model.specs.Volume.{mounted, bare_volume};
    ghost use Rattle.flat_volume.specs.Building.{at_sub};
    ghost use Rattle.flat_sub.specs.Building.{with_inode, with_name};
    ghost use Rattle.flat_record.specs.NewRecord.{record_of_kind};
    ghost use Rattle.flat_model.specs.Unmarked.{unmarked};
    ghost use Rattle.flat_sub.specs.View.{name_view};

    /// A volume of 1 to 16 subvolumes with nothing but their root directories, as it is when it is made and mounted.
    pub fn empty(alloc: Global, subs: u8) -> Result<FlatVolume, OutOfMemory>
        requires at_least_one { 1 ≤ subs }
        requires at_most_16 { subs ≤ 16 }
        ensures { IfOk result (λ volume. volume ≡ mounted (bare_volume subs)) }
    {
        let mut made = Vec::new(alloc);
        for number in 0..subs {
            made.push((subvolume_id(number), FlatSub::bare(alloc)?))?;
        }
        Ok(FlatVolume { subs: made })
    }

    /// Whether the subvolume is there.
    pub fn has_sub(&self, sub: SubId) -> bool
        ensures { result ≡ is_some (get self.now sub.0) }
    {
        match place_of(&self.subs, sub.0) {
            Some(_) => true,
            None => false,
        }
    }

    /// The names of a subvolume that is there, in the order of directories and indexes, without their marks.
    pub fn names(&self, sub: SubId) -> &[NameAt]
        requires { IsSome (get self.now sub.0) }
        ensures { IfSome (get self.now sub.0) (λ run. result.now ≡ map unmarked run.sub.names) }
    {
        let Some(at) = place_of(&self.subs, sub.0) else {
            unreachable!()
        };
        let entry = &self.subs[at];
        entry.1.names.as_slice()
    }

    /// Adds an inode of this kind without attributes and blocks. The size, in bytes, counts for a file alone, and the
    /// target for a symlink alone. The number counts as one that the subvolume has had; an inode that has it already is
    /// replaced.
    pub fn put_inode(
        &mut self,
        alloc: Global,
        sub: SubId,
        ino: Ino,
        kind: Kind,
        size: u64,
        target: Text,
    ) -> Result<(), OutOfMemory>
        requires { IsSome (get self.old sub.0) }
        ensures ok { OnOk result (self.new ≡ at_sub self.old sub.0 (with_inode ino.0 (record_of_kind kind size target))) }
        ensures err { OnErr result (self.new ≡ self.old) }
    {
        let Some(at) = place_of(&self.subs, sub.0) else {
            unreachable!()
        };
        let entry = &mut self.subs[at];
        entry
            .1
            .add_inode(ino.0, Inode::new(alloc, kind, size, target))
    }

    /// Adds a name with its mark, near or far, to a subvolume that is there. Its index counts as one that its directory
    /// has had; a name that is there already stays.
    pub fn put_name(
        &mut self,
        _alloc: Global,
        sub: SubId,
        at: NameAt,
        near: bool,
    ) -> Result<(), OutOfMemory>
        requires { IsSome (get self.old sub.0) }
        ensures ok { OnOk result (self.new ≡ at_sub self.old sub.0 (with_name (name_view at near))) }
        ensures err { OnErr result (self.new ≡ self.old) }
    {
        let Some(place) = place_of(&self.subs, sub.0) else {
            unreachable!()
        };
        let entry = &mut self.subs[place];
        entry.1.add_name(at, near)
    }
}
