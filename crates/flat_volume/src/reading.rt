//! What a volume tells of its subvolumes and inodes.
ghost use Rattle.std.specs.Prelude.{◌≡◌, ◌↔◌, IsTrue, IsSome, IfOk, IfSome, option_map};
ghost use Rattle.std.specs.FinMap.{get, len};
ghost use Rattle.flat_model.specs.Records.{kind_of};
ghost use Rattle.flat_model.specs.Volume.{volume_of};
ghost use Rattle.flat_model.specs.Coherent.{IsCoherentVolume};
ghost use Rattle.flat_sub.specs.View.{sub_view, IsWellKept};
ghost use Rattle.flat_volume.specs.Building.{record_in, inos_of, HaveSameRecord};

use crate::{FlatView, FlatVolume};
use blk_base::{Ino, OutOfMemory, SubId};
use flat_check::is_coherent;
use flat_model::Kind;
use flat_record::{Inode, place_of};
use flat_sub::FlatSub;
use std::alloc::Global;

impl FlatVolume {
    /// How many subvolumes it has, at most 16.
    pub fn subs(&self) -> u8
        ensures { result ≡ len self.now }
    {
        self.subs.len() as u8
    }

    /// The subvolume of this number, where it is there.
    pub(crate) fn sub(&self, sub: SubId) -> Option<&FlatSub>
        ensures view { option_map (λ found. sub_view found.now) result ≡ get self.now sub.0 }
        ensures kept { IfSome result (λ found. IsWellKept found.now) }
    {
        match place_of(&self.subs, sub.0) {
            Some(at) => {
                let entry = &self.subs[at];
                Some(&entry.1)
            }
            None => None,
        }
    }

    /// A subvolume that is there, as its names and kinds are seen.
    pub fn view(&self, sub: SubId) -> FlatView<'_>
        requires { IsSome (get self.now sub.0) }
        ensures { IfSome (get self.now sub.0) (λ run. result ≡ run.sub) }
    {
        let Some(sub) = self.sub(sub) else {
            unreachable!()
        };
        FlatView { sub }
    }

    /// The numbers of the inodes of a subvolume that is there, in rising order.
    pub fn inodes(&self, alloc: Global, sub: SubId) -> Result<Vec<Ino>, OutOfMemory>
        requires { IsSome (get self.now sub.0) }
        ensures { IfOk result (λ inos. IfSome (get self.now sub.0) (λ run. inos.items ≡ inos_of run)) }
    {
        let Some(sub) = self.sub(sub) else {
            unreachable!()
        };
        let mut inos = Vec::new(alloc);
        for entry in &sub.inodes {
            inos.push(Ino(entry.0))?;
        }
        Ok(inos)
    }

    /// The inode of this number, where its subvolume and it are there.
    fn inode(&self, sub: SubId, ino: Ino) -> Option<&Inode>
        ensures { option_map (λ inode. inode.now) result ≡ record_in self.now sub.0 ino.0 }
    {
        let sub = self.sub(sub)?;
        match place_of(&sub.inodes, ino.0) {
            Some(at) => {
                let entry = &sub.inodes[at];
                Some(&entry.1)
            }
            None => None,
        }
    }

    /// What kind of inode has this number, where its subvolume and it are there.
    pub fn kind_of(&self, sub: SubId, ino: Ino) -> Option<Kind>
        ensures { result ≡ option_map kind_of (record_in self.now sub.0 ino.0) }
    {
        match self.inode(sub, ino) {
            Some(inode) => Some(inode.kind()),
            None => None,
        }
    }

    /// Whether both volumes have this inode, with equal records: attributes, and size and blocks or target. Takes no
    /// memory.
    pub fn same_record(&self, other: &FlatVolume, sub: SubId, ino: Ino) -> bool
        ensures { IsTrue result ↔ HaveSameRecord self.now other.now sub.0 ino.0 }
    {
        match (self.inode(sub, ino), other.inode(sub, ino)) {
            (Some(one), Some(two)) => one.is_same(two),
            (Some(_), None) | (None, Some(_)) => false,
            (None, None) => false,
        }
    }

    /// Whether each subvolume is coherent. Takes no memory.
    pub fn coherent(&self) -> bool
        ensures { IsTrue result ↔ IsCoherentVolume (volume_of self.now) }
    {
        for entry in &self.subs {
            if !is_coherent(&entry.1) {
                return false;
            }
        }
        true
    }
}
