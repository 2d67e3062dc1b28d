//! Names with their marks, apart from a subvolume, on which an edit is tried.
ghost use Rattle.std.specs.Prelude.{◌≡◌, ◌<◌, ◌+◌, ◌^◌, ℕ, suc, List, ◌∷◌, drop, vec_len, length, IfOk, OnOk, sum_by, nat_le, false};
ghost use Rattle.flat_model.specs.Names.{FlatName, remove_name, add_name};
ghost use Rattle.flat_sub.specs.View.{name_view, sub_view, IsWellKept};
ghost use Rattle.flat_sub.specs.Lists.{list_view, IsList, share_of};
ghost use Rattle.flat_model.specs.Operations.{has_room_near, is_crowded};

use crate::sub::{FlatSub, add_among};
use blk_base::{OutOfMemory, extref_hash, format, limits, name_hash};
use flat_model::NameAt;
use std::alloc::Global;

/// The most bytes of one item in a leaf ("Header" of the on-disk format).
const MOST_ITEM_BYTES: u64 = format::MOST_ITEM_BYTES as u64;

/// The most bytes of an INODE_REF item to which a name is added (own).
const MOST_REF_BYTES: u64 = limits::MOST_REF_BYTES as u64;

/// Names in order, with their marks beside them.
#[derive(Drop)]
pub(crate) struct NameList {
    pub(crate) names: Vec<NameAt>,
    pub(crate) near: Vec<bool>,
}

/// An item that has entries of names.
#[derive(Clone, Copy)]
pub enum Item {
    /// The INODE_REF of an inode and a directory.
    Ref { ino: u64, dir: u64 },
    /// The INODE_EXTREF of an inode and a hash.
    Extref { ino: u64, hash: u32 },
    /// The DIR_ITEM of a directory and a hash.
    Entry { dir: u64, hash: u32 },
}

impl Item {
    /// The bytes that a name has in the item.
    pub fn share(self, name: &NameAt, near: bool) -> u64
        ensures { result ≡ share_of self (name_view name.now near) }
    {
        let bytes = name.name.as_bytes();
        let count = bytes.len() as u64;
        match self {
            Item::Ref { ino, dir } => {
                if near && name.ino.0 == ino && name.dir.0 == dir {
                    10 + count
                } else {
                    0
                }
            }
            Item::Extref { ino, hash } => {
                if !near && name.ino.0 == ino && extref_hash(name.dir, bytes) == hash {
                    18 + count
                } else {
                    0
                }
            }
            Item::Entry { dir, hash } => {
                if name.dir.0 == dir && name_hash(bytes) == hash {
                    30 + count
                } else {
                    0
                }
            }
        }
    }
}

impl NameList {
    /// A copy of the names of a subvolume.
    pub(crate) fn copy_of(alloc: Global, sub: &FlatSub) -> Result<NameList, OutOfMemory>
        requires { IsWellKept sub.now }
        ensures same { IfOk result (λ list. list_view list ≡ (sub_view sub.now).sub.names) }
        ensures kept { IfOk result IsList }
    {
        let mut names = Vec::new(alloc);
        for name in &sub.names {
            names.push(name.copy(alloc)?)?;
        }
        let near = Vec::from_slice(alloc, &sub.near)?;
        Ok(NameList { names, near })
    }

    /// Adds a name with its mark; one that is there stays.
    pub(crate) fn add(&mut self, at: NameAt, near: bool) -> Result<(), OutOfMemory>
        requires { IsList self.old }
        ensures ok { OnOk result (list_view self.new ≡ add_name (name_view at near) (list_view self.old)) }
        ensures kept { IsList self.new }
    {
        self.names.reserve(1)?;
        self.near.reserve(1)?;
        add_among(at, near, &mut self.names, &mut self.near);
        Ok(())
    }

    /// Whether the entries of an item and so many bytes more take at most so many bytes.
    fn fits(&self, item: Item, more: u64, most: u64) -> bool
        requires kept { IsList self.now }
        requires few { most < 2 ^ 63 }
        ensures { result ≡ nat_le (more + sum_by (share_of item) (list_view self.now)) most }
    {
        let mut sum = more;
        for (index, name) in self.names.iter().enumerate() {
            sum = sum.saturating_add(item.share(name, self.near[index]));
        }
        sum <= most
    }

    /// Whether a further name may be near: with it, the near names of its inode and directory take at most 2000 bytes.
    pub(crate) fn has_room_near(&self, name: &NameAt) -> bool
        requires { IsList self.now }
        ensures { result ≡ has_room_near (list_view self.now) (name_view name.now false) }
    {
        let item = Item::Ref {
            ino: name.ino.0,
            dir: name.dir.0,
        };
        let more = 10 + name.name.as_bytes().len() as u64;
        self.fits(item, more, MOST_REF_BYTES)
    }

    /// Whether an item that has the name has more bytes than a leaf holds.
    pub(crate) fn is_crowded(&self, name: &NameAt, near: bool) -> bool
        requires { IsList self.now }
        ensures { result ≡ is_crowded (list_view self.now) (name_view name.now near) }
    {
        let bytes = name.name.as_bytes();
        let entry = Item::Entry {
            dir: name.dir.0,
            hash: name_hash(bytes),
        };
        if !self.fits(entry, 0, MOST_ITEM_BYTES) {
            return true;
        }
        if near {
            return false;
        }
        let extref = Item::Extref {
            ino: name.ino.0,
            hash: extref_hash(name.dir, bytes),
        };
        !self.fits(extref, 0, MOST_ITEM_BYTES)
    }

    /// Adds a further name, near where it may be, and says whether it is near.
    pub(crate) fn make(&mut self, alloc: Global, at: &NameAt) -> Result<bool, OutOfMemory>
        requires { IsList self.old }
        ensures near { IfOk result (λ near. near ≡ has_room_near (list_view self.old) (name_view at.now false)) }
        ensures added { IfOk result (λ near. list_view self.new ≡ add_name (name_view at.now near) (list_view self.old)) }
        ensures kept { IsList self.new }
    {
        let near = self.has_room_near(at);
        self.add(at.copy(alloc)?, near)?;
        Ok(near)
    }
}
