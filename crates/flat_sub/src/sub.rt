//! A subvolume of a flat volume.
ghost use Rattle.std.specs.Prelude.{◌≡◌, ◌<◌, ◌≤◌, ◌+◌, ◌^◌, ℕ, List, [], IsTrue, ◌↔◌, OnOk, OnErr, IfOk, vec_len, vec_capacity, unwrap_or};
ghost use Rattle.flat_sub.specs.View.{name_view, names_view, sub_view, IsWellKept};
ghost use Rattle.flat_model.specs.Names.{name_cmp, add_name};
ghost use Rattle.std.specs.FinMap.{get, from_entries};
ghost use Rattle.std.specs.Ordering.{nat_cmp};
ghost use Rattle.flat_sub.specs.Building.{bare_run, with_inode, with_name, place_in, has_name};

use blk_base::{OutOfMemory, Text};
use flat_model::{Kind, NameAt};
use flat_record::{Inode, place_of, put_entry};
use std::alloc::Global;
use std::cmp::Ordering;

/// A subvolume in its run: the inodes by their numbers, the names in order with their marks beside them, and the
/// greatest numbers that it has had.
#[derive(Drop)]
pub struct FlatSub {
    pub inodes: Vec<(u64, Inode)>,
    pub names: Vec<NameAt>,
    pub near: Vec<bool>,
    pub last_ino: u64,
    pub last_index: u64,
    pub dir_indexes: Vec<(u64, u64)>,
}

/// Compares two names with their marks by directory, index, bytes, inode and mark, far before near.
pub(crate) fn compare(one: &NameAt, one_near: bool, two: &NameAt, two_near: bool) -> Ordering
    ensures { result ≡ name_cmp (name_view one.now one_near) (name_view two.now two_near) }
{
    one.dir
        .0
        .cmp(&two.dir.0)
        .then(one.index.cmp(&two.index))
        .then(one.name.as_bytes().cmp(two.name.as_bytes()))
        .then(one.ino.0.cmp(&two.ino.0))
        .then(one_near.cmp(&two_near))
}

/// Where a name with its mark stands among others in order, or would stand, and whether it stands there.
pub(crate) fn place_among(
    at: &NameAt,
    near: bool,
    names: &Vec<NameAt>,
    nears: &Vec<bool>,
) -> (usize, bool)
    requires { vec_len nears.now ≡ vec_len names.now }
    ensures place { result.0 ≡ place_in (name_view at.now near) (names_view names.now.items nears.now.items) }
    ensures there { result.1 ≡ has_name (name_view at.now near) (names_view names.now.items nears.now.items) }
{
    let mut place = 0;
    while place < names.len() {
        match compare(at, near, &names[place], nears[place]) {
            Ordering::Less => return (place, false),
            Ordering::Equal => return (place, true),
            Ordering::Greater => {}
        }
        place += 1;
    }
    (place, false)
}

/// Adds a name with its mark in its place among others in order; one that is there stays. Takes no memory where both
/// lists have room for one more.
pub(crate) fn add_among(at: NameAt, near: bool, names: &mut Vec<NameAt>, nears: &mut Vec<bool>)
    requires marked { vec_len nears.old ≡ vec_len names.old }
    requires room { vec_len names.old < vec_capacity names.old }
    requires mark_room { vec_len nears.old < vec_capacity nears.old }
    ensures added { names_view names.new.items nears.new.items ≡ add_name (name_view at near) (names_view names.old.items nears.old.items) }
    ensures marked { vec_len nears.new ≡ vec_len names.new }
{
    let (place, there) = place_among(&at, near, names, nears);
    if there {
        return;
    }
    match names.insert(place, at) {
        Ok(()) => {}
        Err(_) => unreachable!(),
    }
    match nears.insert(place, near) {
        Ok(()) => {}
        Err(_) => unreachable!(),
    }
}

/// The greatest index that a directory has had, 1 where it has had none.
pub(crate) fn last_index_of(indexes: &Vec<(u64, u64)>, dir: u64) -> u64
    ensures { result ≡ unwrap_or (get (from_entries {R = nat_cmp} indexes.now.items) dir) 1 }
{
    match place_of(indexes, dir) {
        Some(at) => indexes[at].1,
        None => 1,
    }
}

impl FlatSub {
    /// A subvolume with nothing but its root directory, inode 256.
    pub fn bare(alloc: Global) -> Result<FlatSub, OutOfMemory>
        ensures view { IfOk result (λ sub. sub_view sub ≡ bare_run) }
        ensures kept { IfOk result IsWellKept }
    {
        let mut inodes = Vec::new(alloc);
        inodes.push((256, Inode::new(alloc, Kind::Dir, 0, Text::repeat(0, 0))))?;
        Ok(FlatSub {
            inodes,
            names: Vec::new(alloc),
            near: Vec::new(alloc),
            last_ino: 256,
            last_index: 1,
            dir_indexes: Vec::new(alloc),
        })
    }

    /// Adds a name with its mark; its index counts as one that the directory and the subvolume have had. A name that is
    /// there stays.
    pub fn add_name(&mut self, at: NameAt, near: bool) -> Result<(), OutOfMemory>
        requires { IsWellKept self.old }
        ensures ok { OnOk result (sub_view self.new ≡ with_name (name_view at near) (sub_view self.old)) }
        ensures err { OnErr result (sub_view self.new ≡ sub_view self.old) }
        ensures kept { IsWellKept self.new }
    {
        self.names.reserve(1)?;
        self.near.reserve(1)?;
        self.dir_indexes.reserve(1)?;
        let (dir, index) = (at.dir.0, at.index);
        add_among(at, near, &mut self.names, &mut self.near);
        let greatest = last_index_of(&self.dir_indexes, dir).max(index);
        put_entry(&mut self.dir_indexes, dir, greatest);
        self.last_index = self.last_index.max(index);
        Ok(())
    }

    /// Adds an inode; its number counts as one that the subvolume has had.
    pub fn add_inode(&mut self, ino: u64, inode: Inode) -> Result<(), OutOfMemory>
        ensures ok { OnOk result (sub_view self.new ≡ with_inode ino inode (sub_view self.old)) }
        ensures err { OnErr result (sub_view self.new ≡ sub_view self.old) }
        ensures kept { IsWellKept self.old → IsWellKept self.new }
    {
        self.inodes.reserve(1)?;
        put_entry(&mut self.inodes, ino, inode);
        self.last_ino = self.last_ino.max(ino);
        Ok(())
    }
}
