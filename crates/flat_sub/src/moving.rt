//! What moves names: rename and exchange.
ghost use Rattle.std.specs.Prelude.{◌≡◌, ◌<◌, ◌+◌, ◌^◌, ℕ, ◌&&◌, ◌||◌, not, List, length, vec_len, vec_capacity, IfOk, OnErr, None, false, IsTrue};
ghost use Rattle.std.specs.FinMap.{from_entries, is_sorted};
ghost use Rattle.std.specs.Ordering.{nat_cmp};
ghost use Rattle.flat_model.specs.Names.{FlatName, remove_name, links_of};
ghost use Rattle.flat_model.specs.Volume.{is_dir_there, is_other_there};
ghost use Rattle.flat_model.specs.Walk.{WalkEnd, walk, is_absent, is_blocked, is_dirless, is_root, is_one_inode, is_below, dir_of, bytes_of, ino_at, record_at};
ghost use Rattle.flat_model.specs.Operations.{rename, exchange, first_answer, has_entries, has_room_near, names_without, new_name, rename_tests, exchange_tests};
ghost use Rattle.flat_sub.specs.View.{name_view, sub_view, IsWellKept};
ghost use Rattle.flat_sub.specs.Lists.{list_view, IsList, last_of};
ghost use Rattle.flat_sub.specs.Ends.{IsEnd, ComesTo, with_sub};
ghost use Rattle.flat_sub.specs.Moves.{leads_there, lost_inode, without_lost, noted_index};

use crate::list::NameList;
use crate::making::last_name;
use crate::removal::count_leading;
use crate::sub::{FlatSub, last_index_of, place_among};
use crate::walk::End;
use blk_base::{Ino, OutOfMemory};
use flat_model::{Answer, NameAt, Path};
use flat_record::{drop_entries, put_entry};
use std::alloc::Global;

/// Whether the second path goes on below the first.
fn is_below(upper: &Path, lower: &Path) -> bool
    ensures { result ≡ is_below upper.now lower.now }
{
    let (uppers, lowers) = (upper.names(), lower.names());
    let mut at = 0;
    while at < uppers.len() && at < lowers.len() {
        if uppers[at].as_bytes() != lowers[at].as_bytes() {
            return false;
        }
        at += 1;
    }
    uppers.len() < lowers.len()
}

impl End {
    /// Whether the walk met a name before the last that isn't in its directory.
    fn is_dirless(self) -> bool
        ensures { (names : List FlatName) (end : WalkEnd) → IsEnd names end self → result ≡ is_dirless end }
    {
        match self {
            End::Root => false,
            End::Free { .. } => false,
            End::Taken { .. } => false,
            End::Missing => true,
            End::Blocked => false,
        }
    }

    /// Whether it is the root directory.
    fn is_root(self) -> bool
        ensures { (names : List FlatName) (end : WalkEnd) → IsEnd names end self → result ≡ is_root end }
    {
        match self {
            End::Root => true,
            End::Free { .. } => false,
            End::Taken { .. } => false,
            End::Missing => false,
            End::Blocked => false,
        }
    }

    /// The directory of the slot; 256 where it is no slot.
    fn dir(self) -> u64
        ensures { (names : List FlatName) (end : WalkEnd) → IsEnd names end self → result ≡ dir_of end }
    {
        match self {
            End::Root => 256,
            End::Free { dir } => dir,
            End::Taken { dir, .. } => dir,
            End::Missing => 256,
            End::Blocked => 256,
        }
    }

    /// Whether the name in the slot leads to this inode.
    fn leads_to(self, sought: u64) -> bool
        ensures { (names : List FlatName) (end : WalkEnd) → IsEnd names end self → result ≡ leads_there end sought }
    {
        match self {
            End::Root => false,
            End::Free { .. } => false,
            End::Taken { ino, .. } => sought == ino,
            End::Missing => false,
            End::Blocked => false,
        }
    }

    /// Whether both walks end at one inode other than the root directory.
    fn is_one_inode(self, other: End) -> bool
        ensures { (names : List FlatName) (one two : WalkEnd) → IsEnd names one self → IsEnd names two other → result ≡ is_one_inode one two }
    {
        match self {
            End::Root => false,
            End::Free { .. } => false,
            End::Taken { ino, .. } => other.leads_to(ino),
            End::Missing => false,
            End::Blocked => false,
        }
    }
}

impl End {
    /// Whether this walk met a name that isn't there, or the other one did before its last name.
    fn is_absent_or_dirless(self, to: End) -> bool
        ensures { (names : List FlatName) (before after : WalkEnd) → IsEnd names before self → IsEnd names after to → result ≡ (is_absent before || is_dirless after) }
    {
        self.is_absent() || to.is_dirless()
    }

    /// Whether one of the two walks met a name that isn't there.
    fn is_absent_or(self, other: End) -> bool
        ensures { (names : List FlatName) (before after : WalkEnd) → IsEnd names before self → IsEnd names after other → result ≡ (is_absent before || is_absent after) }
    {
        self.is_absent() || other.is_absent()
    }

    /// Whether one of the two walks met what is no directory before its last name.
    fn is_blocked_or(self, other: End) -> bool
        ensures { (names : List FlatName) (before after : WalkEnd) → IsEnd names before self → IsEnd names after other → result ≡ (is_blocked before || is_blocked after) }
    {
        self.is_blocked() || other.is_blocked()
    }

    /// Whether exchange would move the root directory, or a directory below itself.
    fn is_root_or(self, other: End, one: &Path, two: &Path) -> bool
        ensures { (names : List FlatName) (before after : WalkEnd) → IsEnd names before self → IsEnd names after other → result ≡ (is_root before || (is_root after || (is_below one.now two.now || is_below two.now one.now))) }
    {
        self.is_root() || (other.is_root() || (is_below(one, two) || is_below(two, one)))
    }
}

impl NameList {
    /// Takes a name with its mark away, where it is there.
    fn remove(&mut self, at: &NameAt, near: bool)
        requires { IsList self.old }
        ensures gone { list_view self.new ≡ remove_name (name_view at.now near) (list_view self.old) }
        ensures kept { IsList self.new }
    {
        let (place, there) = place_among(at, near, &self.names, &self.near);
        if there {
            self.near.remove(place);
            self.names.remove(place);
        }
    }

    /// Takes the name in the slot at the end of a walk away, where there is one.
    fn remove_end(&mut self, sub: &FlatSub, end: End)
        requires list { IsList self.old }
        requires kept { IsWellKept sub.now }
        requires found { (before : WalkEnd) × IsEnd (sub_view sub.now).sub.names before end }
        ensures gone { (before : WalkEnd) → IsEnd (sub_view sub.now).sub.names before end → list_view self.new ≡ names_without (list_view self.old) before }
        ensures kept { IsList self.new }
    {
        match end {
            End::Root => {}
            End::Free { .. } => {}
            End::Taken { at, .. } => self.remove(&sub.names[at], sub.near[at]),
            End::Missing => {}
            End::Blocked => {}
        }
    }

    /// How many names an inode has.
    fn links(&self, ino: u64) -> usize
        requires { IsList self.now }
        ensures { result ≡ links_of (list_view self.now) ino }
    {
        count_leading(&self.names, ino)
    }

    /// The inode that lost its last name with the one in the slot at the end of a walk, where it did.
    fn lost(&self, end: End) -> Option<u64>
        requires { IsList self.now }
        ensures { (names : List FlatName) (before : WalkEnd) → IsEnd names before end → result ≡ lost_inode (list_view self.now) before }
    {
        match end {
            End::Root => None,
            End::Free { .. } => None,
            End::Taken { ino, .. } => {
                if self.links(ino) == 0 {
                    return Some(ino);
                }
                None
            }
            End::Missing => None,
            End::Blocked => None,
        }
    }
}

/// The name of an inode in the slot at the end of a walk.
fn name_at(
    alloc: Global,
    path: &Path,
    end: End,
    index: u64,
    ino: u64,
) -> Result<NameAt, OutOfMemory>
    requires { 0 < length path.now }
    ensures { IfOk result (λ at. (names left : List FlatName) (before : WalkEnd) → IsEnd names before end → bytes_of before ≡ last_of path.now → new_name left before index ino ≡ name_view at (has_room_near left (name_view at false))) }
{
    Ok(NameAt {
        dir: Ino(end.dir()),
        index,
        name: last_name(alloc, path)?,
        ino: Ino(ino),
    })
}

/// A copy of the greatest indexes of directories, once this directory has had this index.
fn noted(
    alloc: Global,
    indexes: &Vec<(u64, u64)>,
    dir: u64,
    index: u64,
) -> Result<Vec<(u64, u64)>, OutOfMemory>
    ensures map { IfOk result (λ noted. from_entries {R = nat_cmp} noted.items ≡ noted_index (from_entries indexes.now.items) dir index) }
    ensures rising { IsTrue (is_sorted nat_cmp indexes.now.items) → IfOk result (λ noted. IsTrue (is_sorted nat_cmp noted.items)) }
{
    let greatest = last_index_of(indexes, dir).max(index);
    let mut noted = Vec::from_slice(alloc, indexes)?;
    noted.reserve(1)?;
    put_entry(&mut noted, dir, greatest);
    Ok(noted)
}

impl FlatSub {
    /// Whether an inode is there that is no directory.
    fn is_other_there(&self, end: End) -> bool
        ensures { (names : List FlatName) (before : WalkEnd) → IsEnd names before end → result ≡ is_other_there (record_at (sub_view self.now).sub before) }
    {
        match end {
            End::Root => self.is_other(256),
            End::Free { .. } => false,
            End::Taken { ino, .. } => self.is_other(ino),
            End::Missing => false,
            End::Blocked => false,
        }
    }

    /// Whether an inode is there that has names in it.
    fn has_entries_there(&self, end: End) -> bool
        requires { IsWellKept self.now }
        ensures { (names : List FlatName) (before : WalkEnd) → IsEnd names before end → result ≡ has_entries (sub_view self.now).sub (ino_at before) }
    {
        match end {
            End::Root => self.has_entries(256),
            End::Free { .. } => false,
            End::Taken { ino, .. } => self.has_entries(ino),
            End::Missing => false,
            End::Blocked => false,
        }
    }

    /// Takes an inode that lost its last name away, where there is one.
    fn drop_lost(&mut self, lost: Option<u64>)
        requires { IsWellKept self.old }
        ensures view { sub_view self.new ≡ with_sub (sub_view self.old) (record (sub_view self.old).sub { inodes = without_lost (sub_view self.old).sub.inodes lost }) }
        ensures kept { IsWellKept self.new }
    {
        if let Some(ino) = lost {
            drop_entries(&mut self.inodes, ino);
        }
    }

    /// Whether rename would put a directory in place of what is none.
    fn moves_dir_onto_other(&self, from: End, to: End) -> bool
        ensures { (names : List FlatName) (before after : WalkEnd) → IsEnd names before from → IsEnd names after to → result ≡ (is_dir_there (record_at (sub_view self.now).sub before) && is_other_there (record_at (sub_view self.now).sub after)) }
    {
        self.is_dir_there(from) && self.is_other_there(to)
    }

    /// Whether rename would put what is no directory in place of one, other than the root directory.
    fn moves_other_onto_dir(&self, from: End, to: End) -> bool
        ensures { (names : List FlatName) (before after : WalkEnd) → IsEnd names before from → IsEnd names after to → result ≡ (not (is_root after) && (is_other_there (record_at (sub_view self.now).sub before) && is_dir_there (record_at (sub_view self.now).sub after))) }
    {
        !to.is_root() && (self.is_other_there(from) && self.is_dir_there(to))
    }

    /// Whether a directory with names is there, other than the root directory.
    fn is_full_dir(&self, to: End) -> bool
        requires { IsWellKept self.now }
        ensures { (names : List FlatName) (after : WalkEnd) → IsEnd names after to → result ≡ (not (is_root after) && (is_dir_there (record_at (sub_view self.now).sub after) && has_entries (sub_view self.now).sub (ino_at after))) }
    {
        !to.is_root() && (self.is_dir_there(to) && self.has_entries_there(to))
    }

    /// Whether rename would move the root directory, or put something in its place, or a directory below itself.
    fn moves_in_loop(&self, old: &Path, new: &Path, from: End, to: End) -> bool
        ensures { (names : List FlatName) (before after : WalkEnd) → IsEnd names before from → IsEnd names after to → result ≡ (is_root before || (is_root after || (is_dir_there (record_at (sub_view self.now).sub before) && is_below old.now new.now))) }
    {
        from.is_root() || (to.is_root() || (self.is_dir_there(from) && is_below(old, new)))
    }

    /// What rename answers before it looks for crowded items, where that decides.
    fn rename_refusal(&self, old: &Path, new: &Path, from: End, to: End) -> Option<Answer>
        requires kept { IsWellKept self.now }
        requires from { IsEnd (sub_view self.now).sub.names (walk (sub_view self.now).sub old.now) from }
        requires to { IsEnd (sub_view self.now).sub.names (walk (sub_view self.now).sub new.now) to }
        ensures { result ≡ first_answer (rename_tests (sub_view self.now) old.now new.now (walk (sub_view self.now).sub old.now) (walk (sub_view self.now).sub new.now)) }
    {
        if from.is_absent_or_dirless(to) {
            return Some(Answer::NoEnt);
        }
        if from.is_blocked_or(to) {
            return Some(Answer::NotDir);
        }
        if from.is_one_inode(to) {
            return Some(Answer::Plain);
        }
        if self.moves_dir_onto_other(from, to) {
            return Some(Answer::NotDir);
        }
        if self.moves_other_onto_dir(from, to) {
            return Some(Answer::IsDir);
        }
        if self.is_full_dir(to) {
            return Some(Answer::NotEmpty);
        }
        if self.moves_in_loop(old, new, from, to) {
            return Some(Answer::Loop);
        }
        if self.indexes_are_spent() {
            return Some(Answer::TooLarge);
        }
        None
    }

    /// What exchange answers before it looks for crowded items, where that decides.
    fn exchange_refusal(&self, one: &Path, two: &Path, first: End, second: End) -> Option<Answer>
        requires kept { IsWellKept self.now }
        requires first { IsEnd (sub_view self.now).sub.names (walk (sub_view self.now).sub one.now) first }
        requires second { IsEnd (sub_view self.now).sub.names (walk (sub_view self.now).sub two.now) second }
        ensures { result ≡ first_answer (exchange_tests (sub_view self.now) one.now two.now (walk (sub_view self.now).sub one.now) (walk (sub_view self.now).sub two.now)) }
    {
        if first.is_absent_or(second) {
            return Some(Answer::NoEnt);
        }
        if first.is_blocked_or(second) {
            return Some(Answer::NotDir);
        }
        if first.is_one_inode(second) {
            return Some(Answer::Plain);
        }
        if first.is_root_or(second, one, two) {
            return Some(Answer::Loop);
        }
        if self.indexes_are_spent() {
            return Some(Answer::TooLarge);
        }
        None
    }

    /// Moves the name at the end of one walk to the end of the other; a name that stood there goes. No row before the one
    /// on crowded items refused it.
    fn move_name(
        &mut self,
        alloc: Global,
        old: &Path,
        new: &Path,
        from: End,
        to: End,
    ) -> Result<Answer, OutOfMemory>
        requires kept { IsWellKept self.old }
        requires from { IsEnd (sub_view self.old).sub.names (walk (sub_view self.old).sub old.now) from }
        requires to { IsEnd (sub_view self.old).sub.names (walk (sub_view self.old).sub new.now) to }
        requires open { None ≡ first_answer (rename_tests (sub_view self.old) old.now new.now (walk (sub_view self.old).sub old.now) (walk (sub_view self.old).sub new.now)) }
        ensures done { IfOk result (ComesTo (rename (sub_view self.old) old.now new.now (self.old.last_index + 1)) (sub_view self.new)) }
        ensures err { OnErr result (sub_view self.new ≡ sub_view self.old) }
        ensures kept { IsWellKept self.new }
    {
        let mut list = NameList::copy_of(alloc, self)?;
        list.remove_end(self, to);
        let lost = list.lost(to);
        list.remove_end(self, from);
        let index = self.last_index + 1;
        let at = name_at(alloc, new, to, index, from.ino())?;
        let near = list.make(alloc, &at)?;
        if list.is_crowded(&at, near) {
            return Ok(Answer::Collide);
        }
        self.dir_indexes.reserve(1)?;
        self.settle(list, at.dir.0, index);
        self.drop_lost(lost);
        Ok(Answer::Plain)
    }

    /// Moves the name at the first place to the second; a name that stood there goes.
    pub fn rename(&mut self, alloc: Global, old: &Path, new: &Path) -> Result<Answer, OutOfMemory>
        requires { IsWellKept self.old }
        ensures done { IfOk result (ComesTo (rename (sub_view self.old) old.now new.now (self.old.last_index + 1)) (sub_view self.new)) }
        ensures err { OnErr result (sub_view self.new ≡ sub_view self.old) }
        ensures kept { IsWellKept self.new }
    {
        let (from, to) = (self.walk(old), self.walk(new));
        match self.rename_refusal(old, new, from, to) {
            Some(answer) => Ok(answer),
            None => self.move_name(alloc, old, new, from, to),
        }
    }

    /// Swaps what is at the ends of two walks, once no row before the one on crowded items refused it.
    fn swap_names(
        &mut self,
        alloc: Global,
        one: &Path,
        two: &Path,
        first: End,
        second: End,
    ) -> Result<Answer, OutOfMemory>
        requires kept { IsWellKept self.old }
        requires first { IsEnd (sub_view self.old).sub.names (walk (sub_view self.old).sub one.now) first }
        requires second { IsEnd (sub_view self.old).sub.names (walk (sub_view self.old).sub two.now) second }
        requires open { None ≡ first_answer (exchange_tests (sub_view self.old) one.now two.now (walk (sub_view self.old).sub one.now) (walk (sub_view self.old).sub two.now)) }
        ensures done { IfOk result (ComesTo (exchange (sub_view self.old) one.now two.now (self.old.last_index + 1) (self.old.last_index + 2)) (sub_view self.new)) }
        ensures err { OnErr result (sub_view self.new ≡ sub_view self.old) }
        ensures kept { IsWellKept self.new }
    {
        let mut list = NameList::copy_of(alloc, self)?;
        list.remove_end(self, first);
        list.remove_end(self, second);
        let index = self.last_index + 1;
        let other_index = self.last_index + 2;
        let here = name_at(alloc, one, first, index, second.ino())?;
        let there = name_at(alloc, two, second, other_index, first.ino())?;
        let here_near = list.has_room_near(&here);
        let there_near = list.has_room_near(&there);
        list.add(here.copy(alloc)?, here_near)?;
        list.add(there.copy(alloc)?, there_near)?;
        if list.is_crowded(&here, here_near) {
            return Ok(Answer::Collide);
        }
        if list.is_crowded(&there, there_near) {
            return Ok(Answer::Collide);
        }
        let indexes = noted(alloc, &self.dir_indexes, here.dir.0, index)?;
        let both = noted(alloc, &indexes, there.dir.0, other_index)?;
        self.names = list.names;
        self.near = list.near;
        self.dir_indexes = both;
        self.last_index = other_index;
        Ok(Answer::Plain)
    }

    /// Swaps what the names at two places lead to.
    pub fn exchange(&mut self, alloc: Global, one: &Path, two: &Path) -> Result<Answer, OutOfMemory>
        requires { IsWellKept self.old }
        ensures done { IfOk result (ComesTo (exchange (sub_view self.old) one.now two.now (self.old.last_index + 1) (self.old.last_index + 2)) (sub_view self.new)) }
        ensures err { OnErr result (sub_view self.new ≡ sub_view self.old) }
        ensures kept { IsWellKept self.new }
    {
        let (first, second) = (self.walk(one), self.walk(two));
        match self.exchange_refusal(one, two, first, second) {
            Some(answer) => Ok(answer),
            None => self.swap_names(alloc, one, two, first, second),
        }
    }
}
