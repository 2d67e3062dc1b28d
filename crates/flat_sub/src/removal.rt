//! What takes names away, and inodes with them.
ghost use Rattle.std.specs.Prelude.{◌≡◌, ◌<◌, ℕ, suc, List, ◌∷◌, drop, count_by, nat_eq, nat_lt, vec_len, length, IsTrue};
ghost use Rattle.flat_model.specs.Names.{FlatName, links_of, entries_of, remove_name};
ghost use Rattle.flat_model.specs.Operations.{without_name, unlink, rmdir};
ghost use Rattle.flat_sub.specs.View.{sub_view, IsWellKept};
ghost use Rattle.flat_sub.specs.Ends.{with_names, with_sub, ComesTo};

use crate::sub::FlatSub;
use crate::walk::End;
use flat_model::{Answer, NameAt, Path};
use flat_record::drop_entries;

/// How many of these names lead to an inode.
pub(crate) fn count_leading(names: &[NameAt], ino: u64) -> usize
    ensures { result ≡ count_by (λ name. nat_eq name.ino.0 ino) names.now }
{
    names.iter().filter(|name| name.ino.0 == ino).count()
}

/// How many of these names a directory has.
fn count_standing(names: &[NameAt], dir: u64) -> usize
    ensures { result ≡ count_by (λ name. nat_eq name.dir.0 dir) names.now }
{
    names.iter().filter(|name| name.dir.0 == dir).count()
}

impl FlatSub {
    /// How many names an inode has.
    pub fn links(&self, ino: u64) -> usize
        requires { IsWellKept self.now }
        ensures { result ≡ links_of (sub_view self.now).sub.names ino }
    {
        count_leading(&self.names, ino)
    }

    /// Whether a directory has names.
    pub(crate) fn has_entries(&self, dir: u64) -> bool
        requires { IsWellKept self.now }
        ensures { result ≡ nat_lt 0 (length (entries_of (sub_view self.now).sub.names dir)) }
    {
        count_standing(&self.names, dir) > 0
    }

    /// Takes the name at this place away.
    pub(crate) fn take_name(&mut self, at: usize)
        requires kept { IsWellKept self.old }
        requires there { at < vec_len self.old.names }
        ensures gone { (name : FlatName) → drop at (sub_view self.old).sub.names ≡ name ∷ drop (suc at) (sub_view self.old).sub.names → sub_view self.new ≡ with_names (sub_view self.old) (remove_name name (sub_view self.old).sub.names) }
        ensures kept { IsWellKept self.new }
    {
        self.near.remove(at);
        self.names.remove(at);
    }

    /// Takes the name at this place away, which leads to this inode, and the inode if it was its last name.
    pub(crate) fn remove_entry(&mut self, at: usize, ino: u64)
        requires kept { IsWellKept self.old }
        requires there { at < vec_len self.old.names }
        ensures gone { (name : FlatName) → drop at (sub_view self.old).sub.names ≡ name ∷ drop (suc at) (sub_view self.old).sub.names → ino ≡ name.ino → sub_view self.new ≡ with_sub (sub_view self.old) (without_name (sub_view self.old).sub name) }
        ensures kept { IsWellKept self.new }
    {
        self.take_name(at);
        if self.links(ino) == 0 {
            drop_entries(&mut self.inodes, ino);
        }
    }

    /// Takes the name of a file or symlink away, and with its last name the inode.
    pub fn unlink(&mut self, path: &Path) -> Answer
        requires { IsWellKept self.old }
        ensures done { ComesTo (unlink (sub_view self.old) path.now) (sub_view self.new) result }
        ensures kept { IsWellKept self.new }
    {
        match self.walk(path) {
            End::Free { .. } => Answer::NoEnt,
            End::Missing => Answer::NoEnt,
            End::Blocked => Answer::NotDir,
            End::Root => {
                if self.is_dir(256) {
                    return Answer::IsDir;
                }
                Answer::Plain
            }
            End::Taken { at, ino, .. } => {
                if self.is_dir(ino) {
                    return Answer::IsDir;
                }
                self.remove_entry(at, ino);
                Answer::Plain
            }
        }
    }

    /// Takes a directory without names away.
    pub fn rmdir(&mut self, path: &Path) -> Answer
        requires { IsWellKept self.old }
        ensures done { ComesTo (rmdir (sub_view self.old) path.now) (sub_view self.new) result }
        ensures kept { IsWellKept self.new }
    {
        match self.walk(path) {
            End::Free { .. } => Answer::NoEnt,
            End::Missing => Answer::NoEnt,
            End::Blocked => Answer::NotDir,
            End::Root => {
                if self.is_other(256) {
                    return Answer::NotDir;
                }
                Answer::Loop
            }
            End::Taken { at, ino, .. } => {
                if self.is_other(ino) {
                    return Answer::NotDir;
                }
                if self.has_entries(ino) {
                    return Answer::NotEmpty;
                }
                self.remove_entry(at, ino);
                Answer::Plain
            }
        }
    }
}
