//! The way from a directory up to the root directory.
ghost use Rattle.std.specs.Prelude.{◌≡◌, ℕ, length, position, nat_eq};
ghost use Rattle.flat_sub.specs.View.{sub_view, IsWellKept};
ghost use Rattle.flat_check.specs.Parts.{dir_above, reaches_root};

use flat_model::NameAt;
use flat_sub::FlatSub;

/// The inode number of the root directory ("Objectids" of the on-disk format).
pub(crate) const ROOT: u64 = 256;

/// The place of the first name of an inode.
fn place_of_first(names: &Vec<NameAt>, ino: u64) -> Option<usize>
    ensures { result ≡ position (λ name. nat_eq name.ino.0 ino) names.now.items }
{
    names.iter().position(|name| name.ino.0 == ino)
}

/// One step up from a directory: the directory that has its first name, or the same where it has none.
fn dir_above(sub: &FlatSub, dir: u64) -> u64
    requires { IsWellKept sub.now }
    ensures { result ≡ dir_above (sub_view sub.now).sub.names dir }
{
    match place_of_first(&sub.names, dir) {
        Some(at) => sub.names[at].dir.0,
        None => dir,
    }
}

/// Whether the root directory is reached from a directory by as many steps up as there are names, or fewer.
pub(crate) fn reaches_root(sub: &FlatSub, dir: u64) -> bool
    requires { IsWellKept sub.now }
    ensures { result ≡ reaches_root (sub_view sub.now).sub.names (length (sub_view sub.now).sub.names) dir }
{
    let mut at = dir;
    for _step in &sub.names {
        if at == ROOT {
            return true;
        }
        at = dir_above(sub, at);
    }
    at == ROOT
}
