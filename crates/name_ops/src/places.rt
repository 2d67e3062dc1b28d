//! How two places stand to each other.
ghost use Rattle.std.specs.Prelude.{◌≡◌};
ghost use Rattle.flat_model.specs.Walk.{is_below, is_one_inode};
ghost use Rattle.name_walk.specs.Ends.{end_view};

use flat_model::Path;
use name_walk::End;

/// Whether the second path goes on below the first.
pub(crate) fn is_below(upper: &Path, lower: &Path) -> bool
    ensures { result ≡ is_below upper.now lower.now }
{
    let (uppers, lowers) = (upper.names(), lower.names());
    let mut at = 0;
    while at < uppers.len() && at < lowers.len() {
        if uppers[at].as_bytes() != lowers[at].as_bytes() {
            return false;
        }
        at += 1;
    }
    uppers.len() < lowers.len()
}

/// Whether two walks end at one inode other than the root directory.
pub(crate) fn is_one_inode(one: &End<'_>, two: &End<'_>) -> bool
    ensures { result ≡ is_one_inode (end_view one.now) (end_view two.now) }
{
    match (one, two) {
        (End::Taken { held: first, .. }, End::Taken { held: second, .. }) => {
            first.ino == second.ino
        }
        _ => false,
    }
}
