//! What goes with the name at a place.
ghost use Rattle.std.specs.Prelude.{◌≡◌, ◌≤◌, ◌+◌, ◌^◌, ℕ, List};
ghost use Rattle.std.specs.Option.{option_map};
ghost use Rattle.flat_model.specs.Needs.{gone_with};
ghost use Rattle.flat_model.specs.Volume.{Subvolume};
ghost use Rattle.flat_model.specs.Walk.{ino_at, is_one_inode, walk};
ghost use Rattle.name_walk.specs.Ends.{end_view};
ghost use Rattle.name_walk.specs.Given.{GivesCoherent};

use crate::inode::blocks_and_items;
use blk_base::Ino;
use block_table::{BlockTable, Tree};
use name_walk::{End, links};

/// The inode at the end of a walk, where there is one.
pub(crate) fn ino_at(end: &End<'_>) -> Option<Ino>
    ensures { option_map (λ ino. ino.0) result ≡ ino_at (end_view end.now) }
{
    match end {
        End::Root => Some(Ino(256)),
        End::Taken { held, .. } => Some(Ino(held.ino)),
        End::Free { .. } => None,
        End::Missing => None,
        End::Blocked => None,
    }
}

/// Whether two walks end at one inode other than the root directory.
pub(crate) fn is_one_inode(one: &End<'_>, two: &End<'_>) -> bool
    ensures { result ≡ is_one_inode (end_view one.now) (end_view two.now) }
{
    match (one, two) {
        (End::Taken { held: first, .. }, End::Taken { held: second, .. }) => {
            first.ino == second.ino
        }
        _ => false,
    }
}

/// How many data blocks, inline extents and attribute items go with the name at the end of a walk: its inode's, where that has
/// no other name ("INODE_ITEM": nlink).
pub(crate) fn gone_with(table: &BlockTable, tree: &Tree, end: &End<'_>) -> u64
    requires { (sub : Subvolume) × GivesCoherent table.now tree.now sub }
    ensures count { (sub : Subvolume) (path : List (List ℕ)) → GivesCoherent table.now tree.now sub → end_view end.now ≡ walk sub path
        → result ≡ gone_with sub (end_view end.now) }
    ensures few { result ≤ 2 ^ 32 + 4097 }
{
    match end {
        End::Taken { held, .. } => {
            if links(table, tree, held.ino) == 1 {
                blocks_and_items(table, tree, Ino(held.ino))
            } else {
                0
            }
        }
        End::Root => 0,
        End::Free { .. } => 0,
        End::Missing => 0,
        End::Blocked => 0,
    }
}
