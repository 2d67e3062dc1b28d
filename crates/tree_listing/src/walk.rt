//! The lines of a subvolume.
ghost use Rattle.std.specs.Prelude.{◌≡◌, ◌∷◌, ◌++◌, [], ℕ, List, OnOk, IfOk};
ghost use Rattle.std.specs.List.{flat_map};
ghost use Rattle.current_view.specs.View.{seen};
ghost use Rattle.volume_listing.specs.Listing.{count_of, lines_at, lines_of, step_shown};
ghost use Rattle.tree_listing.specs.Given.{IsGiven};
ghost use Rattle.tree_listing.specs.Places.{texts_at, waiting_view};

use crate::names::names_of;
use crate::places::{Place, push_places};
use blk_base::format::FIRST_FREE;
use blk_base::{Ino, OutOfMemory};
use block_table::{BlockTable, SubState};
use flat_model::Kind;
use inode_shown::put_inode;
use std::alloc::Global;

/// Adds the lines of what stands at a place, and makes the names of a directory the next places.
fn visit(
    alloc: Global,
    text: &mut Vec<u8>,
    table: &BlockTable,
    state: &SubState,
    place: &Place,
    waiting: &mut Vec<Place>,
) -> Result<(), OutOfMemory>
    requires { IsGiven table.now state.now }
    ensures text { (steps : List (List ℕ)) → place.now.path.items ≡ flat_map step_shown steps
        → OnOk result (text.new.items ≡ text.old.items ++ lines_at (seen table.now state.now.tree) (record { path = steps; ino = place.now.ino })) }
    ensures places { OnOk result (waiting_view waiting.new.items
        ≡ texts_at (seen table.now state.now.tree) place.now.path.items place.now.ino ++ waiting_view waiting.old.items) }
{
    match put_inode(alloc, text, table, &state.tree, place.ino, &place.path)? {
        Some(Kind::Dir) => {
            let names = names_of(alloc, table, state, Ino(place.ino))?;
            push_places(alloc, waiting, &place.path, names)
        }
        Some(Kind::File) | Some(Kind::Link) | None => Ok(()),
    }
}

/// The place of the root directory, alone.
fn first_place(alloc: Global) -> Result<Vec<Place>, OutOfMemory>
    ensures { IfOk result (λ waiting. waiting_view waiting.items ≡ ([], 256) ∷ []) }
{
    let mut waiting = Vec::new(alloc);
    waiting.push(Place {
        path: Vec::new(alloc),
        ino: FIRST_FREE,
    })?;
    Ok(waiting)
}

/// Adds the lines of a subvolume, and tells how many of them are those of inodes.
pub(crate) fn put_lines(
    alloc: Global,
    text: &mut Vec<u8>,
    table: &BlockTable,
    state: &SubState,
) -> Result<usize, OutOfMemory>
    requires { IsGiven table.now state.now }
    ensures text { OnOk result (text.new.items ≡ text.old.items ++ lines_of (seen table.now state.now.tree)) }
    ensures count { IfOk result (λ lines. lines ≡ count_of (seen table.now state.now.tree)) }
{
    let mut waiting = first_place(alloc)?;
    let mut lines = 0;
    while let Some(place) = waiting.pop() {
        visit(alloc, text, table, state, &place, &mut waiting)?;
        lines += 1;
    }
    Ok(lines)
}
