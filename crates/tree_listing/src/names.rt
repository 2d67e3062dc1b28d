//! The names of a directory in the order of their bytes.
ghost use Rattle.std.specs.Prelude.{◌≡◌, [], IfOk, map};
ghost use Rattle.current_view.specs.View.{seen};
ghost use Rattle.tree_listing.specs.Given.{IsGiven};
ghost use Rattle.tree_listing.specs.Places.{names_shown, pair_at};
ghost use Rattle.inode_shown.specs.Putting.{all_put};

use blk_base::{Ino, Name, OutOfMemory};
use block_table::{BlockTable, SubState};
use current_view::CurrentView;
use flat_model::{NameAt, NameView};
use std::alloc::Global;
use std::collections::BTreeMap;

/// Names with the inodes to which they lead, in the order of their bytes; of names with the same bytes the last.
fn in_byte_order(alloc: Global, names: Vec<NameAt>) -> Result<BTreeMap<Name, u64>, OutOfMemory>
    ensures { IfOk result (λ ordered. ordered.entries ≡ all_put [] (map pair_at names.items)) }
{
    let mut ordered = BTreeMap::new(alloc);
    for at in names {
        ordered.insert(at.name, at.ino.0)?;
    }
    Ok(ordered)
}

/// The names of a directory with the inodes to which they lead, in the order of their bytes.
pub(crate) fn names_of(
    alloc: Global,
    table: &BlockTable,
    state: &SubState,
    dir: Ino,
) -> Result<BTreeMap<Name, u64>, OutOfMemory>
    requires { IsGiven table.now state.now }
    ensures { IfOk result (λ names. names.entries ≡ names_shown (seen table.now state.now.tree) dir.0) }
{
    let view = CurrentView::new(table, state);
    in_byte_order(alloc, view.entries(alloc, dir)?)
}
