//! Names of the committed subvolume that replay keeps.
ghost use Rattle.std.specs.Prelude.{◌≡◌, ◌≢◌, IfOk, filter, option_map};
ghost use Rattle.std.specs.List.{find, flat_map};
ghost use Rattle.current_view.specs.Told.{refs_of};
ghost use Rattle.log_image.specs.LogItems.{names_in_item};
ghost use Rattle.tree_range.specs.Shape.{IsTree, tree_items};
ghost use Rattle.recovered_view.specs.Kept.{is_kept_at};
ghost use Rattle.recovered_view.specs.Log.{IsLogAt, log_said};
ghost use Rattle.recovered_view.specs.Sought.{CanBeSought, is_sought};

use crate::ranges::is_kept;
use crate::sought::{Sought, find_name};
use blk_base::format::{INODE_EXTREF, INODE_REF};
use blk_base::{Key, OutOfMemory};
use block_table::{BlockTable, Tree};
use flat_model::NameAt;
use std::alloc::Global;
use tree_range::range;

/// The names that replay keeps of these of the committed subvolume.
pub(crate) fn kept_names(
    alloc: Global,
    table: &BlockTable,
    log: Option<Tree>,
    committed: Vec<NameAt>,
) -> Result<Vec<NameAt>, OutOfMemory>
    requires { IsLogAt table.now log (log_said table.now log) }
    ensures { IfOk result (λ names. names.items ≡ filter (is_kept_at (log_said table.now log)) committed.items) }
{
    let mut names = Vec::new(alloc);
    for name in committed {
        if is_kept(
            table,
            log,
            name.dir.0,
            name.index,
            name.name.as_bytes(),
            name.ino.0,
        ) {
            names.push(name)?;
        }
    }
    Ok(names)
}

/// The inode of the first name that is looked for among those of an inode of the committed subvolume: a search, and the items
/// of its refs, without memory.
pub(crate) fn find_committed(
    table: &BlockTable,
    committed: &Tree,
    ino: u64,
    sought: &Sought<'_>,
) -> Option<u64>
    requires tree { IsTree table.now committed.now }
    requires sought { CanBeSought sought.now }
    ensures { result ≡ option_map (λ n. n.ino) (find (is_sought sought.now) (flat_map names_in_item (refs_of (tree_items table.now committed.now) ino))) }
{
    let first = Key {
        objectid: ino,
        kind: INODE_REF,
        offset: 0,
    };
    let last = Key {
        objectid: ino,
        kind: INODE_EXTREF,
        offset: u64::MAX,
    };
    find_name(range(table, committed, &first, &last), sought)
}
