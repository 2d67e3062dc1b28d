//! The places to which names lead.
ghost use Rattle.std.specs.Prelude.{◌≡◌, ◌++◌, OnOk, IfOk};
ghost use Rattle.volume_listing.specs.Listing.{step_shown};
ghost use Rattle.tree_listing.specs.Places.{texts_below, waiting_view};

use blk_base::{Name, OutOfMemory};
use io_edge::push_printed;
use std::alloc::Global;
use std::collections::BTreeMap;

/// What stands at the end of names: their text, each behind a slash, and the number of the inode to which they lead.
#[derive(Drop)]
pub(crate) struct Place {
    pub(crate) path: Vec<u8>,
    pub(crate) ino: u64,
}

/// A path's text with a further name.
fn path_below(alloc: Global, path: &[u8], name: &Name) -> Result<Vec<u8>, OutOfMemory>
    ensures { IfOk result (λ to. to.items ≡ path.now ++ step_shown name.now) }
{
    let mut to = path.to_vec(alloc)?;
    to.push(b'/')?;
    push_printed(&mut to, name.as_bytes())?;
    Ok(to)
}

/// Pushes the places of a directory's names, the first one last, so that it is the next one.
pub(crate) fn push_places(
    alloc: Global,
    waiting: &mut Vec<Place>,
    path: &[u8],
    names: BTreeMap<Name, u64>,
) -> Result<(), OutOfMemory>
    ensures { OnOk result (waiting_view waiting.new.items ≡ texts_below path.now names.entries ++ waiting_view waiting.old.items) }
{
    let mut left = names;
    while let Some((name, ino)) = left.pop_last() {
        waiting.push(Place {
            path: path_below(alloc, path, &name)?,
            ino,
        })?;
    }
    Ok(())
}
