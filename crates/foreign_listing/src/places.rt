//! The places to which names lead.
ghost use Rattle.std.specs.Prelude.{◌≡◌, ◌+◌, ◌++◌, OnOk, IfOk, codes, vec_len};
ghost use Rattle.io_edge.specs.Printed.{printed};
ghost use Rattle.foreign_listing.specs.Names.{places_below};
ghost use Rattle.foreign_listing.specs.View.{entries_view, pending_view};

use blk_base::OutOfMemory;
use foreign_format::EntryKind;
use foreign_items::Name;
use io_edge::push_printed;
use std::alloc::Global;

/// What stands at the end of names: their text, each behind a slash, and the number of the inode or subvolume to which they
/// lead.
#[derive(Drop)]
pub(crate) struct Place {
    pub path: Vec<u8>,
    pub to: u64,
    pub kind: EntryKind,
}

/// A path's text with a further name.
fn path_below(alloc: Global, path: &[u8], name: &[u8]) -> Result<Vec<u8>, OutOfMemory>
    ensures { IfOk result (λ to. to.items ≡ path.now ++ (codes "/" ++ printed name.now)) }
{
    let mut to = path.to_vec(alloc)?;
    to.push(b'/')?;
    push_printed(&mut to, name)?;
    Ok(to)
}

/// Pushes the places of a directory's names, the first one last, so that it is the next one.
pub(crate) fn push_places(
    alloc: Global,
    pending: &mut Vec<Place>,
    path: &[u8],
    names: Vec<&Name>,
) -> Result<(), OutOfMemory>
    ensures view { OnOk result (pending_view pending.new.items ≡ places_below path.now (entries_view names.entry.items) ++ pending_view pending.old.items) }
    ensures len { OnOk result (vec_len pending.new ≡ vec_len pending.old + vec_len names.entry) }
{
    let mut left = names;
    while let Some(name) = left.pop() {
        pending.push(Place {
            path: path_below(alloc, path, &name.bytes)?,
            to: name.to,
            kind: name.kind,
        })?;
    }
    Ok(())
}
