//! The names of a directory in the order of their bytes.
ghost use Rattle.std.specs.Prelude.{◌≡◌, OnOk, IfOk};
ghost use Rattle.std.specs.Ordering.{nat_cmp};
ghost use Rattle.std.specs.Cmp.Lexicographic.{slice_cmp};
ghost use Rattle.std.specs.FinMap.{put};
ghost use Rattle.volume_listing.specs.Order.{place_in, has_bytes, ordered};

use blk_base::{Name, OutOfMemory};
use flat_model::NameAt;
use std::alloc::Global;
use std::cmp::Ordering;

/// Where a name stands among others in the order of their bytes, or would stand, and whether it stands there.
fn place_among(name: &Name, entries: &Vec<(Name, u64)>) -> (usize, bool)
    ensures place { result.0 ≡ place_in name.now entries.now.items }
    ensures there { result.1 ≡ has_bytes name.now entries.now.items }
{
    let mut place = 0;
    while place < entries.len() {
        let entry = &entries[place];
        match name.cmp(&entry.0) {
            Ordering::Less => return (place, false),
            Ordering::Equal => return (place, true),
            Ordering::Greater => {}
        }
        place += 1;
    }
    (place, false)
}

/// Puts a name and the inode that it leads to in its place among others, in place of the same name.
fn put(entries: &mut Vec<(Name, u64)>, name: Name, ino: u64) -> Result<(), OutOfMemory>
    ensures { OnOk result (entries.new.items ≡ put (slice_cmp nat_cmp) name ino entries.old.items) }
{
    let (place, there) = place_among(&name, entries);
    if there {
        let entry = &mut entries[place];
        entry.1 = ino;
        return Ok(());
    }
    entries.insert(place, (name, ino))?;
    Ok(())
}

/// The names of a directory among these, with the inodes that they lead to, in the order of their bytes; of names with
/// the same bytes the first.
pub(crate) fn in_byte_order(
    alloc: Global,
    names: &Vec<NameAt>,
    dir: u64,
) -> Result<Vec<(Name, u64)>, OutOfMemory>
    ensures { IfOk result (λ entries. entries.items ≡ ordered dir names.now.items) }
{
    let mut entries = Vec::new(alloc);
    let mut left = names.len();
    while left > 0 {
        left -= 1;
        let at = &names[left];
        if at.dir.0 == dir {
            put(&mut entries, at.name.copy(alloc)?, at.ino.0)?;
        }
    }
    Ok(entries)
}
