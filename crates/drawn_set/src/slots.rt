//! The inodes that stand in the slot of a name: a slot is a directory and the bytes of a name, and where the names of a
//! hash would fill more than an item, all names of that hash share one.
ghost use Rattle.std.specs.Prelude.{◌≡◌, ◌≤◌, IfOk, IsPermutation, filter, map, sum_by};
ghost use Rattle.blk_base.specs.Crc.{name_hash_of};
ghost use Rattle.flat_model.specs.Coherent.{IsCoherent};
ghost use Rattle.flat_model.specs.Lengths.{most_item_bytes};
ghost use Rattle.flat_model.specs.Names.{hashed_of};
ghost use Rattle.flat_model.specs.Unmarked.{unmarked};
ghost use Rattle.logged_volume.specs.Drawn.{is_crowded_hash};
ghost use Rattle.drawn_set.specs.Slots.{AreInSlotOf, bytes_beside, does_share, entry_bytes};

use blk_base::format::MOST_ITEM_BYTES;
use blk_base::{OutOfMemory, name_hash};
use flat_model::{NameAt, NameView};
use std::alloc::Global;

/// The bytes of a name's entry in a DIR_ITEM item before the name itself ("DIR_ITEM" of the on-disk format).
const ENTRY_BYTES: usize = 30;

/// The bytes of an item with an entry for each of these names ("DIR_ITEM" of the on-disk format).
fn item_bytes(names: &[NameAt]) -> usize
    requires { sum_by entry_bytes names.now ≤ most_item_bytes }
    ensures { result ≡ sum_by entry_bytes names.now }
{
    names
        .iter()
        .map(|name| ENTRY_BYTES + name.name.as_bytes().len())
        .sum()
}

/// The bytes of a name's entry where the current view leaves its slot free, and else none.
fn bytes_beside<V: NameView>(current: &V, other: &NameAt) -> usize
    ensures { result ≡ bytes_beside (V.sub current.now) other.now }
{
    let name = other.name.as_bytes();
    match current.slot(other.dir, name) {
        Some(_) => 0,
        None => ENTRY_BYTES + name.len(),
    }
}

/// The bytes that those of these names would add to an item of the current view whose slots it leaves free.
fn all_bytes_beside<V: NameView>(current: &V, others: &[NameAt]) -> usize
    requires { sum_by entry_bytes others.now ≤ most_item_bytes }
    ensures { result ≡ sum_by (bytes_beside (V.sub current.now)) others.now }
{
    let mut bytes = 0;
    for other in others {
        bytes += bytes_beside(current, other);
    }
    bytes
}

/// Whether a directory's names of a hash in both views together, each counted once, would need an item that no leaf
/// holds. The others are those that the recovered view has; no memory is asked for where the current one has them all.
fn is_crowded<A: NameView, B: NameView>(
    alloc: Global,
    current: &A,
    recovered: &B,
    at: &NameAt,
    others: &[NameAt],
) -> Result<bool, OutOfMemory>
    requires coherent { IsCoherent (A.sub current.now) }
    requires recovered_coherent { IsCoherent (B.sub recovered.now) }
    requires others { IsPermutation (map unmarked (hashed_of (B.sub recovered.now).names at.now.dir.0 (name_hash_of at.now.name))) others.now }
    ensures { IfOk result (λ is. is ≡ is_crowded_hash (A.sub current.now) (B.sub recovered.now) at.now.dir.0 (name_hash_of at.now.name)) }
{
    let beside = all_bytes_beside(current, others);
    if beside == 0 {
        return Ok(false);
    }
    let here = current.hashed(alloc, at.dir, name_hash(at.name.as_bytes()))?;
    Ok(MOST_ITEM_BYTES < item_bytes(&here) + beside)
}

/// The inodes of the names among these that have the bytes of a name, or of all of them where they share one slot.
fn sharing(
    alloc: Global,
    name: &NameAt,
    others: &[NameAt],
    crowded: bool,
) -> Result<Vec<u64>, OutOfMemory>
    ensures { IfOk result (λ inos. inos.items ≡ map (λ other. other.ino.0) (filter (does_share name.now crowded) others.now)) }
{
    Ok(
        others
            .iter()
            .filter(|other| crowded || other.name == name.name)
            .map(|other| other.ino.0)
            .collect(alloc)?,
    )
}

/// The inodes that the recovered view has in the slot of a name of the current one: a search for the names of its hash, and
/// where the current view lacks one of them also a search there ("DIR_ITEM" of the on-disk format).
pub(crate) fn in_slot_of<A: NameView, B: NameView>(
    alloc: Global,
    current: &A,
    recovered: &B,
    name: &NameAt,
) -> Result<Vec<u64>, OutOfMemory>
    requires coherent { IsCoherent (A.sub current.now) }
    requires recovered_coherent { IsCoherent (B.sub recovered.now) }
    ensures { IfOk result (λ inos. AreInSlotOf (A.sub current.now) (B.sub recovered.now) name.now inos.items) }
{
    let others = recovered.hashed(alloc, name.dir, name_hash(name.name.as_bytes()))?;
    let crowded = is_crowded(alloc, current, recovered, name, &others)?;
    sharing(alloc, name, &others, crowded)
}
