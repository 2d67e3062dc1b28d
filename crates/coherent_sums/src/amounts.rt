//! What one item adds to a sum.
ghost use Rattle.std.specs.Prelude.{◌≡◌, length, sum_by};
ghost use Rattle.blk_base.specs.Entries.{entries_of};
ghost use Rattle.blk_base.specs.Extents.{extent_of};
ghost use Rattle.volume_image.specs.Subvolume.{extent_len};
ghost use Rattle.image_faults.specs.Said.{inline_content, read_list};
ghost use Rattle.coherent_sums.specs.Sums.{IsLeft, name_length, name_lengths};

use blk_base::Key;
use blk_base::format::DIR_INDEX;
use item_dir::Entries;
use item_extent::Extent;

/// How many bytes of its file an extent covers.
pub(crate) fn run_len(key: &Key, bytes: &[u8]) -> u64
    ensures { result ≡ extent_len key.now bytes.now }
{
    match Extent::open(key, bytes) {
        Ok(Extent::Regular { length, .. }) => length,
        Ok(Extent::Inline(_)) | Ok(Extent::Hole { .. }) | Err(_) => 0,
    }
}

/// How many bytes an extent has in itself.
pub(crate) fn target_len(key: &Key, bytes: &[u8]) -> u64
    ensures { result ≡ length (inline_content (extent_of key.now bytes.now)) }
{
    match Extent::open(key, bytes) {
        Ok(Extent::Inline(content)) => content.len() as u64,
        Ok(Extent::Regular { .. }) | Ok(Extent::Hole { .. }) | Err(_) => 0,
    }
}

/// What is left of a number without the lengths of the names of entries.
fn without_entries(entries: Entries<'_>, left: u64) -> Option<u64>
    ensures { IsLeft result left (sum_by name_length entries.entry) }
{
    let mut left = left;
    for entry in entries {
        left = left.checked_sub(entry.name.len() as u64)?;
    }
    Some(left)
}

/// What is left of a number without the lengths of the names in an item of a directory's index.
pub(crate) fn without_names(bytes: &[u8], left: u64) -> Option<u64>
    ensures { IsLeft result left (name_lengths bytes.now) }
{
    match Entries::open(DIR_INDEX, bytes) {
        Ok(entries) => without_entries(entries, left),
        Err(_) => Some(left),
    }
}
