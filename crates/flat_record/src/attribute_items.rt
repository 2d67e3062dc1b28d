//! What the attributes of an inode take in items, and their limits.
ghost use Rattle.std.specs.Prelude.{◌≡◌, ◌<◌, ◌≤◌, ◌+◌, ◌-◌, ◌^◌, ◌↔◌, ℕ, List, None, All, length, min, sum_by, option_copied, IsTrue, IfOk};
ghost use Rattle.flat_record.specs.AttributeShares.{is_other, share_of, KeepsAttribute};

use blk_base::{Name, OutOfMemory, Text, format, name_hash};
use std::alloc::Global;

/// The most bytes of one item in a leaf ("Header" of the on-disk format).
const MOST_ITEM_BYTES: u64 = format::MOST_ITEM_BYTES as u64;

/// Whether a name is another than this, where one is given.
fn is_other(name: &Name, without: Option<&Name>) -> bool
    ensures { result ≡ is_other (option_copied without.entry) name.now }
{
    match without {
        Some(other) => *name != *other,
        None => true,
    }
}

/// The bytes of an attribute's entry ("XATTR_ITEM"); `u64::MAX` where they are more.
pub(crate) fn entry_bytes(name: &Name, value: &Text) -> u64
    ensures { result ≡ min (30 + length name.now + length value.now) (2 ^ 64 - 1) }
{
    (30 + name.as_bytes().len() as u64).saturating_add(value.len() as u64)
}

/// The bytes of an attribute's entry in the item of a hash, where its name has that hash and is another than this;
/// `u64::MAX` where they are more.
fn share(entry: &(Name, Text), hash: u32, without: Option<&Name>) -> u64
    ensures { result ≡ min (share_of hash (option_copied without.entry) entry.now) (2 ^ 64 - 1) }
{
    if !is_other(&entry.0, without) {
        return 0;
    }
    if name_hash(entry.0.as_bytes()) != hash {
        return 0;
    }
    entry_bytes(&entry.0, &entry.1)
}

/// The bytes of the item of a hash, without the entry of a name where one is given, and so many more; `u64::MAX` where
/// they are more.
pub(crate) fn item_bytes(
    entries: &Vec<(Name, Text)>,
    hash: u32,
    without: Option<&Name>,
    more: u64,
) -> u64
    ensures { result ≡ min (more + sum_by (share_of hash (option_copied without.entry)) entries.now.items) (2 ^ 64 - 1) }
{
    let mut sum = more;
    for entry in entries {
        sum = sum.saturating_add(share(entry, hash, without));
    }
    sum
}

/// Whether a leaf holds an item of so many bytes.
pub(crate) fn fits(bytes: u64) -> bool
    ensures { IsTrue result ↔ (bytes ≤ 3970) }
{
    bytes <= MOST_ITEM_BYTES
}

/// Whether no item that the attributes ask for has more bytes than a leaf holds.
pub(crate) fn do_fit(entries: &Vec<(Name, Text)>) -> bool
    ensures { IsTrue result ↔ ((hash : ℕ) → sum_by (share_of hash None) entries.now.items ≤ 3970) }
{
    for entry in entries {
        let bytes = item_bytes(entries, name_hash(entry.0.as_bytes()), None, 0);
        if !fits(bytes) {
            return false;
        }
    }
    true
}

/// Whether an attribute keeps its limits.
fn keeps_limits(name: &Name, value: &Text) -> bool
    ensures { IsTrue result ↔ KeepsAttribute (name.now, value.now) }
{
    let _bytes = name.as_bytes();
    let length = value.len();
    1 <= length && length <= 1024
}

/// Whether each attribute keeps its limits.
pub(crate) fn do_keep_limits(entries: &Vec<(Name, Text)>) -> bool
    ensures { IsTrue result ↔ All KeepsAttribute entries.now.items }
{
    for entry in entries {
        if !keeps_limits(&entry.0, &entry.1) {
            return false;
        }
    }
    true
}

/// Whether two attributes are one.
fn is_same(one: &(Name, Text), two: &(Name, Text)) -> bool
    ensures { IsTrue result ↔ (one.now ≡ two.now) }
{
    one.0 == two.0 && one.1 == two.1
}

/// Whether two lists have the same attributes.
pub(crate) fn are_same(one: &Vec<(Name, Text)>, two: &Vec<(Name, Text)>) -> bool
    ensures { IsTrue result ↔ (one.now.items ≡ two.now.items) }
{
    if one.len() != two.len() {
        return false;
    }
    for place in 0..one.len() {
        if !is_same(&one[place], &two[place]) {
            return false;
        }
    }
    true
}

/// The same attributes once more. Fails only for want of memory.
pub(crate) fn copy_attributes(
    alloc: Global,
    entries: &Vec<(Name, Text)>,
) -> Result<Vec<(Name, Text)>, OutOfMemory>
    ensures { IfOk result (λ copy. copy.items ≡ entries.now.items) }
{
    let mut copy = Vec::new(alloc);
    for entry in entries {
        copy.push((entry.0.copy(alloc)?, entry.1.copy(alloc)?))?;
    }
    Ok(copy)
}
