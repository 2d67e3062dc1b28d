//! The entries of an item of attributes, read and written.
ghost use Rattle.std.specs.Prelude.{◌≡◌, ◌≤◌, ◌<◌, ◌+◌, ◌^◌, ◌++◌, length, take, sum_by};
ghost use Rattle.std.specs.List.{AllByRecursion, flat_map};
ghost use Rattle.blk_base.specs.Entries.{attr_entry, entries_of, entry_bytes};
ghost use Rattle.blk_base.specs.Keys.{xattr_item};
ghost use Rattle.blk_base.specs.Name.{IsName};
ghost use Rattle.item_dir.specs.Entry.{entry_view};
ghost use Rattle.tree_range.specs.Between.{data_view};
ghost use Rattle.attribute_items.specs.Found.{IsAttribute, entries_read, entry_size, others, value_of, written_entry};

use blk_base::format::{ATTR_ENTRY, XATTR_ITEM};
use blk_base::limits::MOST_VALUE_BYTES;
use blk_base::{Key, Name, Text};
use item_dir::{Entries, Entry, put_entry};

/// The value of the attribute with a name, where one of the entries has it.
fn value_among<'a>(entries: Entries<'a>, name: &[u8]) -> Option<&'a [u8]>
    ensures { data_view result ≡ value_of name.now entries.entry }
{
    for entry in entries {
        if entry.name == name {
            return Some(entry.value);
        }
    }
    None
}

/// The value of the attribute with a name in an item, where it has it.
pub(crate) fn value_in<'a>(bytes: &'a [u8], name: &[u8]) -> Option<&'a [u8]>
    ensures { data_view result ≡ value_of name.now (entries_read (entries_of xattr_item bytes.now)) }
{
    match Entries::open(XATTR_ITEM, bytes) {
        Ok(entries) => value_among(entries, name),
        Err(_) => None,
    }
}

/// The bytes of the entries of an item without that of a name.
fn size_among(entries: Entries<'_>, name: &[u8], most: usize) -> usize
    requires { sum_by entry_size (others name.now entries) ≤ most }
    ensures { result ≡ sum_by entry_size (others name.now entries.entry) }
{
    let _most = most;
    let mut size = 0;
    for entry in entries {
        if entry.name != name {
            size += 30 + entry.name.len() + entry.value.len();
        }
    }
    size
}

/// The same of an item's bytes; 0 where they aren't entries.
pub(crate) fn size_without(bytes: &[u8], name: &[u8]) -> usize
    ensures value { result ≡ sum_by entry_size (others name.now (entries_read (entries_of xattr_item bytes.now))) }
    ensures within { result ≤ length bytes.now }
{
    match Entries::open(XATTR_ITEM, bytes) {
        Ok(entries) => size_among(entries, name, bytes.len()),
        Err(_) => 0,
    }
}

/// Writes an entry from a place on, and tells the place behind it.
fn add_entry(entry: &Entry<'_>, into: &mut [u8], at: usize) -> usize
    requires name { IsName entry.now.name.now }
    requires kind { entry.now.kind ≡ attr_entry }
    requires fits { length entry.now.value.now < 2 ^ 16 }
    requires room { at + entry_size (entry_view entry.now) ≤ length into.old }
    ensures end { result ≡ at + entry_size (entry_view entry.now) }
    ensures bytes { take result into.new ≡ take at into.old ++ entry_bytes (entry_view entry.now) }
{
    let end = at + 30 + entry.name.len() + entry.value.len();
    put_entry(entry, &mut into[at..end]);
    end
}

/// Writes the entries one behind the other, without that of a name, and tells how many bytes they take.
fn put_among(entries: Entries<'_>, name: &[u8], into: &mut [u8]) -> usize
    requires each { AllByRecursion IsAttribute entries }
    requires room { sum_by entry_size (others name.now entries) ≤ length into.old }
    ensures end { result ≡ sum_by entry_size (others name.now entries.entry) }
    ensures bytes { take result into.new ≡ flat_map entry_bytes (others name.now entries.entry) }
{
    let mut end = 0;
    for entry in entries {
        if entry.name != name {
            end = add_entry(&entry, into, end);
        }
    }
    end
}

/// The same of an item's entries; none where its bytes aren't entries.
pub(crate) fn put_others(bytes: &[u8], name: &[u8], into: &mut [u8]) -> usize
    requires { sum_by entry_size (others name.now (entries_read (entries_of xattr_item bytes.now))) ≤ length into.old }
    ensures end { result ≡ sum_by entry_size (others name.now (entries_read (entries_of xattr_item bytes.now))) }
    ensures bytes { take result into.new ≡ flat_map entry_bytes (others name.now (entries_read (entries_of xattr_item bytes.now))) }
{
    match Entries::open(XATTR_ITEM, bytes) {
        Ok(entries) => put_among(entries, name, into),
        Err(_) => 0,
    }
}

/// Copies a text into a buffer.
fn copy_text(text: &Text, into: &mut [u8])
    requires { length text.now ≤ length into.old }
    ensures { take (length text.now) into.new ≡ text.now }
{
    for place in 0..text.len() {
        into[place] = text.byte(place);
    }
}

/// Writes the entry of an attribute from a place on, and tells the place behind it.
pub(crate) fn put_attribute(
    running: u64,
    name: &Name,
    value: &Text,
    into: &mut [u8],
    at: usize,
) -> usize
    requires short { length value.now ≤ MOST_VALUE_BYTES }
    requires room { at + entry_size (written_entry running name.now value.now) ≤ length into.old }
    ensures end { result ≡ at + entry_size (written_entry running name.now value.now) }
    ensures bytes { take result into.new ≡ take at into.old ++ entry_bytes (written_entry running name.now value.now) }
{
    let mut bytes = [0; MOST_VALUE_BYTES];
    copy_text(value, &mut bytes);
    let entry = Entry {
        target: Key {
            objectid: 0,
            kind: 0,
            offset: 0,
        },
        transid: running,
        kind: ATTR_ENTRY,
        name: name.as_bytes(),
        value: &bytes[..value.len()],
    };
    add_entry(&entry, into, at)
}
