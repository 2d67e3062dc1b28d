//! The attributes of an inode.
ghost use Rattle.std.specs.Prelude.{◌≡◌, ◌<◌, ◌≤◌, ◌↔◌, ℕ, List, position, length, slice_index_or, vec_len, vec_capacity, nat_lt, bytes_eq, is_some, IsTrue, IfOk, OnOk, OnErr};
ghost use Rattle.std.specs.Ordering.{nat_cmp, is_le};
ghost use Rattle.std.specs.Cmp.Lexicographic.{slice_cmp};
ghost use Rattle.std.specs.FinMap.{entries, get, insert, remove, put};
ghost use Rattle.blk_base.specs.Crc.{name_hash_of};
ghost use Rattle.flat_model.specs.Coherent.{KeepAttributeLimits};
ghost use Rattle.flat_model.specs.Lengths.{most_item_bytes, xattr_item_length};

use crate::attribute_items::{
    are_same, copy_attributes, do_fit, do_keep_limits, entry_bytes, fits, item_bytes,
};
use blk_base::{Name, OutOfMemory, Text, name_hash};
use std::alloc::Global;
use std::marker::Model;

/// The attributes of an inode by their names, in the order of the names' bytes.
#[derive(Drop)]
pub(crate) struct AttributeTable {
    entries: Vec<(Name, Text)>,
}

impl Model for AttributeTable {
    ghost use Rattle.std.specs.Prelude.{IsTrue};
    ghost use Rattle.std.specs.Ordering.{nat_cmp};
    ghost use Rattle.std.specs.Cmp.Lexicographic.{slice_cmp};
    ghost use Rattle.std.specs.FinMap.{from_entries, is_sorted};
    ghost use Rattle.flat_model.specs.Records.{Attributes};
    ghost use Rattle.flat_model.specs.Codes.{attributes_code};

    ghost Value = { Attributes };

    ghost coded = { attributes_code };

    ghost view = { λ table. from_entries table.entries.items };

    ghost invariant = { λ table. IsTrue (is_sorted (slice_cmp nat_cmp) table.entries.items) };
}

/// The place of the attribute of this name.
fn place_of_name(entries: &Vec<(Name, Text)>, name: &Name) -> Option<usize>
    ensures { result ≡ position (λ entry. bytes_eq entry.0 name.now) entries.now.items }
{
    entries.iter().position(|entry| entry.0 == *name)
}

/// The place of the first attribute whose name isn't below this one.
fn place_from_name(entries: &Vec<(Name, Text)>, name: &Name) -> Option<usize>
    ensures { result ≡ position (λ entry. is_le (slice_cmp nat_cmp name.now entry.0)) entries.now.items }
{
    entries.iter().position(|entry| name.cmp(&entry.0).is_le())
}

/// Gives a name a value, in place of the one that it has, or before the first greater name. Takes no memory where the
/// list has room for one entry more.
fn put_attribute(entries: &mut Vec<(Name, Text)>, name: Name, value: Text)
    requires room { vec_len entries.old < vec_capacity entries.old }
    ensures items { entries.new.items ≡ put (slice_cmp nat_cmp) name value entries.old.items }
{
    match place_from_name(entries, &name) {
        Some(at) => {
            if entries[at].0 == name {
                entries[at] = (name, value);
                return;
            }
            match entries.insert(at, (name, value)) {
                Ok(()) => {}
                Err(_) => unreachable!(),
            }
        }
        None => match entries.push((name, value)) {
            Ok(()) => {}
            Err(_) => unreachable!(),
        },
    }
}

impl AttributeTable {
    ghost use Rattle.std.specs.FinMap.{empty};

    /// No attributes.
    pub(crate) fn new(alloc: Global) -> AttributeTable
        ensures { result ≡ empty }
    {
        AttributeTable {
            entries: Vec::new(alloc),
        }
    }

    /// Whether there is an attribute of this name.
    pub(crate) fn has(&self, name: &Name) -> bool
        ensures { result ≡ is_some (get self.now name.now) }
    {
        match place_of_name(&self.entries, name) {
            Some(_) => true,
            None => false,
        }
    }

    /// A copy of the value of an attribute, where there is one. Fails only for want of memory.
    pub(crate) fn get(&self, alloc: Global, name: &Name) -> Result<Option<Text>, OutOfMemory>
        ensures { IfOk result (λ value. value ≡ get self.now name.now) }
    {
        match place_of_name(&self.entries, name) {
            Some(at) => {
                let entry = &self.entries[at];
                Ok(Some(entry.1.copy(alloc)?))
            }
            None => Ok(None),
        }
    }

    /// Gives an attribute a value, also in place of the one that it has.
    pub(crate) fn set(
        &mut self,
        alloc: Global,
        name: &Name,
        value: &Text,
    ) -> Result<(), OutOfMemory>
        ensures ok { OnOk result (self.new ≡ insert self.old name.now value.now) }
        ensures err { OnErr result (self.new ≡ self.old) }
    {
        let name = name.copy(alloc)?;
        let value = value.copy(alloc)?;
        self.entries.reserve(1)?;
        put_attribute(&mut self.entries, name, value);
        Ok(())
    }

    /// Takes an attribute away.
    pub(crate) fn remove(&mut self, name: &Name)
        ensures { self.new ≡ remove self.old name.now }
    {
        self.entries.retain(|entry| entry.0 != *name);
    }

    /// Whether the item that an attribute asks for would have more bytes than a leaf holds, once it had this value.
    pub(crate) fn is_crowded(&self, name: &Name, value: &Text) -> bool
        ensures { result ≡ nat_lt most_item_bytes (xattr_item_length (insert self.now name.now value.now) (name_hash_of name.now)) }
    {
        let more = entry_bytes(name, value);
        !fits(item_bytes(&self.entries, name_hash(name.as_bytes()), Some(name), more))
    }

    /// Whether no item that the attributes ask for has more bytes than a leaf holds.
    pub(crate) fn do_fit(&self) -> bool
        ensures { IsTrue result ↔ ((hash : ℕ) → xattr_item_length self.now hash ≤ most_item_bytes) }
    {
        do_fit(&self.entries)
    }

    /// Whether the attributes keep their limits.
    pub(crate) fn do_keep_limits(&self) -> bool
        ensures { IsTrue result ↔ KeepAttributeLimits self.now }
    {
        do_keep_limits(&self.entries)
    }

    /// Whether another table has the same attributes.
    pub(crate) fn is_same(&self, other: &AttributeTable) -> bool
        ensures { IsTrue result ↔ (self.now ≡ other.now) }
    {
        are_same(&self.entries, &other.entries)
    }

    /// The same attributes once more. Fails only for want of memory.
    pub(crate) fn copy(&self, alloc: Global) -> Result<AttributeTable, OutOfMemory>
        ensures { IfOk result (λ table. table ≡ self.now) }
    {
        let entries = copy_attributes(alloc, &self.entries)?;
        Ok(AttributeTable { entries })
    }

    /// How many attributes there are.
    pub(crate) fn len(&self) -> usize
        ensures { result ≡ length (entries self.now) }
    {
        self.entries.len()
    }

    /// The name and the value of the attribute at this place, counted from 0 in the order of the names.
    pub(crate) fn entry(&self, place: usize) -> (&Name, &Text)
        requires { place < length (entries self.now) }
        ensures { (result.0.now, result.1.now) ≡ slice_index_or (entries self.now) place (result.0.now, result.1.now) }
    {
        let entry = &self.entries[place];
        (&entry.0, &entry.1)
    }
}
