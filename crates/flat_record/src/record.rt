ghost use Rattle.std.specs.Prelude.{◌≡◌, ◌<◌, ◌≤◌, ◌+◌, ◌↔◌, ℕ, List, length, nat_lt, slice_index_or, option_copied, is_some, Some, IsTrue, IfOk, OnOk, OnErr};
ghost use Rattle.std.specs.FinMap.{entries, get, insert, remove};
ghost use Rattle.blk_base.specs.Crc.{name_hash_of};
ghost use Rattle.flat_model.specs.Lengths.{most_item_bytes, xattr_item_length};
ghost use Rattle.flat_model.specs.Coherent.{KeepsLimits, KeepsLinkLimits};
ghost use Rattle.flat_record.specs.Reading.{target_of, with_block};
ghost use Rattle.flat_model.specs.Records.{InodeRecord, LinkRecord, FileInode, kind_of, attributes_of, with_attributes};
ghost use Rattle.flat_model.specs.Contents.{most_file_bytes, bytes_read, written, truncated};
ghost use Rattle.flat_model.specs.Operations.{file_there};
ghost use Rattle.flat_model.specs.declared.view.Kind.TheVariants as kinds;

use crate::attributes::AttributeTable;
use crate::file::File;
use blk_base::{Block, Name, OutOfMemory, Text};
use flat_model::Kind;
use std::alloc::Global;
use std::marker::Model;

/// What an inode is beside its attributes.
#[derive(Drop)]
pub(crate) enum Contents {
    /// A file.
    File(File),
    /// A directory.
    Dir,
    /// A symlink: its target.
    Link(Text),
}

/// An inode, seen as its record.
#[derive(Drop)]
pub struct Inode {
    attributes: AttributeTable,
    contents: Contents,
}

impl Model for Inode {
    ghost use Rattle.flat_model.specs.Records.{InodeRecord};
    ghost use Rattle.flat_model.specs.Codes.{inode_code};

    ghost Value = { InodeRecord };

    ghost coded = { inode_code };

    ghost use Rattle.flat_record.specs.RecordView.{record_view};

    ghost view = { λ inode. record_view inode.attributes inode.contents };
}

/// Whether a symlink's target keeps its limits: 1 to 1023 bytes (own limits).
fn is_target(target: &Text) -> bool
    ensures { (link : LinkRecord) → link.target ≡ target.now → IsTrue result ↔ KeepsLinkLimits link }
{
    let length = target.len();
    1 <= length && length <= 1023
}

impl Inode {
    ghost use Rattle.flat_record.specs.NewRecord.{record_of_kind};

    /// An inode of this kind without attributes and blocks. The size, in bytes, counts for a file alone and the target
    /// for a symlink alone.
    pub fn new(alloc: Global, kind: Kind, size: u64, target: Text) -> Inode
        ensures { result ≡ record_of_kind kind size target }
    {
        Inode {
            attributes: AttributeTable::new(alloc),
            contents: match kind {
                Kind::File => Contents::File(File::new(alloc, size)),
                Kind::Dir => Contents::Dir,
                Kind::Link => Contents::Link(target),
            },
        }
    }

    /// What kind of inode it is.
    pub fn kind(&self) -> Kind
        ensures { result ≡ kind_of self.now }
    {
        match &self.contents {
            Contents::File(_) => Kind::File,
            Contents::Dir => Kind::Dir,
            Contents::Link(_) => Kind::Link,
        }
    }

    /// The size of a file in bytes; 0 where it is no file ("INODE_ITEM": size).
    pub fn size(&self) -> u64
        ensures { result ≡ (file_there (Some self.now)).size }
    {
        match &self.contents {
            Contents::File(file) => file.size(),
            Contents::Dir => 0,
            Contents::Link(_) => 0,
        }
    }

    /// Writes a text into a file from an offset on, in bytes ("EXTENT_DATA"). Fails only for want of memory.
    pub fn write(&mut self, alloc: Global, offset: u64, text: &Text) -> Result<(), OutOfMemory>
        requires file { kind_of self.old ≡ kinds.File }
        requires few { offset + length text.now ≤ most_file_bytes }
        ensures ok { OnOk result (self.new ≡ FileInode (written (file_there (Some self.old)) offset text.now)) }
        ensures err { OnErr result (self.new ≡ self.old) }
    {
        match &mut self.contents {
            Contents::File(file) => file.write(alloc, offset, text),
            Contents::Dir => unreachable!(),
            Contents::Link(_) => unreachable!(),
        }
    }

    /// Cuts or grows a file to a size in bytes ("EXTENT_DATA", "INODE_ITEM": size). Takes no memory.
    pub fn truncate(&mut self, size: u64)
        requires file { kind_of self.old ≡ kinds.File }
        requires few { size ≤ most_file_bytes }
        ensures { self.new ≡ FileInode (truncated (file_there (Some self.old)) size) }
    {
        match &mut self.contents {
            Contents::File(file) => file.truncate(size),
            Contents::Dir => unreachable!(),
            Contents::Link(_) => unreachable!(),
        }
    }

    /// The bytes of a file from an offset on, so many of them and none past its size; none where it is no file
    /// ("EXTENT_DATA"). Fails only for want of memory.
    pub fn read(&self, alloc: Global, offset: u64, count: u64) -> Result<Text, OutOfMemory>
        ensures { IfOk result (λ text. text ≡ bytes_read (file_there (Some self.now)) offset count) }
    {
        match &self.contents {
            Contents::File(file) => file.read(alloc, offset, count),
            Contents::Dir => Ok(Text::repeat(0, 0)),
            Contents::Link(_) => Ok(Text::repeat(0, 0)),
        }
    }

    /// Whether there is an attribute of this name ("XATTR_ITEM").
    pub fn has_attribute(&self, name: &Name) -> bool
        ensures { result ≡ is_some (get (attributes_of self.now) name.now) }
    {
        self.attributes.has(name)
    }

    /// A copy of the value of an attribute, where there is one ("XATTR_ITEM"). Fails only for want of memory.
    pub fn attribute(&self, alloc: Global, name: &Name) -> Result<Option<Text>, OutOfMemory>
        ensures { IfOk result (λ value. value ≡ get (attributes_of self.now) name.now) }
    {
        self.attributes.get(alloc, name)
    }

    /// Gives an attribute a value, also in place of the one that it has ("XATTR_ITEM"). Fails only for want of memory.
    pub fn set_attribute(
        &mut self,
        alloc: Global,
        name: &Name,
        value: &Text,
    ) -> Result<(), OutOfMemory>
        ensures ok { OnOk result (self.new ≡ with_attributes self.old (insert (attributes_of self.old) name.now value.now)) }
        ensures err { OnErr result (self.new ≡ self.old) }
    {
        self.attributes.set(alloc, name, value)
    }

    /// Takes an attribute away ("XATTR_ITEM").
    pub fn remove_attribute(&mut self, name: &Name)
        ensures { self.new ≡ with_attributes self.old (remove (attributes_of self.old) name.now) }
    {
        self.attributes.remove(name);
    }

    /// Whether the XATTR_ITEM item that an attribute asks for would have more bytes than a leaf holds, once it had this
    /// value ("XATTR_ITEM", "Header"). Takes no memory.
    pub fn is_attribute_crowded(&self, name: &Name, value: &Text) -> bool
        ensures { result ≡ nat_lt most_item_bytes (xattr_item_length (insert (attributes_of self.now) name.now value.now) (name_hash_of name.now)) }
    {
        self.attributes.is_crowded(name, value)
    }

    /// Whether no XATTR_ITEM item that the attributes ask for has more bytes than a leaf holds ("XATTR_ITEM", "Header").
    pub fn attributes_fit(&self) -> bool
        ensures { IsTrue result ↔ ((hash : ℕ) → xattr_item_length (attributes_of self.now) hash ≤ most_item_bytes) }
    {
        self.attributes.do_fit()
    }

    /// Puts a block of 4096 bytes into a file, in place of the one of this number ("EXTENT_DATA"). Fails only for want of
    /// memory.
    pub fn put_block(
        &mut self,
        alloc: Global,
        number: u64,
        bytes: &Block,
    ) -> Result<(), OutOfMemory>
        requires { kind_of self.old ≡ kinds.File }
        ensures ok { OnOk result (self.new ≡ FileInode (with_block (file_there (Some self.old)) number bytes.now)) }
        ensures err { OnErr result (self.new ≡ self.old) }
    {
        match &mut self.contents {
            Contents::File(file) => file.put_block(alloc, number, bytes),
            Contents::Dir => unreachable!(),
            Contents::Link(_) => unreachable!(),
        }
    }

    /// Whether the inode keeps its limits (own limits).
    pub fn keeps_limits(&self) -> bool
        ensures { IsTrue result ↔ KeepsLimits self.now }
    {
        if !self.attributes.do_keep_limits() {
            return false;
        }
        match &self.contents {
            Contents::File(file) => file.keeps_limits(),
            Contents::Dir => true,
            Contents::Link(target) => is_target(target),
        }
    }

    /// Whether another inode has the same record.
    pub fn is_same(&self, other: &Inode) -> bool
        ensures { IsTrue result ↔ (self.now ≡ other.now) }
    {
        if !self.attributes.is_same(&other.attributes) {
            return false;
        }
        match (&self.contents, &other.contents) {
            (Contents::File(one), Contents::File(two)) => one.is_same(two),
            (Contents::Dir, Contents::Dir) => true,
            (Contents::Link(one), Contents::Link(two)) => *one == *two,
            _ => false,
        }
    }

    /// The same inode once more. Fails only for want of memory.
    pub fn copy(&self, alloc: Global) -> Result<Inode, OutOfMemory>
        ensures { IfOk result (λ inode. inode ≡ self.now) }
    {
        let attributes = self.attributes.copy(alloc)?;
        let contents = match &self.contents {
            Contents::File(file) => Contents::File(file.copy(alloc)?),
            Contents::Dir => Contents::Dir,
            Contents::Link(target) => Contents::Link(target.copy(alloc)?),
        };
        Ok(Inode {
            attributes,
            contents,
        })
    }

    /// How many blocks of a file are no holes; 0 where it is no file ("EXTENT_DATA").
    pub fn block_count(&self) -> usize
        ensures { result ≡ length (entries (file_there (Some self.now)).blocks) }
    {
        match &self.contents {
            Contents::File(file) => file.block_count(),
            Contents::Dir => 0,
            Contents::Link(_) => 0,
        }
    }

    /// The number and the 4096 bytes of a file's block at this place, counted from 0 in the order of the numbers
    /// ("EXTENT_DATA").
    pub fn block(&self, place: usize) -> (u64, &[u8])
        requires { place < length (entries (file_there (Some self.now)).blocks) }
        ensures { (result.0, result.1.now) ≡ slice_index_or (entries (file_there (Some self.now)).blocks) place (result.0, result.1.now) }
    {
        match &self.contents {
            Contents::File(file) => file.block(place),
            Contents::Dir => unreachable!(),
            Contents::Link(_) => unreachable!(),
        }
    }

    /// How many attributes the inode has ("XATTR_ITEM").
    pub fn attribute_count(&self) -> usize
        ensures { result ≡ length (entries (attributes_of self.now)) }
    {
        self.attributes.len()
    }

    /// The name and the value of the attribute at this place, counted from 0 in the order of the names' bytes
    /// ("XATTR_ITEM").
    pub fn attribute_at(&self, place: usize) -> (&Name, &Text)
        requires { place < length (entries (attributes_of self.now)) }
        ensures { (result.0.now, result.1.now) ≡ slice_index_or (entries (attributes_of self.now)) place (result.0.now, result.1.now) }
    {
        self.attributes.entry(place)
    }

    /// The target of a symlink, and none of another inode (inline "EXTENT_DATA").
    pub fn target(&self) -> Option<&Text>
        ensures { option_copied result ≡ target_of self.now }
    {
        match &self.contents {
            Contents::File(_) => None,
            Contents::Dir => None,
            Contents::Link(target) => Some(target),
        }
    }
}
