//! The attributes of an inode in the order of the bytes of their names.
ghost use Rattle.std.specs.Prelude.{◌≡◌, ◌++◌, [], OnOk, IfOk, Some, map};
ghost use Rattle.std.specs.FinMap.{get, entries};
ghost use Rattle.std.specs.List.{flat_map};
ghost use Rattle.flat_model.specs.Records.{InodeRecord, attributes_of};
ghost use Rattle.current_view.specs.View.{seen};
ghost use Rattle.name_walk.specs.Given.{GivesCoherent};
ghost use Rattle.tree_range.specs.Shape.{IsTree, tree_items};
ghost use Rattle.volume_listing.specs.Listing.{attribute_line, attribute_lines};
ghost use Rattle.inode_shown.specs.Attributes.{attribute_told, attributes_between, attributes_told, lent_pairs};
ghost use Rattle.inode_shown.specs.Putting.{all_put};

use blk_base::format::XATTR_ITEM;
use blk_base::{Key, OutOfMemory};
use block_table::{BlockTable, Tree};
use io_edge::push_printed;
use item_dir::Entries;
use std::alloc::Global;
use std::collections::BTreeMap;
use tree_range::range;

/// The values of attributes by their names.
type Attributes<'t> = BTreeMap<&'t [u8], &'t [u8]>;

/// Adds the attributes of entries.
fn add_entries<'t>(entries: Entries<'t>, attributes: &mut Attributes<'t>) -> Result<(), OutOfMemory>
    ensures { OnOk result (lent_pairs attributes.new.entries ≡ all_put (lent_pairs attributes.old.entries) (map attribute_told entries.entry)) }
{
    for entry in entries {
        attributes.insert(entry.name, entry.value)?;
    }
    Ok(())
}

/// Adds the attributes that an item says.
fn add_item<'t>(bytes: &'t [u8], attributes: &mut Attributes<'t>) -> Result<(), OutOfMemory>
    ensures { OnOk result (lent_pairs attributes.new.entries ≡ all_put (lent_pairs attributes.old.entries) (attributes_told bytes.now)) }
{
    match Entries::open(XATTR_ITEM, bytes) {
        Ok(entries) => add_entries(entries, attributes),
        Err(_) => Ok(()),
    }
}

/// The attributes that an inode's items say ("XATTR_ITEM").
fn attributes_in<'t>(
    alloc: Global,
    table: &'t BlockTable,
    tree: &Tree,
    ino: u64,
) -> Result<Attributes<'t>, OutOfMemory>
    requires { IsTree table.now tree.now }
    ensures { IfOk result (λ attributes. lent_pairs attributes.entries ≡ all_put [] (attributes_between (tree_items table.now tree.now) ino)) }
{
    let first = Key {
        objectid: ino,
        kind: XATTR_ITEM,
        offset: 0,
    };
    let last = Key {
        offset: u64::MAX,
        ..first
    };
    let mut attributes = BTreeMap::new(alloc);
    for (_, bytes) in range(table, tree, &first, &last) {
        add_item(bytes, &mut attributes)?;
    }
    Ok(attributes)
}

/// Adds the line of an attribute.
fn put_attribute(text: &mut Vec<u8>, name: &[u8], value: &[u8]) -> Result<(), OutOfMemory>
    ensures { OnOk result (text.new.items ≡ text.old.items ++ attribute_line (name.now, value.now)) }
{
    text.extend_from_slice(b" attr ")?;
    push_printed(text, name)?;
    text.push(b' ')?;
    push_printed(text, value)?;
    text.push(b'\n')?;
    Ok(())
}

/// Adds the lines of attributes.
fn put_all(text: &mut Vec<u8>, attributes: Attributes<'_>) -> Result<(), OutOfMemory>
    ensures { OnOk result (text.new.items ≡ text.old.items ++ flat_map attribute_line (lent_pairs attributes.entry.entries)) }
{
    let mut left = attributes;
    while let Some((name, value)) = left.pop_first() {
        put_attribute(text, name, value)?;
    }
    Ok(())
}

/// Adds the lines of an inode's attributes.
pub(crate) fn put_attributes(
    alloc: Global,
    text: &mut Vec<u8>,
    table: &BlockTable,
    tree: &Tree,
    ino: u64,
) -> Result<(), OutOfMemory>
    requires { GivesCoherent table.now tree.now (seen table.now tree.now) }
    ensures { (inode : InodeRecord) → get (seen table.now tree.now).inodes ino ≡ Some inode
        → OnOk result (text.new.items ≡ text.old.items ++ attribute_lines (attributes_of inode)) }
{
    put_all(text, attributes_in(alloc, table, tree, ino)?)
}
