//! The names that items of a tree tell.
ghost use Rattle.std.specs.Prelude.{◌≡◌, ◌≢◌, ◌++◌, ◌==◌, ℕ, All, List, [], OnOk, Some, map, if◌then◌else◌, IfOk, IsPermutation};
ghost use Rattle.std.specs.List.{flat_map};
ghost use Rattle.blk_base.specs.Entries.{EntryValue};
ghost use Rattle.blk_base.specs.Keys.{dir_index, inode_ref, inode_extref};
ghost use Rattle.blk_base.specs.Name.{IsName};
ghost use Rattle.flat_model.specs.Names.{FlatName, names_of};
ghost use Rattle.flat_model.specs.Unmarked.{unmarked};
ghost use Rattle.image_faults.specs.Said.{read_list};
ghost use Rattle.item_dir.specs.Entry.{entry_view};
ghost use Rattle.name_walk.specs.Given.{GivesCoherent};
ghost use Rattle.name_walk.specs.Leads.{LeadsTo};
ghost use Rattle.tree_range.specs.Between.{item_view, items_between};
ghost use Rattle.tree_range.specs.Shape.{IsTree, tree_items};
ghost use Rattle.volume_image.specs.Subvolume.{make_key};
ghost use Rattle.current_view.specs.Told.{entry_told, far_told, held_told, indexed_told, indexes_of, name_told, near_told, refs_of, refs_told};
ghost use Rattle.current_view.specs.View.{seen};

use blk_base::format::{DIR_INDEX, FIRST_FREE, INODE_EXTREF, INODE_REF};
use blk_base::{Ino, Key, Name, OutOfMemory};
use block_table::{BlockTable, Tree};
use flat_model::NameAt;
use item_dir::{Entries, Entry};
use item_inode::{ExtRefs, Refs};
use name_walk::held_at;
use std::alloc::Global;
use tree_range::range;

/// The name of an entry at an index ("DIR_INDEX" of the on-disk format).
fn entry_name(alloc: Global, key: &Key, entry: &Entry<'_>) -> Result<NameAt, OutOfMemory>
    requires { IsName entry.now.name.now }
    ensures { IfOk result (λ at. at ≡ entry_told key.now (entry_view entry.now)) }
{
    Ok(NameAt {
        dir: Ino(key.objectid),
        index: key.offset,
        name: Name::new(alloc, entry.name)?,
        ino: Ino(entry.target.objectid),
    })
}

/// The name of a ref, whose directory and inode are given ("INODE_REF", "INODE_EXTREF" of the on-disk format).
fn ref_name(
    alloc: Global,
    dir: u64,
    index: u64,
    name: &[u8],
    ino: u64,
) -> Result<NameAt, OutOfMemory>
    requires { IsName name.now }
    ensures { IfOk result (λ at. at ≡ name_told dir index name.now ino) }
{
    Ok(NameAt {
        dir: Ino(dir),
        index,
        name: Name::new(alloc, name)?,
        ino: Ino(ino),
    })
}

/// Adds the names of the entries of an item at an index to a list.
fn add_entries(
    alloc: Global,
    key: &Key,
    entries: Entries<'_>,
    names: &mut Vec<NameAt>,
) -> Result<(), OutOfMemory>
    requires { All (λ e. IsName e.name) entries }
    ensures { OnOk result (names.new.items ≡ names.old.items ++ map (entry_told key.now) entries.entry) }
{
    for entry in entries {
        names.push(entry_name(alloc, key, &entry)?)?;
    }
    Ok(())
}

/// Adds the names that an item of an index says to a list.
fn add_indexed(
    alloc: Global,
    key: &Key,
    bytes: &[u8],
    names: &mut Vec<NameAt>,
) -> Result<(), OutOfMemory>
    ensures { OnOk result (names.new.items ≡ names.old.items ++ indexed_told (key.now, bytes.now)) }
{
    match Entries::open(DIR_INDEX, bytes) {
        Ok(entries) => add_entries(alloc, key, entries, names),
        Err(_) => Ok(()),
    }
}

/// The names in a directory, by rising indexes.
pub(crate) fn indexed_names(
    alloc: Global,
    table: &BlockTable,
    tree: &Tree,
    dir: Ino,
) -> Result<Vec<NameAt>, OutOfMemory>
    requires { IsTree table.now tree.now }
    ensures { IfOk result (λ names. names.items ≡ flat_map indexed_told (indexes_of (tree_items table.now tree.now) dir.0)) }
{
    let first = Key {
        objectid: dir.0,
        kind: DIR_INDEX,
        offset: 0,
    };
    let last = Key {
        offset: u64::MAX,
        ..first
    };
    let mut names = Vec::new(alloc);
    for (key, bytes) in range(table, tree, &first, &last) {
        add_indexed(alloc, &key, bytes, &mut names)?;
    }
    Ok(names)
}

/// Adds near names to a list.
fn add_near(
    alloc: Global,
    key: &Key,
    refs: Refs<'_>,
    names: &mut Vec<NameAt>,
) -> Result<(), OutOfMemory>
    requires { All (λ r. IsName r.name) refs }
    ensures { OnOk result (names.new.items ≡ names.old.items ++ map (near_told key.now) refs.entry) }
{
    for (index, name) in refs {
        names.push(ref_name(alloc, key.offset, index, name, key.objectid)?)?;
    }
    Ok(())
}

/// Adds far names to a list.
fn add_far(
    alloc: Global,
    key: &Key,
    refs: ExtRefs<'_>,
    names: &mut Vec<NameAt>,
) -> Result<(), OutOfMemory>
    requires { All (λ r. IsName r.name) refs }
    ensures { OnOk result (names.new.items ≡ names.old.items ++ map (far_told key.now) refs.entry) }
{
    for (dir, index, name) in refs {
        names.push(ref_name(alloc, dir.0, index, name, key.objectid)?)?;
    }
    Ok(())
}

/// Adds the names that an item of refs says to a list.
fn add_refs(
    alloc: Global,
    key: &Key,
    bytes: &[u8],
    names: &mut Vec<NameAt>,
) -> Result<(), OutOfMemory>
    requires { key.now.objectid ≢ 256 }
    ensures { OnOk result (names.new.items ≡ names.old.items ++ refs_told (key.now, bytes.now)) }
{
    if key.kind == INODE_REF {
        return match Refs::open(key, bytes) {
            Ok(refs) => add_near(alloc, key, refs, names),
            Err(_) => Ok(()),
        };
    }
    match ExtRefs::open(bytes) {
        Ok(refs) => add_far(alloc, key, refs, names),
        Err(_) => Ok(()),
    }
}

/// The names of an inode other than the root directory, near ones by their directories, and then far ones by their hashes.
fn named_by_refs(
    alloc: Global,
    table: &BlockTable,
    tree: &Tree,
    ino: Ino,
) -> Result<Vec<NameAt>, OutOfMemory>
    requires tree { IsTree table.now tree.now }
    requires not_root { ino.0 ≢ 256 }
    ensures { IfOk result (λ names. names.items ≡ flat_map refs_told (refs_of (tree_items table.now tree.now) ino.0)) }
{
    let first = Key {
        objectid: ino.0,
        kind: INODE_REF,
        offset: 0,
    };
    let last = Key {
        objectid: ino.0,
        kind: INODE_EXTREF,
        offset: u64::MAX,
    };
    let mut names = Vec::new(alloc);
    for (key, bytes) in range(table, tree, &first, &last) {
        add_refs(alloc, &key, bytes, &mut names)?;
    }
    Ok(names)
}

/// The names of an inode, none where it is the root directory's.
pub(crate) fn ref_names(
    alloc: Global,
    table: &BlockTable,
    tree: &Tree,
    ino: Ino,
) -> Result<Vec<NameAt>, OutOfMemory>
    requires { GivesCoherent table.now tree.now (seen table.now tree.now) }
    ensures { IfOk result (λ names. IsPermutation (map unmarked (names_of (seen table.now tree.now).names ino.0)) names.items) }
{
    if ino.0 == FIRST_FREE {
        return Ok(Vec::new(alloc));
    }
    named_by_refs(alloc, table, tree, ino)
}

/// The name of an entry of a directory: a search or two for its index.
fn held_name(
    alloc: Global,
    table: &BlockTable,
    tree: &Tree,
    dir: Ino,
    entry: &Entry<'_>,
) -> Result<NameAt, OutOfMemory>
    requires given { GivesCoherent table.now tree.now (seen table.now tree.now) }
    requires name { IsName entry.now.name.now }
    requires leads { (there : FlatName) × LeadsTo (seen table.now tree.now) dir.0 entry.now.name.now entry.now.target.objectid there }
    ensures { IfOk result (λ at. at ≡ held_told (seen table.now tree.now) dir.0 (entry_view entry.now)) }
{
    let ino = entry.target.objectid;
    let held = held_at(table, tree, dir.0, entry.name, ino);
    ref_name(alloc, dir.0, held.index, entry.name, ino)
}

/// The names of entries of a directory, in their order.
pub(crate) fn held_names(
    alloc: Global,
    table: &BlockTable,
    tree: &Tree,
    dir: Ino,
    entries: Entries<'_>,
) -> Result<Vec<NameAt>, OutOfMemory>
    requires given { GivesCoherent table.now tree.now (seen table.now tree.now) }
    requires names { All (λ e. IsName e.name) entries }
    requires leads { All (λ e. (there : FlatName) × LeadsTo (seen table.now tree.now) dir.0 e.name e.target.objectid there) entries }
    ensures { IfOk result (λ names. names.items ≡ map (held_told (seen table.now tree.now) dir.0) entries.entry) }
{
    let mut names = Vec::new(alloc);
    for entry in entries {
        names.push(held_name(alloc, table, tree, dir, &entry)?)?;
    }
    Ok(names)
}
