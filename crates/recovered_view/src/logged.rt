//! The inodes and names that a log has.
ghost use Rattle.std.specs.Prelude.{◌≡◌, ◌≢◌, ◌++◌, Bool, Contains, Some, OnOk, IfOk, map, filter, option_map};
ghost use Rattle.std.specs.List.{find};
ghost use Rattle.blk_base.specs.Items.{InodeValue, IsInode};
ghost use Rattle.blk_base.specs.Keys.{inode_item};
ghost use Rattle.blk_base.specs.Name.{IsName};
ghost use Rattle.flat_model.specs.Names.{FlatName};
ghost use Rattle.flat_model.specs.Unmarked.{unmarked};
ghost use Rattle.inode_lines.specs.Refs.{name_of};
ghost use Rattle.logged_volume.specs.FlatLog.{is_logged};
ghost use Rattle.tree_check.specs.Items.{HaveKeys};
ghost use Rattle.tree_range.specs.Between.{data_under, data_view};
ghost use Rattle.volume_image.specs.Subvolume.{make_key};
ghost use Rattle.log_image.specs.LogItems.{inode_in, names_in};
ghost use Rattle.tree_range.specs.Shape.{IsTree, tree_items};
ghost use Rattle.recovered_view.specs.Log.{SaysLog, log_said};
ghost use Rattle.recovered_view.specs.Sought.{is_sought, CanBeSought};
ghost use Rattle.recovered_view.specs.Wanted.{is_wanted};

use crate::sought::{Sought, find_name};
use blk_base::format::INODE_ITEM;
use blk_base::{Ino, Key, Name, OutOfMemory, name_hash};
use block_table::{BlockTable, Tree};
use coherent_names::{every_item, names_of};
use flat_model::NameAt;
use inode_lines::Ref;
use item_inode::InodeItem;
use std::alloc::Global;
use tree_range::get;

/// The data of the inode item that the log has of an inode: one search ("INODE_ITEM").
fn inode_bytes<'t>(table: &'t BlockTable, log: &Tree, ino: u64) -> Option<&'t [u8]>
    requires { IsTree table.now log.now }
    ensures { data_view result ≡ data_under (make_key ino inode_item 0) (tree_items table.now log.now) }
{
    let key = Key {
        objectid: ino,
        kind: INODE_ITEM,
        offset: 0,
    };
    get(table, log, &key)
}

/// Whether the log has an inode, whole or existing: one search.
pub(crate) fn is_logged(table: &BlockTable, log: &Tree, ino: u64) -> bool
    requires { SaysLog table.now log.now (log_said table.now (Some log.now)) }
    ensures { result ≡ is_logged (log_said table.now (Some log.now)) ino }
{
    inode_bytes(table, log, ino).is_some()
}

/// The mode of an inode that the log has: one search.
pub(crate) fn logged_mode(table: &BlockTable, log: &Tree, ino: u64) -> Option<u32>
    requires { SaysLog table.now log.now (log_said table.now (Some log.now)) }
    ensures { result ≡ option_map (λ v. v.mode) (inode_in (tree_items table.now log.now) ino) }
{
    match inode_bytes(table, log, ino) {
        Some(bytes) => mode_in(bytes),
        None => None,
    }
}

/// The mode that an inode item says, octal 100644 of a file, 40755 of a directory, 120777 of a symlink.
fn mode_in(bytes: &[u8]) -> Option<u32>
    ensures { (value : InodeValue) → IsInode bytes.now value → result ≡ Some value.mode }
{
    match InodeItem::decode(bytes) {
        Ok(item) => Some(item.mode),
        Err(_) => None,
    }
}

/// The inode of the first name in the log that is looked for: a pass over the log, without memory.
pub(crate) fn find_logged(table: &BlockTable, log: &Tree, sought: &Sought<'_>) -> Option<u64>
    requires log { SaysLog table.now log.now (log_said table.now (Some log.now)) }
    requires keys { HaveKeys (tree_items table.now log.now) }
    requires sought { CanBeSought sought.now }
    ensures { result ≡ option_map (λ n. n.ino) (find (is_sought sought.now) (names_in (tree_items table.now log.now))) }
{
    find_name(every_item(table, log), sought)
}

/// Which names of the log are asked for.
#[derive(Clone, Copy)]
pub(crate) enum Wanted {
    /// Those of an inode.
    Of(Ino),
    /// Those in a directory.
    In(Ino),
    /// Those in a directory whose bytes have this hash.
    Hashed(Ino, u32),
}

/// Whether a name is asked for.
fn is_wanted(wanted: Wanted, name: &Ref<'_>) -> bool
    ensures { (near : Bool) → result ≡ is_wanted wanted (name_of name.now near) }
{
    match wanted {
        Wanted::Of(ino) => name.ino == ino,
        Wanted::In(dir) => name.dir == dir,
        Wanted::Hashed(dir, hash) => name.dir == dir && name_hash(name.name) == hash,
    }
}

/// A name as it is handed out.
fn copy_of(alloc: Global, name: &Ref<'_>) -> Result<NameAt, OutOfMemory>
    requires { IsName name.now.name.now }
    ensures { (near : Bool) → IfOk result (λ at. at ≡ unmarked (name_of name.now near)) }
{
    Ok(NameAt {
        dir: name.dir,
        index: name.index,
        name: Name::new(alloc, name.name)?,
        ino: name.ino,
    })
}

/// Adds the names of the log that are asked for to a list: a pass over the log.
pub(crate) fn add_logged(
    alloc: Global,
    table: &BlockTable,
    log: &Tree,
    wanted: Wanted,
    names: &mut Vec<NameAt>,
) -> Result<(), OutOfMemory>
    requires log { SaysLog table.now log.now (log_said table.now (Some log.now)) }
    requires keys { HaveKeys (tree_items table.now log.now) }
    requires unnamed { (name : FlatName) → Contains (log_said table.now (Some log.now)).names name → name.ino ≢ 256 }
    ensures { OnOk result (names.new.items ≡ names.old.items ++ map unmarked (filter (is_wanted wanted) (names_in (tree_items table.now log.now)))) }
{
    let logged = names_of(alloc, table, log)?;
    for name in logged {
        if is_wanted(wanted, &name.found) {
            names.push(copy_of(alloc, &name.found)?)?;
        }
    }
    Ok(())
}
