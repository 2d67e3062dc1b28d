//! The lines of an inode.
ghost use Rattle.std.specs.Prelude.{◌≡◌, ◌++◌, ℕ, List, OnOk, IfOk, Some, None, option_map};
ghost use Rattle.std.specs.FinMap.{get};
ghost use Rattle.std.specs.List.{flat_map};
ghost use Rattle.current_view.specs.View.{seen};
ghost use Rattle.flat_model.specs.Records.{InodeRecord, kind_of};
ghost use Rattle.io_edge.specs.Printed.{printed};
ghost use Rattle.item_inode.specs.Inode.{inode_view};
ghost use Rattle.name_walk.specs.Given.{GivesCoherent};
ghost use Rattle.volume_image.specs.Subvolume.{mode_of};
ghost use Rattle.volume_listing.specs.Listing.{line_of, lines_at, step_shown, sum_shown, target_shown, word};
ghost use Rattle.inode_shown.specs.Words.{IsItemOf};

use crate::attributes::put_attributes;
use crate::contents::{sum_of, target_of};
use crate::words::{put_kind_word, put_number_word, put_path};
use blk_base::format::{DIR_MODE, FILE_MODE};
use blk_base::{Ino, OutOfMemory};
use block_table::{BlockTable, Tree};
use flat_model::Kind;
use io_edge::{push_printed, push_sum};
use item_inode::InodeItem;
use name_walk::inode_item;
use std::alloc::Global;

/// The kind of inode that an inode item tells by its mode.
fn kind_told(item: &InodeItem) -> Kind
    ensures { (inode : InodeRecord) → item.now.mode ≡ mode_of inode → result ≡ kind_of inode }
{
    match item.mode {
        FILE_MODE => Kind::File,
        DIR_MODE => Kind::Dir,
        _ => Kind::Link,
    }
}

/// Adds the sum that a line shows, and a space.
fn put_sum_word(
    text: &mut Vec<u8>,
    table: &BlockTable,
    tree: &Tree,
    ino: u64,
    item: &InodeItem,
) -> Result<(), OutOfMemory>
    requires { GivesCoherent table.now tree.now (seen table.now tree.now) }
    ensures { (inode : InodeRecord) → IsItemOf (seen table.now tree.now) ino inode (inode_view item.now)
        → OnOk result (text.new.items ≡ text.old.items ++ word (sum_shown inode)) }
{
    match kind_told(item) {
        Kind::File => {
            push_sum(text, sum_of(table, tree, Ino(ino), item.size))?;
            text.push(b' ')?;
        }
        Kind::Dir | Kind::Link => text.extend_from_slice(b"- ")?,
    }
    Ok(())
}

/// Adds a symlink's target behind a space.
fn put_target(
    text: &mut Vec<u8>,
    table: &BlockTable,
    tree: &Tree,
    ino: u64,
    item: &InodeItem,
) -> Result<(), OutOfMemory>
    requires { GivesCoherent table.now tree.now (seen table.now tree.now) }
    ensures { (inode : InodeRecord) → IsItemOf (seen table.now tree.now) ino inode (inode_view item.now)
        → OnOk result (text.new.items ≡ text.old.items ++ target_shown inode) }
{
    match kind_told(item) {
        Kind::Link => {
            text.push(b' ')?;
            push_printed(text, target_of(table, tree, ino).unwrap_or(&[]))
        }
        Kind::File | Kind::Dir => Ok(()),
    }
}

/// Adds the line of an inode at the end of a path.
fn put_line(
    alloc: Global,
    text: &mut Vec<u8>,
    table: &BlockTable,
    tree: &Tree,
    ino: u64,
    item: &InodeItem,
    path: &[u8],
) -> Result<(), OutOfMemory>
    requires { GivesCoherent table.now tree.now (seen table.now tree.now) }
    ensures { (inode : InodeRecord) (steps : List (List ℕ)) → IsItemOf (seen table.now tree.now) ino inode (inode_view item.now)
        → path.now ≡ flat_map step_shown steps
        → OnOk result (text.new.items ≡ text.old.items ++ line_of (seen table.now tree.now) (record { path = steps; ino = ino }) inode) }
{
    put_number_word(alloc, text, ino)?;
    put_kind_word(text, kind_told(item))?;
    put_number_word(alloc, text, u64::from(item.nlink))?;
    put_number_word(alloc, text, item.size)?;
    put_sum_word(text, table, tree, ino, item)?;
    put_path(text, path)?;
    put_target(text, table, tree, ino, item)?;
    text.push(b'\n')?;
    Ok(())
}

/// Adds the lines of the inode of a subvolume that stands at the end of a path, which is given as its text, each name
/// behind a slash, and is empty for the root directory: the line of the inode, and those of its attributes in the order of
/// the bytes of their names. Answers the inode's kind; where no inode has the number nothing is added. Fails only for want
/// of memory (own).
pub fn put_inode(
    alloc: Global,
    text: &mut Vec<u8>,
    table: &BlockTable,
    tree: &Tree,
    ino: u64,
    path: &[u8],
) -> Result<Option<Kind>, OutOfMemory>
    requires { GivesCoherent table.now tree.now (seen table.now tree.now) }
    ensures text { (steps : List (List ℕ)) → path.now ≡ flat_map step_shown steps
        → OnOk result (text.new.items ≡ text.old.items ++ lines_at (seen table.now tree.now) (record { path = steps; ino = ino })) }
    ensures kind { IfOk result (λ kind. kind ≡ option_map kind_of (get (seen table.now tree.now).inodes ino)) }
{
    match inode_item(table, tree, ino) {
        Some(item) => {
            put_line(alloc, text, table, tree, ino, &item, path)?;
            put_attributes(alloc, text, table, tree, ino)?;
            Ok(Some(kind_told(&item)))
        }
        None => Ok(None),
    }
}
