ghost use Rattle.std.specs.Prelude.{◌≡◌, IfOk, IsTrue};
ghost use Rattle.blk_base.specs.Name.{IsName, is_name as name_test};
ghost use Rattle.foreign_format.specs.Items.{entry_of, entry_view, kind_of};

use crate::bytes::u8_at;
use blk_base::{ItemFault, is_name, u16_at, u64_at};

/// What a name in a directory leads to, by its entry.
#[derive(Clone, Copy, Debug, PartialEq, Eq)]
pub enum EntryKind {
    File,
    Dir,
    Chr,
    Blk,
    Fifo,
    Sock,
    Link,
    /// Another subvolume.
    Sub,
}

/// An entry of a directory: the number of the inode, or of the subvolume, that its name leads to. The name is a part of
/// the item's bytes.
#[derive(Clone, Copy, Debug, PartialEq, Eq)]
pub struct Entry<'a> {
    pub to: u64,
    pub kind: EntryKind,
    pub name: &'a [u8],
}

/// What an entry of this type leads to, where its key has this type.
fn kind_of(key_kind: u8, kind: u8) -> Option<EntryKind>
    ensures { result ≡ kind_of key_kind kind }
{
    let known = match kind {
        1 => EntryKind::File,
        2 => EntryKind::Dir,
        3 => EntryKind::Chr,
        4 => EntryKind::Blk,
        5 => EntryKind::Fifo,
        6 => EntryKind::Sock,
        7 => EntryKind::Link,
        _ => return None,
    };
    if key_kind == 132 {
        return Some(EntryKind::Sub);
    }
    Some(known)
}

/// Whether the bytes may be the name of a file.
fn is_plain_name(name: &[u8]) -> bool
    ensures value { result ≡ name_test name.now }
    ensures name { IsTrue result → IsName name.now }
{
    is_name(name)
}

/// The one entry of an item, or the first check that the item fails, in the order Size, Cut, Size, NameLen, Kind
/// ("DIR_INDEX" of the on-disk format). Data behind the name aren't looked at.
#[tactic(auto, unfolding(crate::specs::Items::entry_of))]
pub fn read_entry<'a>(item: &'a [u8]) -> Result<Entry<'a>, ItemFault>
    ensures value { entry_view result ≡ entry_of item.now }
    ensures name { IfOk result (λ entry. IsName entry.name.now) }
{
    if item.is_empty() {
        return Err(ItemFault::Size);
    }
    if item.len() < 30 {
        return Err(ItemFault::Cut);
    }
    let name_end = 30 + u16_at(item, 27) as usize;
    let end = name_end + u16_at(item, 25) as usize;
    if item.len() < end {
        return Err(ItemFault::Cut);
    }
    if end < item.len() {
        return Err(ItemFault::Size);
    }
    let name = &item[30..name_end];
    if !is_plain_name(name) {
        return Err(ItemFault::NameLen);
    }
    match kind_of(u8_at(item, 8), u8_at(item, 29)) {
        Some(kind) => Ok(Entry {
            to: u64_at(item, 0),
            kind,
            name,
        }),
        None => Err(ItemFault::Kind),
    }
}
