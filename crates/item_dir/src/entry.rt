ghost use Rattle.std.specs.Prelude.{◌≡◌};
ghost use Rattle.blk_base.specs.Entries.{entry_from};
ghost use Rattle.item_dir.specs.Entry.{first_entry_view};

use blk_base::{Key, u8_at, u16_at, u64_at};

/// An entry of a directory or an attribute. Name and value are parts of the item's bytes ("DIR_ITEM" of the on-disk
/// format).
#[derive(Clone, Copy, Debug, PartialEq, Eq)]
pub struct Entry<'a> {
    /// The key of the inode item that the entry leads to; zero of an attribute.
    pub target: Key,
    /// The transaction that made it.
    pub transid: u64,
    /// 1 of a file, 2 of a directory, 7 of a symlink, 8 of an attribute.
    pub kind: u8,
    /// 1 to 255 bytes.
    pub name: &'a [u8],
    /// Of an attribute alone.
    pub value: &'a [u8],
}

/// The entry at the front, and the bytes behind it, where the entry doesn't pass the end.
#[tactic(auto, unfolding(blk_base::specs::Entries::entry_from))]
pub fn first_entry<'a>(bytes: &'a [u8]) -> Option<(Entry<'a>, &'a [u8])>
    ensures { first_entry_view result ≡ entry_from bytes.now }
{
    if bytes.len() < 30 {
        return None;
    }
    let name_end = 30 + u16_at(bytes, 27) as usize;
    let end = name_end + u16_at(bytes, 25) as usize;
    if bytes.len() < end {
        return None;
    }
    let entry = Entry {
        target: Key {
            objectid: u64_at(bytes, 0),
            kind: u8_at(bytes, 8),
            offset: u64_at(bytes, 9),
        },
        transid: u64_at(bytes, 17),
        kind: u8_at(bytes, 29),
        name: &bytes[30..name_end],
        value: &bytes[name_end..end],
    };
    Some((entry, &bytes[end..]))
}
