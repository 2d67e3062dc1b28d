ghost use Rattle.std.specs.Prelude.{◌≡◌, ◌≢◌, ◌+◌, ◌<◌, ◌^◌, ◌⊎◌, [], length};
ghost use Rattle.blk_base.specs.Bytes.{number_bytes};
ghost use Rattle.blk_base.specs.Entries.{attr_entry, dir_entry, entry_bytes, file_entry, link_entry};
ghost use Rattle.blk_base.specs.Name.{IsName};
ghost use Rattle.item_dir.specs.Entry.{entry_view};

use crate::entry::Entry;
use blk_base::format::RANGE_SIZE;
use blk_base::{put_bytes, put_u8, put_u16, put_u64};

/// Writes an entry of a directory or an attribute. `into` has 30 bytes more than the name and the value together.
pub fn put_entry(entry: &Entry<'_>, into: &mut [u8])
    requires name { IsName entry.now.name.now }
    requires kind { (entry.now.kind ≡ file_entry) ⊎ (entry.now.kind ≡ dir_entry) ⊎ (entry.now.kind ≡ link_entry) ⊎ (entry.now.kind ≡ attr_entry) }
    requires plain { entry.now.kind ≢ attr_entry → entry.now.value.now ≡ [] }
    requires fits { length entry.now.value.now < 2 ^ 16 }
    requires room { length into.old ≡ 30 + length entry.now.name.now + length entry.now.value.now }
    ensures { into.new ≡ entry_bytes (entry_view entry.now) }
{
    let name_end = 30 + entry.name.len();
    put_u64(into, 0, entry.target.objectid);
    put_u8(into, 8, entry.target.kind);
    put_u64(into, 9, entry.target.offset);
    put_u64(into, 17, entry.transid);
    put_u16(into, 25, entry.value.len() as u16);
    put_u16(into, 27, entry.name.len() as u16);
    put_u8(into, 29, entry.kind);
    put_bytes(into, 30, entry.name);
    put_bytes(into, name_end, entry.value);
}

/// Writes the last index of a range of a log.
pub fn put_range(end: u64, into: &mut [u8])
    requires { length into.old ≡ RANGE_SIZE }
    ensures { into.new ≡ number_bytes 8 end }
{
    put_u64(into, 0, end);
}
