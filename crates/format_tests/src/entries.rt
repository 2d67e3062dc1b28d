use blk_base::{ItemFault, Key, is_name};
use item_dir::{DirRange, Entries, Entry, put_entry, put_range};

/// An entry that leads to file 257, of transaction 2.
const FILE: Entry<'static> = Entry {
    target: Key {
        objectid: 257,
        kind: 1,
        offset: 0,
    },
    transid: 2,
    kind: 1,
    name: b"a",
    value: b"",
};

#[test]
fn entries_as_bytes(rt: HostRuntime) {
    assert!(rt; is_name(b"a"));
    let mut bytes = [255; 31];
    put_entry(&FILE, &mut bytes);
    let row = b"\x01\x01\0\0\0\0\0\0\x01\0\0\0\0\0\0\0\0\x02\0\0\0\0\0\0\0\0\0\x01\0\x01a";
    assert_eq!(rt; bytes.as_slice(), row.as_slice());
    let Ok(mut entries) = Entries::open(96, &bytes) else {
        assert!(rt; false, "an entry");
        return;
    };
    assert_eq!(rt; entries.next(), Some(FILE));
    assert_eq!(rt; entries.next(), None);

    let mut range = [0; 8];
    put_range(u64::MAX, &mut range);
    assert_eq!(rt; DirRange::decode(&range), Ok(u64::MAX));
    assert_eq!(rt; DirRange::decode(&range[..7]), Err(ItemFault::Size));
    assert_eq!(rt; DirRange::decode(b""), Err(ItemFault::Size));
    assert_eq!(rt;
        DirRange::decode(b"\0\0\0\0\0\0\0\0\0"),
        Err(ItemFault::Size)
    );
}

/// The entries `a` of a file and `bc` of a directory, and zeros.
fn two_entries() -> [u8; 80] {
    *b"\x01\x01\0\0\0\0\0\0\x01\0\0\0\0\0\0\0\0\x02\0\0\0\0\0\0\0\0\0\x01\0\x01a\x02\x01\0\0\0\0\0\0\x01\0\0\0\0\0\0\0\0\x02\0\0\0\0\0\0\0\0\0\x02\0\x02bc\0\0\0\0\0\0\0\0\0\0\0\0\0\0\0\0\0"
}

/// The first fault of an item that was changed at a place below 80 and cut to a length below 80.
fn changed(
    bytes: &mut [u8; 80],
    kind: u8,
    length: usize,
    at: usize,
    value: u8,
) -> Option<ItemFault> {
    bytes[at % 80] = value;
    Entries::open(kind, &bytes[..length % 80]).err()
}

#[test]
fn changed_items(rt: HostRuntime) {
    let size = Some(ItemFault::Size);
    let cut = Some(ItemFault::Cut);
    let name = Some(ItemFault::NameLen);
    let bad_kind = Some(ItemFault::Kind);
    let twice = Some(ItemFault::Twice);
    for (kind, length, at, value, want) in [
        (84, 0, 0, 1, size),
        (84, 1, 0, 1, cut),
        (84, 29, 0, 1, cut),
        (84, 30, 0, 1, cut),
        (84, 31, 0, 1, None),
        (84, 32, 0, 1, cut),
        (84, 62, 0, 1, cut),
        (84, 63, 0, 1, None),
        (84, 64, 0, 1, cut),
        (84, 30, 27, 0, name),
        (84, 31, 28, 1, cut),
        (84, 31, 25, 1, cut),
        (84, 31, 30, b'/', name),
        (84, 31, 30, 0, name),
        (84, 31, 30, b'.', name),
        (84, 30, 30, b'/', cut),
        (84, 32, 27, 2, None),
        (84, 31, 29, 0, bad_kind),
        (84, 31, 29, 3, bad_kind),
        (84, 31, 29, 7, None),
        (84, 31, 29, 8, bad_kind),
        (84, 32, 25, 1, bad_kind),
        (24, 31, 29, 1, bad_kind),
        (24, 31, 29, 8, None),
        (24, 63, 29, 8, bad_kind),
        (96, 31, 0, 1, None),
        (96, 63, 0, 1, twice),
        (96, 63, 62, b'/', name),
        (96, 63, 29, 9, bad_kind),
        (84, 63, 62, 0, name),
    ] {
        let fault = changed(&mut two_entries(), kind, length, at, value);
        assert_eq!(rt; fault, want, "type {kind}, {length} bytes, {value} at {at}");
    }
    // The name `b` twice.
    let same =
        b"\0\0\0\0\0\0\0\0\0\0\0\0\0\0\0\0\0\0\0\0\0\0\0\0\0\0\0\x01\0\x08b\0\0\0\0\0\0\0\0\0\0\0\0\0\0\0\0\0\0\0\0\0\0\0\0\0\0\0\x01\0\x08b";
    assert_eq!(rt; Entries::open(24, same).err(), twice, "a name twice");
    assert_eq!(rt;
        Entries::open(84, same).err(),
        bad_kind,
        "a type before a name twice"
    );
}
