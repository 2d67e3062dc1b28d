use blk_base::{Ino, ItemFault, Key, is_name};
use item_inode::{ExtRefs, InodeItem, Refs, put_extref, put_ref};

/// The names of inode 257 in the root directory.
const KEY: Key = Key {
    objectid: 257,
    kind: 12,
    offset: 256,
};

#[test]
fn names_as_bytes(rt: HostRuntime) {
    assert!(rt; is_name(b"a"));
    let mut near = [255; 11];
    put_ref(2, b"a", &mut near);
    assert_eq!(rt; near.as_slice(), b"\x02\0\0\0\0\0\0\0\x01\0a".as_slice());
    let Ok(mut refs) = Refs::open(&KEY, &near) else {
        assert!(rt; false, "near");
        return;
    };
    assert_eq!(rt; refs.next(), Some((2, b"a".as_slice())));
    assert_eq!(rt; refs.next(), None);

    let mut far = [255; 19];
    put_extref(Ino(258), 2, b"a", &mut far);
    assert_eq!(rt;
        far.as_slice(),
        b"\x02\x01\0\0\0\0\0\0\x02\0\0\0\0\0\0\0\x01\0a".as_slice()
    );
    let Ok(mut refs) = ExtRefs::open(&far) else {
        assert!(rt; false, "far");
        return;
    };
    assert_eq!(rt; refs.next(), Some((Ino(258), 2, b"a".as_slice())));
    assert_eq!(rt; refs.next(), None);
}

#[test]
fn inode_as_bytes(rt: HostRuntime) {
    let item = InodeItem {
        generation: 1,
        transid: 2,
        size: 3,
        nbytes: 4096,
        nlink: 1,
        mode: 0o100644,
    };
    let mut bytes = [255; 160];
    item.encode(&mut bytes);
    for (at, want) in [
        (0, b"\x01\0\0\0\0\0\0\0"),
        (8, b"\x02\0\0\0\0\0\0\0"),
        (16, b"\x03\0\0\0\0\0\0\0"),
        (24, b"\0\x10\0\0\0\0\0\0"),
        (32, b"\0\0\0\0\0\0\0\0"),
        (40, b"\x01\0\0\0\0\0\0\0"),
        (52, b"\xa4\x81\0\0\0\0\0\0"),
    ] {
        assert!(rt; at <= 152);
        assert_eq!(rt; &bytes[at..at + 8], want.as_slice(), "at {at}");
    }
    assert_eq!(rt; InodeItem::decode(&bytes), Ok(item));
}

/// The names `a` with index 2 and `bc` with index 3, and zeros.
fn two_names() -> [u8; 40] {
    *b"\x02\0\0\0\0\0\0\0\x01\0a\x03\0\0\0\0\0\0\0\x02\0bc\0\0\0\0\0\0\0\0\0\0\0\0\0\0\0\0\0"
}

/// The first fault of an item that was changed at a place below 40 and cut to a length below 40.
fn changed_refs(bytes: &mut [u8; 40], length: usize, at: usize, value: u8) -> Option<ItemFault> {
    bytes[at % 40] = value;
    Refs::open(&KEY, &bytes[..length % 40]).err()
}

/// The first fault of the name `..` under a key.
fn dots_under(objectid: u64, kind: u8, offset: u64) -> Option<ItemFault> {
    let key = Key {
        objectid,
        kind,
        offset,
    };
    Refs::open(&key, b"\0\0\0\0\0\0\0\0\x02\0..").err()
}

/// The first fault of an inode item of these many zeros with a mode.
fn inode_of_mode(bytes: &mut [u8; 200], length: usize, low: u8, high: u8) -> Option<ItemFault> {
    bytes[52] = low;
    bytes[53] = high;
    InodeItem::decode(&bytes[..length % 200]).err()
}

#[test]
fn changed_items(rt: HostRuntime) {
    let size = Some(ItemFault::Size);
    let cut = Some(ItemFault::Cut);
    let name = Some(ItemFault::NameLen);
    for (length, at, value, want) in [
        (0, 0, 2, size),
        (1, 0, 2, cut),
        (9, 0, 2, cut),
        (10, 0, 2, cut),
        (10, 8, 0, name),
        (11, 0, 2, None),
        (11, 8, 0, cut),
        (11, 8, 2, cut),
        (11, 9, 1, cut),
        (11, 10, b'/', name),
        (11, 10, 0, name),
        (11, 10, b'.', name),
        (12, 0, 2, cut),
        (12, 10, b'/', cut),
        (21, 0, 2, cut),
        (22, 0, 2, cut),
        (22, 10, 0, cut),
        (23, 0, 2, None),
        (23, 0, 255, None),
        (23, 7, 255, None),
        (23, 8, 0, cut),
        (23, 8, 13, name),
        (23, 10, b'b', None),
        (23, 19, 1, cut),
        (23, 19, 3, cut),
        (23, 21, b'.', None),
        (23, 21, b'/', name),
        (23, 22, 0, name),
        (23, 22, b'/', name),
        (24, 0, 2, cut),
        (33, 0, 2, name),
    ] {
        let fault = changed_refs(&mut two_names(), length, at, value);
        assert_eq!(rt; fault, want, "{length} bytes, {value} at {at}");
    }
    for (objectid, kind, offset, want) in [
        (256, 12, 256, None),
        (256, 12, 257, name),
        (257, 12, 256, name),
        (256, 13, 256, name),
    ] {
        assert_eq!(rt;
            dots_under(objectid, kind, offset),
            want,
            "`..` at {objectid} {kind} {offset}"
        );
    }
    let kind = Some(ItemFault::Kind);
    for (length, low, high, want) in [
        (0, 0xa4, 0x81, size),
        (159, 0xa4, 0x81, size),
        (161, 0xa4, 0x81, size),
        (160, 0xa4, 0x81, None),
        (160, 0xed, 0x41, None),
        (160, 0xff, 0xa1, None),
        (160, 0xed, 0x81, kind),
        (159, 0, 0, size),
    ] {
        let fault = inode_of_mode(&mut [0; 200], length, low, high);
        assert_eq!(rt;
            fault,
            want,
            "inode item of {length} bytes, mode {low} {high}"
        );
    }
}
