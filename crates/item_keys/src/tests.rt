use super::{has_its_key, is_log_kind, is_subvolume_kind};
use blk_base::format::{DIR_INDEX, DIR_ITEM, DIR_LOG_INDEX, INODE_EXTREF, INODE_ITEM, XATTR_ITEM};
use blk_base::{Key, put_u8, put_u16, put_u64};

/// An entry whose target is this key, of a type and with a name of one letter.
fn entry(target: Key, kind: u8, name: u8) -> [u8; 31] {
    let mut bytes = [0; 31];
    put_u64(&mut bytes, 0, target.objectid);
    put_u8(&mut bytes, 8, target.kind);
    put_u64(&mut bytes, 9, target.offset);
    put_u16(&mut bytes, 27, 1);
    put_u8(&mut bytes, 29, kind);
    put_u8(&mut bytes, 30, name);
    bytes
}

/// The far name `g` in directory 257, at index 3.
fn extref() -> [u8; 19] {
    let mut bytes = [0; 19];
    put_u64(&mut bytes, 0, 257);
    put_u64(&mut bytes, 8, 3);
    put_u16(&mut bytes, 16, 1);
    put_u8(&mut bytes, 18, b'g');
    bytes
}

fn key_of(objectid: u64, kind: u8, offset: u64) -> Key {
    Key {
        objectid,
        kind,
        offset,
    }
}

#[test]
fn keys_are_told(rt: HostRuntime) {
    let named = entry(key_of(257, 1, 0), 2, b'd');
    let astray = entry(key_of(257, 1, 1), 2, b'd');
    let attribute = entry(key_of(0, 0, 0), 8, b'a');
    let leading = entry(key_of(1, 0, 0), 8, b'a');
    let far = extref();
    let rows: [(u8, u64, &[u8], bool); 13] = [
        (INODE_ITEM, 0, &[], true),
        (INODE_ITEM, 1, &[], false),
        (DIR_ITEM, 4_189_400_016, &named, true),
        (DIR_ITEM, 4_189_400_017, &named, false),
        (DIR_ITEM, 4_189_400_016, &astray, false),
        (DIR_INDEX, 2, &named, true),
        (DIR_INDEX, 2, &astray, false),
        (INODE_EXTREF, 1_197_962_379, &far, true),
        (INODE_EXTREF, 1_197_962_378, &far, false),
        (XATTR_ITEM, 3_427_024_844, &attribute, true),
        (XATTR_ITEM, 3_427_024_845, &attribute, false),
        (XATTR_ITEM, 3_427_024_844, &leading, false),
        (DIR_LOG_INDEX, 7, &[], true),
    ];
    for (kind, offset, bytes, answer) in rows {
        assert_eq!(rt; has_its_key(&key_of(258, kind, offset), bytes), answer);
    }
    assert!(rt; is_subvolume_kind(DIR_ITEM) && !is_subvolume_kind(DIR_LOG_INDEX));
    assert!(rt; is_log_kind(DIR_LOG_INDEX) && !is_log_kind(DIR_ITEM));
}
