use blk_base::{Addr, ItemFault, Key, put_u64};
use item_extent::{Extent, put_hole, put_inline, put_regular};

/// The key of an extent of file 257 at a place of the file, in bytes.
fn key_at(offset: u64) -> Key {
    Key {
        objectid: 257,
        kind: 108,
        offset,
    }
}

#[test]
fn written_and_read(rt: HostRuntime) {
    let mut inline = [255; 23];
    put_inline(7, b"ab", &mut inline);
    assert_eq!(rt;
        Extent::open(&key_at(0), &inline),
        Ok(Extent::Inline(b"ab"))
    );

    let mut regular = [255; 53];
    put_regular(7, Addr(73_728), 8192, &mut regular);
    assert_eq!(rt; &regular[20..30], b"\x01\0\x20\x01\0\0\0\0\0\0".as_slice());
    let run = Extent::Regular {
        at: Addr(73_728),
        offset: 0,
        length: 8192,
    };
    assert_eq!(rt; Extent::open(&key_at(4096), &regular), Ok(run));
    assert_eq!(rt; Extent::open_log(&key_at(4096), &regular), Ok(run));

    let mut hole = [255; 53];
    put_hole(7, 4096, &mut hole);
    assert_eq!(rt;
        Extent::open_log(&key_at(0), &hole),
        Ok(Extent::Hole { length: 4096 })
    );
    assert_eq!(rt; Extent::open(&key_at(0), &hole), Err(ItemFault::Align));
}

/// A run of two blocks, and zeros.
fn run_item() -> [u8; 80] {
    let mut bytes = [0; 80];
    put_regular(7, Addr(73_728), 8192, &mut bytes[..53]);
    bytes
}

/// The first fault of an item that was changed at a place below 80 and cut to a length below 80.
fn changed(
    bytes: &mut [u8; 80],
    offset: u64,
    length: usize,
    at: usize,
    value: u8,
) -> Option<ItemFault> {
    bytes[at % 80] = value;
    Extent::open(&key_at(offset), &bytes[..length % 80]).err()
}

/// The first fault of a run that is changed to so many bytes.
fn run_of(bytes: &mut [u8; 80], length: u64) -> Option<ItemFault> {
    put_u64(bytes, 8, length);
    put_u64(bytes, 29, length);
    put_u64(bytes, 45, length);
    Extent::open(&key_at(0), &bytes[..53]).err()
}

#[test]
fn changed_items(rt: HostRuntime) {
    let size = Some(ItemFault::Size);
    let compressed = Some(ItemFault::Compressed);
    let encrypted = Some(ItemFault::Encrypted);
    let kind = Some(ItemFault::Kind);
    let align = Some(ItemFault::Align);
    for (offset, length, at, value, want) in [
        (0, 0, 0, 7, size),
        (0, 20, 20, 9, size),
        (0, 21, 20, 0, size),
        (0, 21, 20, 1, size),
        (0, 21, 20, 9, kind),
        (0, 52, 0, 7, size),
        (0, 54, 0, 7, size),
        (0, 54, 20, 2, size),
        (0, 53, 0, 255, None),
        (4096, 53, 0, 7, None),
        (0, 53, 16, 1, compressed),
        (0, 52, 16, 1, size),
        (0, 53, 17, 1, encrypted),
        (0, 53, 18, 1, encrypted),
        (0, 53, 19, 1, encrypted),
        (0, 53, 20, 2, Some(ItemFault::Preallocated)),
        (0, 53, 20, 3, kind),
        (0, 60, 20, 255, kind),
        (0, 53, 20, 0, align),
        (1, 53, 0, 7, align),
        (0, 53, 8, 1, align),
        (0, 53, 9, 0x10, align),
        (0, 53, 30, 0x10, align),
        (0, 53, 37, 1, align),
        (0, 53, 45, 1, align),
        (0, 53, 46, 0x10, align),
        (0, 53, 47, 1, align),
        (0, 53, 22, 0, None),
    ] {
        let fault = changed(&mut run_item(), offset, length, at, value);
        assert_eq!(rt; fault, want, "at {offset}: {length} bytes, {value} at {at}");
    }
    for (length, want) in [
        (4096, None),
        (16_777_216, None),
        (16_781_312, align),
        (0, align),
    ] {
        assert_eq!(rt;
            run_of(&mut run_item(), length),
            want,
            "a run of {length} bytes"
        );
    }
}
