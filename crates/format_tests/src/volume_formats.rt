use blk_base::{Addr, Block, crc32c, put_u32, put_u64};
use volume_format::{RootFault, RootItem, Super, SuperFault};

// A volume of 4096 blocks with the root tree in block 17, and two blocks in use.
fn small_volume() -> Super {
    Super {
        fsid: [7; 16],
        generation: 1,
        root: Addr(69632),
        root_level: 0,
        log_root: Addr(0),
        log_root_level: 0,
        blocks: 4096,
        used: 2,
    }
}

#[test]
fn superblocks_are_written_as_the_format_says(rt: HostRuntime) {
    let mut block = [0xee; 4096];
    small_volume().encode(&mut block);
    assert!(rt; &block[0x20..0x30] == [7; 16].as_slice());
    for (at, bytes) in [
        (0x30, [0, 0, 1, 0, 0, 0, 0, 0]),
        (0x38, [1, 0, 0, 0, 0, 0, 0, 0]),
        (0x40, [0x5f, 0x42, 0x48, 0x52, 0x66, 0x53, 0x5f, 0x4d]),
        (0x48, [1, 0, 0, 0, 0, 0, 0, 0]),
        (0x50, [0, 0x10, 1, 0, 0, 0, 0, 0]),
        (0x58, [0; 8]),
        (0x60, [0; 8]),
        (0x70, [0, 0, 0, 1, 0, 0, 0, 0]),
        (0x78, [0, 0x20, 0, 0, 0, 0, 0, 0]),
        (0x80, [0; 8]),
        (0x88, [1, 0, 0, 0, 0, 0, 0, 0]),
        (0x90, [0, 0x10, 0, 0, 0, 0x10, 0, 0]),
        (0xa0, [0; 8]),
        (0xbc, [0, 0, 0, 0, 0, 0, 0, 0x80]),
        (0xc4, [0; 8]),
        (0x32b, [0; 8]),
    ] {
        assert!(rt; at <= 4088);
        assert!(rt; &block[at..at + 8] == bytes.as_slice(), "at {at}");
    }
    assert!(rt; Super::decode(&block, 4096) == Ok(small_volume()));
}

#[test]
fn the_first_fault_of_a_superblock_is_told(rt: HostRuntime) {
    use SuperFault::*;
    // Numbers of 8 bytes that are written over a good superblock, whether the sum is made anew, and the fault.
    let (bad_magic, bad_kind, bad_address) = ((0x40, 0), (0xc4, 1), (0x30, 4096));
    let (bad_total, bad_root) = ((0x70, 4097 * 4096), (0x50, 65536));
    // Bytes 0xc0 to 0xc7 end with the root tree's level and have the marks of the profile before it.
    let bad_level = (0xc0, 0x0008_0000_8000_0000);
    let (bad_log_level, same) = ((0xc8, 1), (0x38, 1));
    for (first, second, summed, fault) in [
        (bad_magic, same, true, Magic),
        (bad_magic, same, false, Magic),
        ((0x200, 1), same, false, Checksum),
        (bad_address, same, false, Checksum),
        (bad_kind, same, false, Foreign),
        (bad_kind, same, true, Foreign),
        (bad_address, bad_total, true, Foreign),
        ((0x88, 2), same, true, Foreign),
        ((0x90, 4096), same, true, Foreign),
        ((0xbc, 0), same, true, Foreign),
        ((0x58, 4096), same, true, Foreign),
        ((0xa0, 97), same, true, Foreign),
        (bad_total, bad_root, true, Size),
        ((0x70, 4095 * 4096), same, true, Size),
        ((0x70, 65537 * 4096), same, true, Size),
        ((0x70, 4096 * 4096 + 1), same, true, Size),
        (bad_root, bad_level, true, Root),
        ((0x50, 69633), same, true, Root),
        ((0x50, 4096 * 4096), same, true, Root),
        (bad_level, bad_log_level, true, Level),
        (bad_log_level, same, true, LogLevel),
        ((0xc8, 8), (0x60, 73728), true, LogLevel),
    ] {
        let mut block = [0; 4096];
        small_volume().encode(&mut block);
        assert!(rt; first.0 <= 4088 && second.0 <= 4088);
        put_u64(&mut block, first.0, first.1);
        put_u64(&mut block, second.0, second.1);
        if summed {
            let sum = crc32c(&block[32..]);
            put_u32(&mut block, 0, sum);
        }
        assert!(rt;
            Super::decode(&block, 4096) == Err(fault),
            "{fault} at {}",
            first.0
        );
    }
    for (blocks, want) in [(65_536, None), (65_537, Some(Size))] {
        let mut block = [0; 4096];
        let mut volume = small_volume();
        volume.blocks = blocks;
        volume.encode(&mut block);
        let fault = Super::decode(&block, 131_072).err();
        assert!(rt; fault == want, "{blocks} blocks on a larger disk");
    }
}

#[test]
fn root_items_are_written_as_the_format_says(rt: HostRuntime) {
    let item = RootItem {
        generation: 3,
        at: Addr(73728),
        level: 1,
    };
    let mut bytes = [0xee; 439];
    item.encode(&mut bytes);
    assert!(rt; &bytes[160..168] == [3, 0, 0, 0, 0, 0, 0, 0].as_slice());
    assert!(rt; &bytes[168..176] == [0, 1, 0, 0, 0, 0, 0, 0].as_slice());
    assert!(rt; &bytes[176..184] == [0, 0x20, 1, 0, 0, 0, 0, 0].as_slice());
    assert!(rt; &bytes[216..220] == [1, 0, 0, 0].as_slice());
    assert_eq!(rt; bytes[238], 1);
    assert!(rt; &bytes[239..247] == [3, 0, 0, 0, 0, 0, 0, 0].as_slice());
    assert!(rt; RootItem::decode(&bytes) == Ok(item));
    assert!(rt; RootItem::decode(&[0; 438]) == Err(RootFault::Size));
}
