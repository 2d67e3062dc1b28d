use blk_base::{Addr, Block, BlockFault, Key, Want, crc32c, put_u32};
use leaf_view::{LeafView, NodeView, is_leaf_body};

/// A byte, and where it stands in the block.
type Byte = (usize, u8);

const WANT: Want = Want {
    fsid: [1; 16],
    at: Addr(69_632),
    generation: 7,
    owner: 5,
    level: 0,
};

/// The header that fits the want, but for the count; all other bytes are zero.
const HEADER: &[Byte] = &[
    (32, 1),
    (33, 1),
    (34, 1),
    (35, 1),
    (36, 1),
    (37, 1),
    (38, 1),
    (39, 1),
    (40, 1),
    (41, 1),
    (42, 1),
    (43, 1),
    (44, 1),
    (45, 1),
    (46, 1),
    (47, 1),
    (49, 0x10),
    (50, 1),
    (80, 7),
    (88, 5),
];

/// Three items: (256, 1, 0) with 4 bytes at 3991, (256, 12, 256) with 2 bytes at 3989, (257, 1, 0) with none at 3989.
const ITEMS: &[Byte] = &[
    (96, 3),
    (102, 1),
    (109, 1),
    (118, 0x97),
    (119, 0x0f),
    (122, 4),
    (127, 1),
    (134, 12),
    (136, 1),
    (143, 0x95),
    (144, 0x0f),
    (147, 2),
    (151, 1),
    (152, 1),
    (159, 1),
    (168, 0x95),
    (169, 0x0f),
    (4092, b'a'),
    (4093, b'b'),
    (4094, b'c'),
    (4095, b'd'),
    (4090, b'e'),
    (4091, b'f'),
];

/// Two pointers: (256, 1, 0) to 73,728 of generation 3, (256, 12, 0) to 77,824 of generation 4.
const POINTERS: &[Byte] = &[
    (96, 2),
    (100, 1),
    (102, 1),
    (109, 1),
    (119, 0x20),
    (120, 1),
    (126, 3),
    (135, 1),
    (142, 12),
    (152, 0x30),
    (153, 1),
    (159, 4),
];

fn put_all(block: &mut Block, bytes: &[Byte]) {
    for (at, byte) in bytes {
        if *at < 4096 {
            block[*at] = *byte;
        }
    }
}

/// A block of these bytes with its sum, and then changed; the sum is that of the changed bytes, where it is to fit.
fn block_of(body: &[Byte], changes: &[Byte], summed: bool) -> Block {
    let mut block = [0; 4096];
    put_all(&mut block, HEADER);
    put_all(&mut block, body);
    if !summed {
        let sum = crc32c(&block[32..]);
        put_u32(&mut block, 0, sum);
    }
    put_all(&mut block, changes);
    if summed {
        let sum = crc32c(&block[32..]);
        put_u32(&mut block, 0, sum);
    }
    block
}

#[test]
fn first_faults_of_leaves(rt: HostRuntime) {
    use BlockFault::*;
    let table: [(&[Byte], Option<BlockFault>); 45] = [
        (&[], None),
        (&[(31, 1)], None),
        (&[(56, 1)], None),
        (&[(64, 1)], None),
        (&[(32, 9)], Some(Fsid)),
        (&[(47, 9)], Some(Fsid)),
        (&[(48, 1)], Some(Address)),
        (&[(55, 1)], Some(Address)),
        (&[(80, 8)], Some(Generation)),
        (&[(87, 1)], Some(Generation)),
        (&[(88, 6)], Some(Owner)),
        (&[(95, 1)], Some(Owner)),
        (&[(100, 1)], Some(Level)),
        (&[(96, 160)], Some(Count)),
        (&[(96, 255), (97, 255), (98, 255), (99, 255)], Some(Count)),
        (&[(96, 4)], Some(Order)),
        (&[(96, 2)], None),
        (&[(96, 0)], None),
        (&[(134, 1), (136, 0)], Some(Order)),
        (&[(134, 1)], None),
        (&[(151, 255), (152, 0)], Some(Order)),
        (&[(101, 2)], Some(Order)),
        (&[(168, 0x9c)], Some(Bounds)),
        (&[(168, 0x9b)], None),
        (&[(122, 5)], Some(Bounds)),
        (
            &[(122, 255), (123, 255), (124, 255), (125, 255)],
            Some(Bounds),
        ),
        (
            &[(118, 255), (119, 255), (120, 255), (121, 255)],
            Some(Bounds),
        ),
        (&[(143, 74), (144, 0)], Some(Bounds)),
        (&[(143, 75), (144, 0)], None),
        (&[(168, 74), (169, 0)], Some(Bounds)),
        (&[(147, 3)], Some(Overlap)),
        (&[(143, 0x96)], Some(Overlap)),
        (&[(143, 0x97)], Some(Overlap)),
        (&[(143, 0x97), (147, 4)], Some(Overlap)),
        (&[(168, 0x98)], None),
        (&[(172, 1)], Some(Overlap)),
        (&[(168, 0x94), (172, 1)], None),
        (&[(168, 0x94), (172, 2)], Some(Overlap)),
        (&[(32, 9), (48, 1)], Some(Fsid)),
        (&[(48, 1), (80, 8)], Some(Address)),
        (&[(88, 6), (100, 1)], Some(Owner)),
        (&[(100, 1), (96, 160)], Some(Level)),
        (&[(96, 160), (101, 2)], Some(Count)),
        (&[(101, 2), (122, 5)], Some(Order)),
        (&[(147, 3), (168, 0x9c)], Some(Bounds)),
    ];
    for (changes, want) in table {
        let block = block_of(ITEMS, changes, true);
        assert_eq!(rt; LeafView::open(&block, &WANT).err(), want, "at {changes:?}");
    }
    for at in [0, 3, 32, 4095] {
        let block = block_of(ITEMS, &[(at, 77)], false);
        assert_eq!(rt;
            LeafView::open(&block, &WANT).err(),
            Some(Checksum),
            "at {at}"
        );
    }
}

#[test]
fn first_faults_of_nodes(rt: HostRuntime) {
    use BlockFault::*;
    let want = Want { level: 1, ..WANT };
    let table: [(&[Byte], Option<BlockFault>); 9] = [
        (&[], None),
        (&[(100, 0)], Some(Level)),
        (&[(96, 0)], Some(Count)),
        (&[(96, 122)], Some(Count)),
        (&[(96, 1)], None),
        (&[(96, 3)], Some(Order)),
        (&[(142, 1)], Some(Order)),
        (&[(134, 255), (135, 0)], Some(Order)),
        (&[(96, 122), (142, 1)], Some(Count)),
    ];
    for (changes, fault) in table {
        let block = block_of(POINTERS, changes, true);
        assert_eq!(rt;
            NodeView::open(&block, &want).err(),
            fault,
            "at {changes:?}"
        );
    }
}

#[test]
fn shows_the_items_of_a_leaf(rt: HostRuntime) {
    let block = block_of(ITEMS, &[], true);
    let second = Key {
        objectid: 256,
        kind: 12,
        offset: 256,
    };
    match LeafView::open(&block, &WANT) {
        Ok(leaf) => {
            assert!(rt; !leaf.is_empty());
            assert_eq!(rt; leaf.len(), 3);
            assert_eq!(rt; leaf.key(1), second);
            assert_eq!(rt; leaf.data(1), b"ef".as_slice());
            assert_eq!(rt; leaf.find(&second), Ok(1));
            assert_eq!(rt;
                leaf.find(&Key {
                    offset: 257,
                    ..second
                }),
                Err(2)
            );
        }
        Err(fault) => assert!(rt; false, "{fault}"),
    }
    assert!(rt; is_leaf_body(&block));
    let leaf = LeafView::of_body(&block);
    assert_eq!(rt; leaf.len(), 3);
}

#[test]
fn shows_the_pointers_of_a_node(rt: HostRuntime) {
    let block = block_of(POINTERS, &[], true);
    let want = Want { level: 1, ..WANT };
    let second = Key {
        objectid: 256,
        kind: 12,
        offset: 0,
    };
    match NodeView::open(&block, &want) {
        Ok(node) => {
            assert_eq!(rt; node.len(), 2);
            assert_eq!(rt; node.key(1), second);
            assert_eq!(rt; node.child(1), (Addr(77_824), 4));
            assert_eq!(rt; node.find(&second), Ok(1));
            assert_eq!(rt;
                node.find(&Key {
                    offset: 1,
                    ..second
                }),
                Err(2)
            );
        }
        Err(fault) => assert!(rt; false, "{fault}"),
    }
}
