use blk_base::{Addr, Block, Key, Want};
use leaf_edit::LeafMut;
use leaf_view::{LeafView, is_leaf_body};

const WANT: Want = Want {
    fsid: [3; 16],
    at: Addr(69_632),
    generation: 7,
    owner: 5,
    level: 0,
};

fn key_of(offset: u64) -> Key {
    Key {
        objectid: 256,
        kind: 108,
        offset,
    }
}

/// Puts an item where its key belongs, and answers the room that is left; 4096 where it can't.
fn put(block: &mut Block, key: Key, bytes: &[u8]) -> usize {
    if !is_leaf_body(block) {
        return 4096;
    }
    let view = LeafView::of_body(block);
    let Err(place) = view.find(&key) else {
        return 4096;
    };
    let mut leaf = LeafMut::edit(block);
    if bytes.len() > 3970 || leaf.room() < 25 + bytes.len() {
        return 4096;
    }
    leaf.insert(place, key, bytes);
    leaf.room()
}

#[test]
fn rooms(rt: HostRuntime) {
    let mut block = [0xff; 4096];
    let mut leaf = LeafMut::empty(&mut block);
    assert_eq!(rt; leaf.room(), 3995);
    assert!(rt; leaf.is_empty());
    leaf.insert(0, key_of(0), &[1; 160]);
    assert_eq!(rt; leaf.room(), 3810);
    leaf.remove(0);
    assert_eq!(rt; leaf.room(), 3995);
    leaf.insert(0, key_of(0), &[2; 3970]);
    assert_eq!(rt; leaf.room(), 0);
}

/// The room after 159 items of no bytes, put in by falling keys and then by rising ones.
#[test]
fn room_of_159_items(rt: HostRuntime) {
    let mut block = [0; 4096];
    LeafMut::empty(&mut block);
    let mut room = 3995;
    for i in 0..159 {
        room = put(&mut block, key_of(if i < 80 { 80 - i } else { i + 1 }), &[]);
    }
    assert_eq!(rt; room, 20);
    assert_eq!(rt; put(&mut block, key_of(500), &[]), 4096);
    assert!(rt; is_leaf_body(&block));
    let leaf = LeafView::of_body(&block);
    assert_eq!(rt; leaf.len(), 159);
    assert_eq!(rt; leaf.find(&key_of(159)), Ok(158));
}

/// Items out of order in the block with a gap between their data: an edit packs them.
#[test]
fn packs_an_odd_leaf(rt: HostRuntime) {
    let mut block = [0; 4096];
    for (at, byte) in [(96, 2), (102, 1), (109, 1), (118, 100), (119, 4), (122, 2)] {
        let at: usize = at;
        if at < 4096 {
            block[at] = byte;
        }
    }
    for (at, byte) in [
        (127, 1),
        (134, 12),
        (143, 0),
        (144, 8),
        (147, 3),
        (1225, b'x'),
        (2150, b'z'),
    ] {
        let at: usize = at;
        if at < 4096 {
            block[at] = byte;
        }
    }
    assert!(rt; is_leaf_body(&block));
    assert_eq!(rt;
        put(
            &mut block,
            Key {
                objectid: 256,
                kind: 2,
                offset: 0
            },
            b"new"
        ),
        3995 - 75 - 8
    );
    assert!(rt; is_leaf_body(&block));
    let leaf = LeafView::of_body(&block);
    assert_eq!(rt; leaf.len(), 3);
    for (i, want) in [b"x\0".as_slice(), b"new", b"\0z\0"].iter().enumerate() {
        if i < leaf.len() {
            assert_eq!(rt; leaf.data(i), *want);
        }
    }
}

/// A leaf of four items is split, joined and sealed, with the flags and the zeros of a header.
#[test]
fn splits_joins_and_seals(rt: HostRuntime) {
    let mut block = [0xee; 4096];
    LeafMut::empty(&mut block);
    for i in 0..4 {
        put(&mut block, key_of(i), &[7; 20]);
    }
    assert!(rt; is_leaf_body(&block));
    let mut back = [0xee; 4096];
    let mut leaf = LeafMut::edit(&mut block);
    let mut other = LeafMut::empty(&mut back);
    assert_eq!(rt; leaf.len(), 4);
    leaf.split(&mut other, 1);
    assert_eq!(rt; (leaf.len(), other.len()), (1, 3));
    leaf.join(&mut other);
    assert_eq!(rt; (leaf.len(), other.len()), (4, 0));
    assert_eq!(rt; leaf.room(), 3995 - 4 * 45);
    leaf.seal(&WANT);
    assert_eq!(rt; &block[4..32], [0; 28].as_slice());
    assert_eq!(rt; &block[56..64], [1, 0, 0, 0, 0, 0, 0, 1].as_slice());
    assert_eq!(rt; &block[64..80], [0; 16].as_slice());
    match LeafView::open(&block, &WANT) {
        Ok(view) => assert_eq!(rt; view.find(&key_of(3)), Ok(3)),
        Err(fault) => assert!(rt; false, "{fault}"),
    }
}

/// Bytes are written over a part of an item's data, and one more through a loan of them; all else stays.
#[test]
fn writes_data(rt: HostRuntime) {
    let mut block = [0; 4096];
    let mut leaf = LeafMut::empty(&mut block);
    leaf.insert(0, key_of(0), &[1, 2, 3, 4]);
    leaf.put_data(0, 1, &[8, 9]);
    assert_eq!(rt; leaf.room(), 3995 - 29);
    let loan = leaf.data_mut(0);
    assert_eq!(rt; loan.len(), 4);
    if loan.len() == 4 {
        loan[0] = 7;
    }
    assert!(rt; is_leaf_body(&block));
    let leaf = LeafView::of_body(&block);
    assert_eq!(rt; leaf.len(), 1);
    if !leaf.is_empty() {
        assert_eq!(rt; leaf.key(0), key_of(0));
        assert_eq!(rt; leaf.data(0), [7, 8, 9, 4].as_slice());
    }
}
