use blk_base::{Addr, Block, Key, Want};
use leaf_view::{NodeView, is_node_body};
use node_edit::NodeMut;

const WANT: Want = Want {
    fsid: [3; 16],
    at: Addr(69_632),
    generation: 7,
    owner: 5,
    level: 1,
};

fn key_of(offset: u64) -> Key {
    Key {
        objectid: 256,
        kind: 96,
        offset,
    }
}

/// Puts a pointer where its key belongs, and answers how many there are; 4096 where it can't.
fn put(block: &mut Block, key: Key) -> usize {
    if !is_node_body(block) {
        return 4096;
    }
    let view = NodeView::of_body(block);
    let Err(place) = view.find(&key) else {
        return 4096;
    };
    let mut node = NodeMut::edit(block);
    if node.len() == 121 {
        return 4096;
    }
    node.insert(place, key, Addr(key.offset), 6);
    node.len()
}

/// A node is filled, changed, split, joined and sealed.
#[test]
fn edits_a_node(rt: HostRuntime) {
    let mut block = [0xff; 4096];
    let mut node = NodeMut::empty(&mut block);
    assert!(rt; node.is_empty());
    node.insert(0, key_of(200), Addr(4096), 6);
    for i in 0..120 {
        assert_eq!(rt;
            put(&mut block, key_of(if i < 60 { 60 - i } else { i + 1 })),
            i as usize + 2
        );
    }
    assert_eq!(rt; put(&mut block, key_of(300)), 4096);
    assert!(rt; is_node_body(&block));
    let mut back = [0xee; 4096];
    let mut node = NodeMut::edit(&mut block);
    let mut other = NodeMut::empty(&mut back);
    assert_eq!(rt; node.len(), 121);
    node.remove(120);
    node.set_child(0, Addr(8192), 9);
    node.split(&mut other, 50);
    assert_eq!(rt; (node.len(), other.len()), (50, 70));
    node.join(&mut other);
    assert_eq!(rt; (node.len(), other.len()), (120, 0));
    node.seal(&WANT);
    match NodeView::open(&block, &WANT) {
        Ok(view) => {
            assert_eq!(rt; view.find(&key_of(77)), Ok(76));
            assert_eq!(rt; view.len(), 120);
            assert_eq!(rt; view.child(76), (Addr(77), 6));
            assert_eq!(rt; view.child(0), (Addr(8192), 9));
        }
        Err(fault) => assert!(rt; false, "{fault}"),
    }
}
