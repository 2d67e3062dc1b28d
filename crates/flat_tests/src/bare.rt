use blk_base::{Ino, SubId, Text};
use flat_model::Kind;
use flat_volume::FlatVolume;
use std::test::Fail;

#[test]
fn a_bare_volume_takes_an_inode(rt: HostRuntime) -> Result<(), Fail> {
    let alloc = rt.alloc();
    let mut volume = FlatVolume::empty(alloc, 2)?;
    let (first, second, third) = (SubId(5), SubId(256), SubId(257));
    assert!(rt; volume.has_sub(second));
    assert!(rt; !volume.has_sub(third));
    assert!(rt; volume.has_sub(first));
    let target = Text::new(alloc, b"")?;
    volume.put_inode(alloc, first, Ino(257), Kind::File, 0, target)?;
    assert!(rt; volume.has_sub(first));
    assert_eq!(rt; volume.names(first).len(), 0);
    Ok(())
}

#[test]
fn a_copy_stays_as_it_was(rt: HostRuntime) -> Result<(), Fail> {
    let alloc = rt.alloc();
    let mut volume = FlatVolume::empty(alloc, 1)?;
    let copy = volume.copy(alloc)?;
    assert!(rt; volume.has_sub(SubId(5)));
    let target = Text::new(alloc, b"")?;
    volume.put_inode(alloc, SubId(5), Ino(257), Kind::File, 0, target)?;
    assert!(rt; volume.kind_of(SubId(5), Ino(257)) == Some(Kind::File));
    assert!(rt; copy.kind_of(SubId(5), Ino(257)) == None);
    Ok(())
}
