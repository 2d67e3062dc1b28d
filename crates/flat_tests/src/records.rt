use blk_base::{Name, Text, is_name};
use flat_model::Kind;
use flat_record::Inode;
use std::alloc::Global;
use std::test::Fail;

fn name(alloc: Global, bytes: &[u8]) -> Result<Name, Fail> {
    if !is_name(bytes) {
        return Err(Fail::from("no name"));
    }
    Ok(Name::new(alloc, bytes)?)
}

#[test]
fn a_file_is_written_cut_and_read(rt: HostRuntime) -> Result<(), Fail> {
    let alloc = rt.alloc();
    let mut inode = Inode::new(alloc, Kind::File, 0, Text::repeat(0, 0));
    inode.write(alloc, 4095, &Text::new(alloc, b"abc")?)?;
    assert_eq!(rt; inode.size(), 4098);
    assert_eq!(rt; inode.block_count(), 2);
    assert_eq!(rt; inode.block(1).0, 1);
    assert!(rt; matches!(inode.block(1).1.get(1), Some(b'c')));
    assert!(rt; inode.read(alloc, 4094, 9)? == Text::new(alloc, b"\0abc")?);
    inode.truncate(4095);
    inode.truncate(5000);
    assert!(rt; inode.read(alloc, 0, 65536)? == Text::repeat(5000, 0));
    inode.write(alloc, 0, &Text::new(alloc, b"hi")?)?;
    assert!(rt; inode.read(alloc, 0, 2)? == Text::new(alloc, b"hi")?);
    assert!(rt; inode.read(alloc, 4999, 9)? == Text::repeat(1, 0));
    assert!(rt; inode.read(alloc, 5000, 9)?.is_empty());
    assert!(rt; inode.keeps_limits());
    let mut other = inode.copy(alloc)?;
    other.put_block(alloc, 1, &[7; 4096])?;
    assert!(rt; !other.is_same(&inode));
    assert!(rt; !other.keeps_limits());
    Ok(())
}

#[test]
fn attributes_are_set_and_taken_away(rt: HostRuntime) -> Result<(), Fail> {
    let alloc = rt.alloc();
    let mut inode = Inode::new(alloc, Kind::File, 0, Text::repeat(0, 0));
    let (first, second) = (name(alloc, b"user.b")?, name(alloc, b"user.a")?);
    inode.set_attribute(alloc, &first, &Text::repeat(3, 1))?;
    inode.set_attribute(alloc, &first, &Text::repeat(2, 7))?;
    inode.set_attribute(alloc, &second, &Text::repeat(1024, 0))?;
    assert!(rt; inode.attribute(alloc, &first)? == Some(Text::repeat(2, 7)));
    assert_eq!(rt; inode.attribute_count(), 2);
    assert!(rt; *inode.attribute_at(0).0 == second);
    assert_eq!(rt; inode.attribute_at(0).1.len(), 1024);
    assert!(rt; inode.attributes_fit());
    assert!(rt; inode.is_attribute_crowded(&second, &Text::repeat(3935, 0)));
    assert!(rt; !inode.is_attribute_crowded(&second, &Text::repeat(3934, 0)));
    inode.remove_attribute(&first);
    assert!(rt; !inode.has_attribute(&first));
    assert!(rt; inode.has_attribute(&second));
    Ok(())
}

#[test]
fn a_symlink_has_a_target(rt: HostRuntime) -> Result<(), Fail> {
    let alloc = rt.alloc();
    let link = Inode::new(alloc, Kind::Link, 0, Text::new(alloc, b"a/b")?);
    let none = Inode::new(alloc, Kind::Link, 0, Text::repeat(0, 0));
    assert!(rt; matches!(link.target(), Some(target) if target.len() == 3));
    assert!(rt; link.keeps_limits());
    assert!(rt; !none.keeps_limits());
    assert!(rt; link.is_same(&link.copy(alloc)?));
    assert!(rt; !link.is_same(&none));
    Ok(())
}
