use crate::told::gives;
use blk_base::{Ino, Name, SubId, Text, is_name};
use flat_model::{Kind, NameAt};
use flat_volume::FlatVolume;
use io_edge::MemorySink;
use std::alloc::Global;
use std::test::Fail;
use volume_listing::{ListFault, write_listing};

/// A name of these bytes.
fn name(alloc: Global, bytes: &[u8]) -> Result<Name, Fail> {
    if !is_name(bytes) {
        return Err(Fail::from("no name"));
    }
    Ok(Name::new(alloc, bytes)?)
}

/// Inodes, each of a subvolume, a number, a kind, a size and a target.
type Inodes<'a> = &'a [(u64, u64, Kind, u64, &'a [u8])];

/// Names, each of a subvolume, a directory, an index, bytes and an inode.
type Names<'a> = &'a [(u64, u64, u64, &'a [u8], u64)];

/// A volume of two subvolumes with these inodes and names.
fn built(alloc: Global, inodes: Inodes, names: Names) -> Result<FlatVolume, Fail> {
    let mut volume = FlatVolume::empty(alloc, 2)?;
    for (sub, ino, kind, size, target) in inodes {
        let target = Text::new(alloc, target)?;
        if !volume.has_sub(SubId(*sub)) {
            return Err(Fail::from("no subvolume"));
        }
        volume.put_inode(alloc, SubId(*sub), Ino(*ino), *kind, *size, target)?;
    }
    for (sub, dir, index, bytes, ino) in names {
        let at = NameAt {
            dir: Ino(*dir),
            index: *index,
            name: name(alloc, bytes)?,
            ino: Ino(*ino),
        };
        if !volume.has_sub(SubId(*sub)) {
            return Err(Fail::from("no subvolume"));
        }
        volume.put_name(alloc, SubId(*sub), at, true)?;
    }
    Ok(volume)
}

#[test]
fn names_stand_in_the_order_of_their_bytes(rt: HostRuntime) -> Result<(), Fail> {
    let alloc = rt.alloc();
    let inodes: [(u64, u64, Kind, u64, &[u8]); 5] = [
        (5, 257, Kind::File, 0, b""),
        (5, 258, Kind::Dir, 0, b""),
        (5, 259, Kind::Link, 0, b"x\\y"),
        (5, 260, Kind::File, 32, b""),
        (256, 257, Kind::File, 32, b""),
    ];
    let names: [(u64, u64, u64, &[u8], u64); 6] = [
        (5, 256, 2, b"b", 257),
        (5, 256, 3, b"a d", 258),
        (5, 256, 4, b"c", 257),
        (5, 258, 2, b"\x7f", 260),
        (5, 258, 3, b"l", 259),
        (256, 256, 2, b"z", 257),
    ];
    let volume = built(alloc, &inodes, &names)?;
    let mut to = MemorySink::new(alloc, &[])?;
    write_listing(alloc, &volume, &mut to)?;
    let want =
        b"sub 5\n256 dir 1 10 - /\n258 dir 1 4 - /a\\x20d\n259 link 1 3 - /a\\x20d/l x\\x5cy\n260 file 1 32 8a9136aa /a\\x20d/\\x7f\n257 file 2 0 00000000 /b\n257 file 2 0 00000000 /c\nsub 256\n256 dir 1 2 - /\n257 file 1 32 8a9136aa /z\ndone 8\n";
    assert_eq!(rt; to.bytes(), want.as_slice());
    Ok(())
}

#[test]
fn a_file_shows_its_bytes_and_attributes(rt: HostRuntime) -> Result<(), Fail> {
    let alloc = rt.alloc();
    let mut volume = FlatVolume::empty(alloc, 1)?;
    for (words, want) in [
        ("create /a", "ok 257"),
        ("write /a 0 123456789", "ok 9"),
        ("setattr /a user.k v", "ok"),
        ("setattr /a user.a+*1:32+b *1:0", "ok"),
    ] {
        assert!(rt; gives(alloc, &mut volume, words, want)?, "at {words}");
    }
    let mut to = MemorySink::new(alloc, &[])?;
    write_listing(alloc, &volume, &mut to)?;
    let want =
        b"sub 5\n256 dir 1 2 - /\n257 file 1 9 e3069283 /a\n attr user.a\\x20b \\x00\n attr user.k v\ndone 2\n";
    assert_eq!(rt; to.bytes(), want.as_slice());
    Ok(())
}

#[test]
fn a_sink_that_fails_ends_it(rt: HostRuntime) -> Result<(), Fail> {
    let volume = FlatVolume::empty(rt.alloc(), 1)?;
    let mut to = MemorySink::new(rt.alloc(), &[1])?;
    assert_eq!(rt;
        write_listing(rt.alloc(), &volume, &mut to),
        Err(ListFault::Sink)
    );
    assert_eq!(rt; to.bytes().len(), 0);
    Ok(())
}
