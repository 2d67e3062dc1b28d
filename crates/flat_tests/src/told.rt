//! What volumes tell, and volumes that are no longer coherent.
use blk_base::format::{FIRST_SUB, SECOND_SUB};
use blk_base::{Ino, SubId, Text};
use flat_model::{Kind, NameAt, NameView};
use flat_volume::{FlatVolume, is_in_limits};
use operation_rows::{is_said, name_of, operation};
use std::alloc::Global;
use std::test::Fail;

/// Whether an operation on a volume gives the answer of these words.
pub fn gives(
    alloc: Global,
    volume: &mut FlatVolume,
    words: &str,
    want: &str,
) -> Result<bool, Fail> {
    let op = operation(alloc, words)?;
    if !is_in_limits(&op) {
        return Err(Fail::from("past its limits"));
    }
    let answer = volume.apply(alloc, &op)?;
    Ok(is_said(alloc, &answer, want)?)
}

/// A volume of one subvolume with these inodes, each of a number and a kind, and these names, each of a directory, an
/// index, bytes and an inode.
fn built(
    alloc: Global,
    inodes: &[(u64, Kind)],
    names: &[(u64, u64, &str, u64)],
) -> Result<FlatVolume, Fail> {
    let mut volume = FlatVolume::empty(alloc, 1)?;
    for (ino, kind) in inodes {
        if !volume.has_sub(FIRST_SUB) {
            return Err(Fail::from("no subvolume"));
        }
        let target = Text::new(alloc, b"t")?;
        volume.put_inode(alloc, FIRST_SUB, Ino(*ino), *kind, 0, target)?;
    }
    for (dir, index, name, ino) in names {
        if !volume.has_sub(FIRST_SUB) {
            return Err(Fail::from("no subvolume"));
        }
        let at = NameAt {
            dir: Ino(*dir),
            index: *index,
            name: name_of(alloc, name)?,
            ino: Ino(*ino),
        };
        volume.put_name(alloc, FIRST_SUB, at, true)?;
    }
    Ok(volume)
}

#[test]
fn two_volumes_are_told_apart(rt: HostRuntime) -> Result<(), Fail> {
    let alloc = rt.alloc();
    let mut one = FlatVolume::empty(alloc, 2)?;
    let mut two = FlatVolume::empty(alloc, 2)?;
    assert_eq!(rt; one.subs(), 2);
    assert!(rt; gives(alloc, &mut one, "create 256:/a", "ok 257")?);
    assert!(rt; gives(alloc, &mut two, "create 256:/a", "ok 257")?);
    assert!(rt; one.same_record(&two, SECOND_SUB, Ino(257)));
    assert!(rt; !one.same_record(&two, SECOND_SUB, Ino(258)));
    assert!(rt; !one.same_record(&two, FIRST_SUB, Ino(257)));
    assert!(rt; !one.same_record(&two, SubId(257), Ino(257)));
    assert!(rt; one.kind_of(SECOND_SUB, Ino(257)) == Some(Kind::File));
    one.put_block(alloc, SECOND_SUB, Ino(257), 3, &[7; 4096])?;
    assert!(rt; !one.same_record(&two, SECOND_SUB, Ino(257)));
    assert!(rt; !one.coherent());
    assert!(rt; gives(alloc, &mut one, "truncate 256:/a 16384", "ok")?);
    assert!(rt; one.coherent());
    assert!(rt; gives(alloc, &mut one, "read 256:/a 12287 3", "ok *1:0+*2:7")?);
    assert!(rt; one.kind_of(SECOND_SUB, Ino(256)) == Some(Kind::Dir));
    let (name, value) = (name_of(alloc, "user.k")?, Text::new(alloc, b"v")?);
    one.put_attr(alloc, SECOND_SUB, Ino(256), name, value)?;
    assert!(rt; gives(alloc, &mut one, "getattr 256:/ user.k", "ok v")?);
    assert!(rt; !one.same_record(&two, SECOND_SUB, Ino(256)));
    assert!(rt; one.same_record(&two, FIRST_SUB, Ino(256)));
    Ok(())
}

#[test]
fn a_subvolume_is_seen(rt: HostRuntime) -> Result<(), Fail> {
    let alloc = rt.alloc();
    let inodes = [(257, Kind::Dir), (258, Kind::File)];
    let names = [(256, 2, "d", 257), (257, 3, "x", 258), (256, 4, "y", 258)];
    let volume = built(alloc, &inodes, &names)?;
    assert!(rt; volume.has_sub(FIRST_SUB));
    let inos = volume.inodes(alloc, FIRST_SUB)?;
    assert!(rt; inos.as_slice() == [Ino(256), Ino(257), Ino(258)].as_slice());
    let view = volume.view(FIRST_SUB);
    assert!(rt; view.slot(Ino(257), b"x") == Some(Ino(258)));
    assert!(rt; view.slot(Ino(256), b"x") == None);
    assert_eq!(rt; view.names_of(alloc, Ino(258))?.len(), 2);
    assert_eq!(rt; view.entries(alloc, Ino(257))?.len(), 1);
    assert!(rt; view.has(Ino(258)));
    assert!(rt; !view.has(Ino(259)));
    assert!(rt; view.is_dir(Ino(257)));
    assert!(rt; !view.is_dir(Ino(258)));
    Ok(())
}

#[test]
fn coherence_is_told(rt: HostRuntime) -> Result<(), Fail> {
    let alloc = rt.alloc();
    let (dir, file) = ((257, Kind::Dir), (257, Kind::File));
    let sound = built(alloc, &[dir], &[(256, 2, "d", 257)])?;
    assert!(rt; sound.coherent());
    let leads_nowhere = built(alloc, &[], &[(256, 2, "a", 257)])?;
    assert!(rt; !leads_nowhere.coherent());
    let twice_named = built(alloc, &[dir], &[(256, 2, "d", 257), (256, 3, "e", 257)])?;
    assert!(rt; !twice_named.coherent());
    let nameless = built(alloc, &[file], &[])?;
    assert!(rt; !nameless.coherent());
    let ring = built(
        alloc,
        &[dir, (258, Kind::Dir)],
        &[(257, 2, "x", 258), (258, 2, "y", 257)],
    )?;
    assert!(rt; !ring.coherent());
    let early = built(alloc, &[file], &[(256, 1, "a", 257)])?;
    assert!(rt; !early.coherent());
    Ok(())
}
