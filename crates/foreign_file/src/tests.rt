ghost use Rattle.std.specs.Prelude.{◌≡◌};

use super::{Sum, sum_of};
use blk_base::put_bytes;
use disk_memory::ListDisk;
use foreign_format::{Chunk, Coding, Extent, ForeignFault, ReadFault, Source};
use foreign_tree::Volume;
use std::alloc::Global;
use std::process::Abort;
use std::test::Fail;

/// The logical address of the one chunk, of two blocks from block 5 of the disk on.
const DATA: u64 = 1_048_576;

/// A plain extent at an offset.
fn plain(offset: u64, source: Source) -> Extent {
    Extent {
        offset,
        coding: Coding::Plain,
        source,
    }
}

/// The bytes of a data extent from its byte 100 on, where `hello` stands.
fn regular(length: u64) -> Source {
    Source::Regular {
        at: DATA,
        offset: 100,
        length,
    }
}

/// What a listing shows of a file with these extents, or the fault.
fn sum_with(alloc: Global, size: u64, extents: &[Extent]) -> Result<Result<Sum, ReadFault>, Fail> {
    let mut disk = ListDisk::<16>::new(alloc, 0);
    let mut block = [0; 4096];
    put_bytes(&mut block, 100, b"hello");
    disk.put(5, &block)?;
    put_bytes(&mut block, 4094, b"hi");
    disk.put(9, &block)?;
    let mut chunks = Vec::new(alloc);
    chunks.push(Chunk {
        logical: DATA,
        length: 8192,
        physical: 20_480,
    })?;
    let volume = Volume {
        fsid: [7; 16],
        node_size: 4096,
        chunks,
    };
    Ok(sum_of(alloc, &mut disk, &volume, size, extents))
}

/// Bytes of a data extent, a gap, a hole, bytes of an item and zeros up to the size; less of it where the size is less.
#[test]
fn sums(rt: HostRuntime) -> Result<(), Fail> {
    let inline = Source::Inline {
        at: 40_958,
        length: 2,
    };
    let extents = [
        plain(0, regular(5)),
        plain(8, Source::Zeros { length: 3 }),
        plain(11, inline),
    ];
    let all = extents.as_slice();
    assert!(rt; sum_with(rt.alloc(), 20, all)? == Ok(Sum::Taken(0xcc90_69be)));
    assert!(rt; sum_with(rt.alloc(), 7, all)? == Ok(Sum::Taken(0xf674_5031)));
    assert!(rt; sum_with(rt.alloc(), 3, all)? == Ok(Sum::Taken(0x8f25_666d)));
    assert!(rt; sum_with(rt.alloc(), 0, all)? == Ok(Sum::Taken(0)));
    assert!(rt; sum_with(rt.alloc(), 1_073_741_825, all)? == Ok(Sum::Large));
    Ok(())
}

/// An extent passes its chunk by the bytes below the size alone; the first coding that isn't plain is shown at any size.
#[test]
fn refused_and_coded(rt: HostRuntime) -> Result<(), Fail> {
    let long = [plain(0, regular(9000))];
    assert!(rt; sum_with(rt.alloc(), 3, long.as_slice())? == Ok(Sum::Taken(0x8f25_666d)));
    let unmapped = ReadFault::Foreign(ForeignFault::Unmapped(DATA));
    assert!(rt; sum_with(rt.alloc(), 8093, long.as_slice())? == Err(unmapped));
    let coded = [
        plain(0, regular(9000)),
        Extent {
            coding: Coding::Encrypted,
            ..plain(9000, regular(1))
        },
        Extent {
            coding: Coding::Compressed,
            ..plain(9001, regular(1))
        },
    ];
    assert!(rt; sum_with(rt.alloc(), 9002, coded.as_slice())? == Ok(Sum::Encrypted));
    Ok(())
}
