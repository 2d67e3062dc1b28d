ghost use Rattle.std.specs.Prelude.{◌<◌, length};

use io_edge::{
    MemorySink, MemorySource, ReadFault, SINK_ROOM, Sink, SinkFailed, Source, SourceFailed, put,
    put_all, read_all,
};
use std::alloc::Global;
use std::test::Fail;

fn next<S: Source>(source: &mut S, into: &mut [u8]) -> Result<usize, SourceFailed>
    requires { 0 < length into.old }
{
    source.read(into)
}

fn take<K: Sink>(sink: &mut K, bytes: &[u8]) -> Result<usize, SinkFailed>
    requires { 0 < length bytes.now }
{
    sink.write(bytes)
}

#[test]
fn source_fails_in_mid_stream(rt: HostRuntime) -> Result<(), Fail> {
    let mut source = MemorySource::new(rt.alloc(), b"abcde", &[2])?;
    let mut into = [0u8; 3];
    assert_eq!(rt; next(&mut source, &mut into), Ok(3));
    assert_eq!(rt; into.as_slice(), b"abc".as_slice());
    assert_eq!(rt; next(&mut source, &mut into), Err(SourceFailed));
    assert_eq!(rt; next(&mut source, &mut into), Ok(2));
    assert_eq!(rt; into.as_slice(), b"dec".as_slice());
    assert_eq!(rt; next(&mut source, &mut into), Ok(0));
    Ok(())
}

#[test]
fn sink_fails_in_mid_stream_and_past_its_room(rt: HostRuntime) -> Result<(), Fail> {
    let mut sink = MemorySink::new(rt.alloc(), &[2])?;
    assert_eq!(rt; take(&mut sink, b"ab"), Ok(2));
    assert_eq!(rt; take(&mut sink, b"cd"), Err(SinkFailed));
    assert_eq!(rt; take(&mut sink, b"ef"), Ok(2));
    assert_eq!(rt; sink.bytes(), b"abef".as_slice());

    let piece = vec![in rt.alloc(); 7u8; SINK_ROOM]?;
    assert_eq!(rt; take(&mut sink, &piece), Err(SinkFailed));
    assert_eq!(rt; take(&mut sink, &piece[4..]), Ok(SINK_ROOM - 4));
    assert_eq!(rt; take(&mut sink, b"g"), Err(SinkFailed));
    assert_eq!(rt; sink.bytes().len(), SINK_ROOM);
    Ok(())
}

#[test]
fn texts_are_put_whole(rt: HostRuntime) -> Result<(), Fail> {
    let mut sink = MemorySink::new(rt.alloc(), &[3])?;
    assert_eq!(rt; put(&mut sink, b"ab"), Ok(()));
    assert_eq!(rt; put(&mut sink, b""), Ok(()));
    assert_eq!(rt; put_all(&mut sink, &["c", "de", "f"]), Err(SinkFailed));
    assert_eq!(rt; sink.bytes(), b"abc".as_slice());
    Ok(())
}

/// How many bytes a source of so many zeros gives, or the fault, where its read of this number fails.
fn read(alloc: Global, count: usize, fails: u64) -> Result<Result<usize, ReadFault>, Fail> {
    let bytes = vec![in alloc; 0u8; count]?;
    let mut from = MemorySource::new(alloc, &bytes, &[fails])?;
    Ok(match read_all(alloc, &mut from) {
        Ok(bytes) => Ok(bytes.len()),
        Err(fault) => Err(fault),
    })
}

#[test]
fn a_source_is_read_to_its_end(rt: HostRuntime) -> Result<(), Fail> {
    let rows = [
        (7, 0, Ok(7)),
        (7, 2, Err(ReadFault::Failed { taken: 7 })),
        (16_777_216, 0, Ok(16_777_216)),
        (16_777_217, 0, Err(ReadFault::Failed { taken: 16_777_216 })),
    ];
    for (count, fails, wanted) in rows {
        assert_eq!(rt; read(rt.alloc(), count, fails)?, wanted);
    }
    Ok(())
}
