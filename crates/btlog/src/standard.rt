ghost use Rattle.std.specs.Prelude.{◌<◌, length};

use io_edge::{Sink, SinkFailed, Source, SourceFailed};
use std::io::{Read, Write};

/// A reader as a source. It tells nothing of what is left.
#[derive(Drop)]
pub struct ReaderSource<R: Read + Drop> {
    reader: R,
    faults: u64,
}

impl<R: Read + Drop> ReaderSource<R> {
    pub fn new(reader: R) -> ReaderSource<R> {
        ReaderSource { reader, faults: 0 }
    }
}

impl<R: Read + Drop> Source for ReaderSource<R> {
    ghost use Rattle.std.specs.Prelude.{None};

    ghost left = { λ _. None };

    ghost faults = { λ source. source.faults };

    fn read(&mut self, into: &mut [u8]) -> Result<usize, SourceFailed> {
        let mut piece = [0u8; 4096];
        let room = into.len().min(piece.len());
        match self.reader.read(&mut piece[..room]) {
            Ok(count) => {
                into[..count].copy_from_slice(&piece[..count]);
                Ok(count)
            }
            Err(_) => {
                self.faults = self.faults.saturating_add(1);
                Err(SourceFailed)
            }
        }
    }
}

/// A writer as a sink. It tells nothing of what it took; a write that takes no byte is a fault.
#[derive(Drop)]
pub struct WriterSink<W: Write + Drop> {
    writer: W,
    faults: u64,
}

impl<W: Write + Drop> WriterSink<W> {
    pub fn new(writer: W) -> WriterSink<W> {
        WriterSink { writer, faults: 0 }
    }
}

impl<W: Write + Drop> Sink for WriterSink<W> {
    ghost use Rattle.std.specs.Prelude.{None};

    ghost taken = { λ _. None };

    ghost faults = { λ sink. sink.faults };

    fn write(&mut self, bytes: &[u8]) -> Result<usize, SinkFailed> {
        match self.writer.write(bytes) {
            Ok(0) | Err(_) => {
                self.faults = self.faults.saturating_add(1);
                Err(SinkFailed)
            }
            Ok(count) => Ok(count),
        }
    }
}

#[cfg(test)]
mod tests {
    use super::*;
    use std::io;
    use std::io::ErrorKind;
    use std::test::Fail;

    /// Takes so many bytes, and then none.
    #[derive(Drop)]
    struct FullWriter {
        room: usize,
    }

    impl Write for FullWriter {
        fn write(&mut self, buf: &[u8]) -> io::Result<usize> {
            let count = buf.len().min(self.room);
            self.room -= count;
            Ok(count)
        }

        fn flush(&mut self) -> io::Result<()> {
            Ok(())
        }
    }

    /// Gives one byte, and then fails.
    #[derive(Drop)]
    struct BrokenReader {
        gave: bool,
    }

    impl Read for BrokenReader {
        fn read(&mut self, buf: &mut [u8]) -> io::Result<usize> {
            if self.gave || buf.is_empty() {
                return Err(io::Error::from(ErrorKind::Other));
            }
            self.gave = true;
            buf[0] = 7;
            Ok(1)
        }
    }

    fn put<K: Sink>(sink: &mut K, bytes: &[u8]) -> Result<usize, SinkFailed>
        requires { 0 < length bytes.now }
    {
        sink.write(bytes)
    }

    fn next<S: Source>(source: &mut S, into: &mut [u8]) -> Result<usize, SourceFailed>
        requires { 0 < length into.old }
    {
        source.read(into)
    }

    #[test]
    fn an_empty_write_is_a_fault(rt: HostRuntime) -> Result<(), Fail> {
        let mut sink = WriterSink::new(FullWriter { room: 3 });
        assert_eq!(rt; put(&mut sink, b"abcd"), Ok(3));
        assert_eq!(rt; put(&mut sink, b"d"), Err(SinkFailed));
        assert_eq!(rt; sink.faults, 1);
        Ok(())
    }

    #[test]
    fn a_reader_fails_in_mid_stream(rt: HostRuntime) -> Result<(), Fail> {
        let mut source = ReaderSource::new(BrokenReader { gave: false });
        let mut into = [1u8, 2, 3];
        assert_eq!(rt; next(&mut source, &mut into), Ok(1));
        assert_eq!(rt; into.as_slice(), [7, 2, 3].as_slice());
        assert_eq!(rt; next(&mut source, &mut into), Err(SourceFailed));
        assert_eq!(rt; source.faults, 1);
        Ok(())
    }
}
