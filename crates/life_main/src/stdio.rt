//! Standard input as a source and standard output as a sink.
ghost use Rattle.std.specs.Prelude.{◌≡◌, ⊤};

use life_core::{Failed, Sink, Source};
use std::io::{Read, Write};

/// A reader, whose failed reads are counted.
#[derive(Drop)]
pub struct StdSource<R> {
    reader: R,
    faults: u64,
}

impl<R: Read> StdSource<R> {
    /// The bytes that this reader gives.
    pub fn new(reader: R) -> StdSource<R>
        ensures { result ≡ record { reader = reader; faults = 0 } }
    {
        StdSource { reader, faults: 0 }
    }
}

impl<R: Read> Source for StdSource<R> {
    ghost rest = { λ s. R.remaining s.reader };

    ghost faults = { λ s. s.faults };

    ghost reliable = { λ _. ⊥ };

    ghost reads = { λ _ _ _ _. ⊤ };

    fn read(&mut self, buf: &mut [u8]) -> Result<usize, Failed> {
        match self.reader.read(buf) {
            Ok(count) => Ok(count),
            Err(_) => {
                self.faults = self.faults.saturating_add(1);
                Err(Failed)
            }
        }
    }
}

/// A writer, whose failed writes are counted. Each write goes to it at once.
#[derive(Drop)]
pub struct StdSink<W> {
    writer: W,
    faults: u64,
}

impl<W: Write> StdSink<W> {
    /// Where this writer puts bytes.
    pub fn new(writer: W) -> StdSink<W>
        ensures { result ≡ record { writer = writer; faults = 0 } }
    {
        StdSink { writer, faults: 0 }
    }
}

impl<W: Write> Sink for StdSink<W> {
    ghost held = { λ s. W.contents s.writer };

    ghost faults = { λ s. s.faults };

    ghost reliable = { λ _ _. ⊥ };

    ghost writes = { λ _ _ _ _. ⊤ };

    fn write(&mut self, buf: &[u8]) -> Result<usize, Failed> {
        match self.writer.write(buf) {
            Ok(count) if 0 < count || buf.is_empty() => Ok(count),
            _ => {
                self.faults = self.faults.saturating_add(1);
                Err(Failed)
            }
        }
    }
}

#[cfg(test)]
mod tests {
    use super::*;
    use std::io::{self, ErrorKind};
    use std::test::Fail;

    /// A pipe that is broken to a reader, and full to a writer.
    #[derive(Drop)]
    struct Stuck;

    impl Read for Stuck {
        fn read(&mut self, _buf: &mut [u8]) -> io::Result<usize> {
            Err(io::Error::from(ErrorKind::BrokenPipe))
        }
    }

    impl Write for Stuck {
        fn write(&mut self, _buf: &[u8]) -> io::Result<usize> {
            Ok(0)
        }

        fn flush(&mut self) -> io::Result<()> {
            Ok(())
        }
    }

    #[test]
    fn reads_and_counts_what_fails(rt: HostRuntime) {
        let mut piece = [0; 2];
        let mut source = StdSource::new(b"abc" as &[u8]);
        assert!(rt; matches!(source.read(&mut piece), Ok(2)));
        assert_eq!(rt; piece.as_slice(), b"ab".as_slice());
        assert!(rt; matches!(source.read(&mut piece), Ok(1)));
        assert!(rt; matches!(source.read(&mut piece), Ok(0)));
        assert_eq!(rt; source.faults, 0);
        let mut stuck = StdSource::new(Stuck);
        assert!(rt; stuck.read(&mut piece).is_err());
        assert!(rt; stuck.read(&mut piece).is_err());
        assert_eq!(rt; stuck.faults, 2);
    }

    #[test]
    fn writes_and_counts_what_fails(rt: HostRuntime) -> Result<(), Fail> {
        let mut sink = StdSink::new(Vec::new(rt.alloc()));
        assert!(rt; matches!(sink.write(b"abc"), Ok(3)));
        assert!(rt; matches!(sink.write(b""), Ok(0)));
        assert_eq!(rt; sink.writer.as_slice(), b"abc".as_slice());
        assert_eq!(rt; sink.faults, 0);
        let mut stuck = StdSink::new(Stuck);
        assert!(rt; matches!(stuck.write(b""), Ok(0)));
        assert!(rt; stuck.write(b"abc").is_err());
        assert_eq!(rt; stuck.faults, 1);
        Ok(())
    }
}
