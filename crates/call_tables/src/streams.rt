use outer_real::{StdSink, StdSource};
use outer_traits::{Failed, OuterError, Sink, Source};
use std::io::{Error, ErrorKind, Read, Result, Write};

/// A stream that fails at each odd call, as where a signal interrupts it, and moves one byte at each other.
#[derive(Drop)]
struct Interrupted {
    calls: u64,
}

impl Interrupted {
    fn call(&mut self) -> Result<()> {
        self.calls = self.calls.wrapping_add(1);
        if self.calls % 2 == 1 {
            return Err(Error::from(ErrorKind::Interrupted));
        }
        Ok(())
    }
}

impl Read for Interrupted {
    fn read(&mut self, into: &mut [u8]) -> Result<usize> {
        self.call()?;
        Ok(into.len().min(1))
    }
}

impl Write for Interrupted {
    fn write(&mut self, bytes: &[u8]) -> Result<usize> {
        self.call()?;
        Ok(bytes.len().min(1))
    }

    fn flush(&mut self) -> Result<()> {
        Ok(())
    }
}

#[test]
fn a_read_of_the_stream_is_one_read_here(rt: HostRuntime) {
    let mut source = StdSource::new(Interrupted { calls: 0 });
    for wanted in [Err(Failed), Ok(1), Err(Failed)] {
        assert_eq!(rt; source.read(&mut [0; 2]), wanted);
    }
}

#[test]
fn a_write_to_the_stream_is_one_write_here(rt: HostRuntime) {
    let mut sink = StdSink::new(Interrupted { calls: 0 });
    for wanted in [Err(OuterError::Failed), Ok(1), Err(OuterError::Failed)] {
        assert_eq!(rt; sink.write(b"ab"), wanted);
    }
}
