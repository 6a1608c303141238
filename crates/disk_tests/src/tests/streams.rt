//! A stream that takes little.
use crate::tests::shared::same;
use outside::{Failed, Sink};
use real_disk::RealSink;
use std::io;
use std::io::{ErrorKind, Write};

/// Takes two bytes at a time, then nothing, and then fails.
#[derive(Drop)]
struct Narrow {
    writes: u8,
}

impl Write for Narrow {
    fn write(&mut self, buf: &[u8]) -> io::Result<usize> {
        self.writes = self.writes.saturating_add(1);
        match self.writes {
            1 => Ok(buf.len().min(2)),
            2 => Ok(0),
            _ => Err(io::Error::from(ErrorKind::BrokenPipe)),
        }
    }

    fn flush(&mut self) -> io::Result<()> {
        Ok(())
    }
}

#[test]
fn a_write_of_nothing_is_a_fault(rt: HostRuntime) {
    let mut sink = RealSink::make(Narrow { writes: 0 });
    let cases = [
        (b"".as_slice(), Ok(0), 0),
        (b"abc".as_slice(), Ok(2), 0),
        (b"c".as_slice(), Err(Failed), 1),
        (b"".as_slice(), Ok(0), 1),
        (b"c".as_slice(), Err(Failed), 2),
    ];
    for (bytes, want, faults) in cases {
        same(&rt, &sink.put(bytes), &want);
        same(&rt, &sink.faults(), &faults);
    }
}
