//! The standard streams as sinks.
ghost use Rattle.std.specs.Prelude.{◌≡◌};

use outside::{Failed, Sink};
use std::io::Write;
use std::marker::Model;

/// A stream of the system, seen as its count of faults. It tells no text.
#[derive(Drop)]
pub struct RealSink<W> {
    stream: W,
    count: u64,
}

impl<W> Model for RealSink<W> {
    ghost use Rattle.std.specs.Prelude.{ℕ};

    ghost Value = { ℕ };

    ghost view = { λ sink. sink.count };
}

impl<W> RealSink<W> {
    /// A sink over a stream, with no fault yet.
    pub fn make(stream: W) -> RealSink<W>
        ensures { result ≡ 0 }
    {
        RealSink { stream, count: 0 }
    }
}

impl<W: Write> Sink for RealSink<W> {
    ghost use Rattle.std.specs.Prelude.{None};

    ghost text = { λ _. None };

    ghost count = { λ sink. sink };

    fn faults(&self) -> u64 {
        self.count
    }

    /// An empty piece makes no call. If the stream takes nothing of any other piece, that is a fault.
    fn put(&mut self, bytes: &[u8]) -> Result<usize, Failed> {
        if bytes.is_empty() {
            return Ok(0);
        }
        match self.stream.write(bytes) {
            Ok(n) if n > 0 => Ok(n),
            _ => {
                self.count = self.count.saturating_add(1);
                Err(Failed)
            }
        }
    }
}
