//! A clock and a screen that tests hold.
use std::fmt::Display;
use std::fs::File;
use std::io;
use std::io::{ErrorKind, Print};
use std::os::unix::fs::FileExt;
use std::rt::Clock;
use std::sync::atomic::{AtomicU64, Ordering};
use std::time::Duration;

/// A clock in milliseconds. Each time it is read it goes on by its step.
#[derive(Drop)]
pub struct Hand {
    time: AtomicU64,
    step: u64,
}

impl Hand {
    /// It is at 0.
    pub fn with(step: u64) -> Hand {
        Hand {
            time: AtomicU64::new(0),
            step,
        }
    }

    /// Puts it to a time.
    pub fn put(&self, millis: u64) {
        self.time.store(millis, Ordering::SeqCst);
    }
}

impl Clock for Hand {
    fn monotonic(&self) -> io::Result<Duration> {
        Ok(Duration::from_millis(self.time.fetch_add(self.step, Ordering::SeqCst)))
    }

    fn since_1970(&self) -> io::Result<Duration> {
        self.monotonic()
    }
}

/// A screen that keeps all that is written to it in a file, which is open to append to it.
#[derive(Drop)]
pub struct Screen(pub File);

impl Print for Screen {
    fn print<D: Display + Drop>(&self, _value: D) -> io::Result<()> {
        Err(io::Error::from(ErrorKind::Unsupported))
    }

    fn println<D: Display + Drop>(&self, _value: D) -> io::Result<()> {
        Err(io::Error::from(ErrorKind::Unsupported))
    }

    fn write_all(&self, bytes: &[u8]) -> io::Result<()> {
        self.0.write_at(bytes, 0)?;
        Ok(())
    }
}
