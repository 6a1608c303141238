//! What the system of a test can't be made to tell: names that are no text, a directory that fails while it is read, and a clock.
use crate::tests::shared::{joined, same, so};
use outside::{Ground, ListError, Tree};
use path_text::Path;
use real_disk::{RealGround, Watch, seconds};
use std::alloc::Allocator;
use std::fs::{File, Files, Metadata, OpenOptions};
use std::io;
use std::io::{ErrorKind, Read};
use std::process::Abort;
use std::random::RandomSource;
use std::rt::Clock;
use std::time::Duration;

/// A system with one directory, whose names come in two pieces; the second may fail.
#[derive(Clone, Copy, Drop)]
struct Odd {
    fails: bool,
}

/// The names of its directory.
#[derive(Drop)]
struct Pieces {
    given: u8,
    fails: bool,
}

impl Read for Pieces {
    fn read(&mut self, into: &mut [u8]) -> io::Result<usize> {
        let piece = match self.given {
            0 => b".\0..\0two\0\xff\0".as_slice(),
            1 => b"two\0one\0a\xffb\0\xc3\xa9\0".as_slice(),
            _ => b"".as_slice(),
        };
        if self.fails && self.given == 1 {
            return Err(io::Error::from(ErrorKind::TimedOut));
        }
        self.given = self.given.saturating_add(1);
        let n = piece.len().min(into.len());
        into[..n].copy_from_slice(&piece[..n]);
        Ok(n)
    }
}

fn refused<T: Drop>() -> io::Result<T> {
    Err(io::Error::from(ErrorKind::Unsupported))
}

impl Files for Odd {
    type File = File;

    type Dir = Pieces;

    fn open_file(&self, _how: &OpenOptions, _path: &str) -> io::Result<File> {
        refused()
    }

    fn open_dir(&self, _path: &str) -> io::Result<Pieces> {
        Ok(Pieces {
            given: 0,
            fails: self.fails,
        })
    }

    fn metadata(&self, _path: &str) -> io::Result<Metadata> {
        refused()
    }

    fn symlink_metadata(&self, _path: &str) -> io::Result<Metadata> {
        refused()
    }

    fn copy(&self, _from: &str, _to: &str) -> io::Result<u64> {
        refused()
    }

    fn rename(&self, _from: &str, _to: &str) -> io::Result<()> {
        refused()
    }

    fn remove_file(&self, _path: &str) -> io::Result<()> {
        refused()
    }

    fn create_dir(&self, _path: &str) -> io::Result<()> {
        refused()
    }

    fn remove_dir(&self, _path: &str) -> io::Result<()> {
        refused()
    }

    fn remove_dir_all<B: Allocator>(&self, _alloc: B, _path: &str) -> io::Result<()> {
        refused()
    }
}

impl RandomSource for Odd {
    fn fill_bytes(&self, _bytes: &mut [u8]) -> io::Result<()> {
        refused()
    }
}

impl Watch for Odd {
    fn apart(&self) -> Odd {
        *self
    }
}

// The names in that directory, with a blank behind each, the two numbers, and the count of faults.
fn listed(
    rt: &(impl Abort + AllocGlobal),
    fails: bool,
) -> (Result<(String, u64, u64), ListError>, u64) {
    let alloc = rt.alloc();
    let path = Path::parse(alloc, "/x").expect(rt, "a path");
    let mut files = RealGround::make(alloc, Odd { fails });
    let mut reader = files.reader(alloc).expect(rt, "memory");
    let told = reader.list(alloc, &path).map(|listing| (
        joined(rt, &listing),
        listing.unnamed(),
        listing.far(),
    ));
    let faults = reader.faults();
    files.take_reader(reader);
    (told, faults)
}

#[test]
fn names_that_are_no_text_are_counted(rt: HostRuntime) {
    let (told, faults) = listed(&rt, false);
    let (names, unnamed, far) = told.expect(&rt, "names");
    same(&rt, &names.as_str(), &"one two \u{e9} ");
    same(&rt, &(unnamed, far, faults), &(2, 0, 2));
}

#[test]
fn names_that_end_in_a_fault_are_no_listing(rt: HostRuntime) {
    let (told, faults) = listed(&rt, true);
    same(&rt, &told.err(), &Some(ListError::Failed));
    same(&rt, &faults, &1);
}

/// A clock that stands, or that can't be read.
#[derive(Drop)]
struct Standing(Option<Duration>);

impl Clock for Standing {
    fn monotonic(&self) -> io::Result<Duration> {
        refused()
    }

    fn since_1970(&self) -> io::Result<Duration> {
        match self.0 {
            Some(time) => Ok(time),
            None => refused(),
        }
    }
}

#[test]
fn the_time_is_that_of_the_clock(rt: HostRuntime) {
    for (millis, want) in [
        (0, 0),
        (999, 0),
        (1000, 1),
        (1_700_000_000_999, 1_700_000_000),
    ] {
        let clock = Standing(Some(Duration::from_millis(millis)));
        same(&rt, &seconds(&clock), &want);
    }
    same(&rt, &seconds(&Standing(None)), &0);
    so(&rt, seconds(&rt) > 1_700_000_000, "the time of the system");
}
