//! Readers that may lie, swell files and meet.
ghost use Rattle.std.specs.Prelude.{◌≡◌, ◌≢◌, IfSome};

use crate::readers::MemReader;
use crate::tricks::Tricks;
use outside::{Failed, Kind, LinkError, LinkText, ListError, Listing, ReadError, Stat, Tree};
use path_text::Path;
use std::alloc::Global;
use std::marker::Model;

/// The answer for a path that a [`crate::Blind`] lies about: a directory.
const LIE: Stat = Stat {
    kind: Kind::Dir,
    size: 0,
    mtime: None,
};

// One byte more, if the answer is a file.
fn swelled(told: Option<Stat>) -> Option<Stat>
    ensures { IfSome told (λ stat. stat.kind ≢ Kind.File → stat.size ≡ 0) → IfSome result (λ stat. stat.kind ≢ Kind.File → stat.size ≡ 0) }
{
    match told {
        Some(stat) if stat.kind == Kind::File => Some(Stat {
            size: stat.size.saturating_add(1),
            ..stat
        }),
        told => told,
    }
}

/// A reader of files in memory that tells no tree, seen as its count of faults. It lies, swells files and meets as the ground
/// planned before it made the reader.
#[derive(Drop)]
pub struct BlindReader {
    reader: MemReader,
    tricks: Tricks,
    count: u64,
}

impl Model for BlindReader {
    ghost use Rattle.std.specs.Prelude.{ℕ};

    ghost Value = { ℕ };

    ghost view = { λ r. r.count };
}

impl BlindReader {
    /// It has not failed yet.
    pub(crate) fn make(reader: MemReader, tricks: Tricks) -> BlindReader
        ensures { result ≡ 0 }
    {
        BlindReader {
            reader,
            tricks,
            count: 0,
        }
    }

    /// The reader that the calls went to.
    pub(crate) fn into_reader(self) -> MemReader {
        self.reader
    }
}

impl Tree for BlindReader {
    ghost use Rattle.std.specs.Prelude.{None};

    ghost tree = { λ _. None };

    ghost count = { λ reader. reader };

    fn faults(&self) -> u64 {
        self.count
    }

    /// A path that meets another waits for it, and fails if it does not come. A path that is lied about is a directory.
    fn stat(&mut self, path: &Path) -> Result<Option<Stat>, Failed> {
        if !self.tricks.meets(path) {
            self.count = self.count.saturating_add(1);
            return Err(Failed);
        }
        if self.tricks.lies(path) {
            return Ok(Some(LIE));
        }
        match self.reader.stat(path) {
            Ok(told) if self.tricks.swells(path) => Ok(swelled(told)),
            Ok(told) => Ok(told),
            Err(Failed) => {
                self.count = self.count.saturating_add(1);
                Err(Failed)
            }
        }
    }

    fn list(&mut self, alloc: Global, path: &Path) -> Result<Listing, ListError> {
        match self.reader.list(alloc, path) {
            Ok(listing) => {
                self.count = self.count.saturating_add(listing.unnamed());
                Ok(listing)
            }
            Err(ListError::Failed) => {
                self.count = self.count.saturating_add(1);
                Err(ListError::Failed)
            }
            Err(e) => Err(e),
        }
    }

    fn read(&mut self, path: &Path, at: u64, into: &mut [u8]) -> Result<usize, ReadError> {
        match self.reader.read(path, at, into) {
            Err(ReadError::Failed) => {
                self.count = self.count.saturating_add(1);
                Err(ReadError::Failed)
            }
            told => told,
        }
    }

    fn read_link(&mut self, alloc: Global, path: &Path) -> Result<LinkText, LinkError> {
        match self.reader.read_link(alloc, path) {
            Ok(text) => Ok(text),
            Err(LinkError::Failed) => {
                self.count = self.count.saturating_add(1);
                Err(LinkError::Failed)
            }
            Err(e) => Err(e),
        }
    }
}
