//! A reader of files that change.
use files_mem::MemReader;
use outside::{Failed, LinkError, LinkText, ListError, Listing, ReadError, Stat, Tree};
use path_text::Path;
use std::alloc::Global;

/// How many calls of each kind were made.
#[derive(Clone, Copy, Debug, Drop, PartialEq, Eq)]
pub struct Calls {
    /// Calls of `stat`.
    pub stats: u64,
    /// Calls of `list`.
    pub lists: u64,
    /// Calls of `read_link`.
    pub links: u64,
}

impl Calls {
    /// No call yet.
    pub const NONE: Calls = Calls {
        stats: 0,
        lists: 0,
        links: 0,
    };

    // These calls and those.
    pub(crate) fn and(self, more: Calls) -> Calls {
        Calls {
            stats: self.stats.saturating_add(more.stats),
            lists: self.lists.saturating_add(more.lists),
            links: self.links.saturating_add(more.links),
        }
    }
}

/// A reader of the files as they were when it was made. It never fails.
#[derive(Drop)]
pub struct ShiftingReader {
    pub(crate) seen: MemReader,
    pub(crate) found: MemReader,
    pub(crate) calls: Calls,
}

impl Tree for ShiftingReader {
    ghost use Rattle.std.specs.Prelude.{None};

    ghost tree = { λ _. None };

    ghost count = { λ _. 0 };

    fn faults(&self) -> u64 {
        0
    }

    fn stat(&mut self, path: &Path) -> Result<Option<Stat>, Failed> {
        self.calls.stats = self.calls.stats.saturating_add(1);
        let Ok(Some(stat)) = self.seen.stat(path) else {
            return Ok(None);
        };
        Ok(Some(Stat {
            kind: stat.kind,
            size: 0,
            mtime: Some(self.calls.stats),
        }))
    }

    fn list(&mut self, alloc: Global, path: &Path) -> Result<Listing, ListError> {
        self.calls.lists = self.calls.lists.saturating_add(1);
        match self.found.list(alloc, path) {
            Ok(names) if names.unnamed() == 0 => Ok(names),
            _ => Err(ListError::NotDir),
        }
    }

    fn read(&mut self, _path: &Path, _at: u64, _into: &mut [u8]) -> Result<usize, ReadError> {
        Err(ReadError::NotFile)
    }

    fn read_link(&mut self, alloc: Global, path: &Path) -> Result<LinkText, LinkError> {
        self.calls.links = self.calls.links.saturating_add(1);
        match self.found.read_link(alloc, path) {
            Ok(text) => Ok(text),
            _ => Err(LinkError::NotLink),
        }
    }
}
