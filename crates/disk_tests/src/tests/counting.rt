//! The system of a test, which counts the names alone and the whole paths by which it is asked, and the changes of the working directory.
use real_disk::Watch;
use std::io;
use std::io::ErrorKind;
use std::sync::atomic::{AtomicU64, Ordering};
use whole_disk::{Asked, Hook, Hooked};

/// How often a system was asked by a name alone, how often by a whole path, and how often to change the working directory.
#[derive(Drop)]
pub struct Counts {
    names: AtomicU64,
    paths: AtomicU64,
    changes: AtomicU64,
}

impl Counts {
    /// Never.
    pub fn none() -> Counts {
        Counts {
            names: AtomicU64::new(0),
            paths: AtomicU64::new(0),
            changes: AtomicU64::new(0),
        }
    }

    /// How often it was asked by a name alone.
    pub fn names(&self) -> u64 {
        self.names.load(Ordering::SeqCst)
    }

    /// How often it was asked by a whole path.
    pub fn paths(&self) -> u64 {
        self.paths.load(Ordering::SeqCst)
    }

    /// How often it was asked to change the working directory.
    pub fn changes(&self) -> u64 {
        self.changes.load(Ordering::SeqCst)
    }
}

/// The files of the system, of which each call is counted.
pub type Counting<'a> = Hooked<Counter<'a>>;

/// Where calls are counted.
#[derive(Clone, Copy, Drop)]
pub struct Counter<'a> {
    pub counts: &'a Counts,
    /// Whether the working directory can be changed.
    pub changes: bool,
}

impl Hook for Counter<'_> {
    fn before(&self, _host: HostRuntime, _call: Asked, path: &str) -> io::Result<()> {
        let kind = if path.starts_with('/') {
            &self.counts.paths
        } else {
            &self.counts.names
        };
        kind.fetch_add(1, Ordering::SeqCst);
        Ok(())
    }

    fn work_in(&self, host: HostRuntime, path: &str) -> io::Result<()> {
        self.counts.changes.fetch_add(1, Ordering::SeqCst);
        if self.changes {
            host.work_in(path)
        } else {
            Err(io::Error::from(ErrorKind::PermissionDenied))
        }
    }
}

/// The files of the host, of which each call is counted here. The working directory can be changed or not.
pub fn counting(host: HostRuntime, counts: &Counts, changes: bool) -> Counting<'_> {
    Hooked {
        host,
        hook: Counter { counts, changes },
    }
}
