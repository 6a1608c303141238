//! The system of a script, which may refuse a call on links, and keeps lines about failed calls.
//!
//! It is a type of its own, without type parameters or a watched system in it, so that the call of a run is checked in little time.
use path_text::Path;
use real_disk::{Call, Watch, Watched};
use std::alloc::Allocator;
use std::fs::{File, Files, Metadata, OpenOptions};
use std::io;
use std::io::ErrorKind;
use std::path::PathBuf;
use std::random::RandomSource;
use std::rt::Stderr;

/// A call that a copy of links needs.
#[derive(Clone, Copy, PartialEq, Eq, Drop)]
pub enum LinkCall {
    Read,
    Make,
    Remove,
}

/// A call, the end of the paths at which it is refused, and the error.
#[derive(Clone, Copy, Drop)]
pub struct Refusal<'a> {
    pub call: LinkCall,
    pub end: &'a str,
    pub error: ErrorKind,
}

/// The files of the host, of which one call may be refused.
#[derive(Clone, Copy, Drop)]
pub struct Stage<'a> {
    host: HostRuntime,
    // Takes lines about failed calls.
    errors: &'a File,
    refusal: Option<Refusal<'a>>,
}

impl<'a> Stage<'a> {
    /// Those that refuse nothing, and append lines about failed calls to the file.
    pub fn make(host: HostRuntime, errors: &'a File) -> Stage<'a> {
        Stage {
            host,
            errors,
            refusal: None,
        }
    }

    /// The same, with one call that is refused.
    pub fn refusing(self, refusal: Refusal<'a>) -> Stage<'a> {
        Stage {
            host: self.host,
            errors: self.errors,
            refusal: Some(refusal),
        }
    }

    // The host, with the file of lines about failed calls.
    fn watched(&self) -> Watched<'a, HostRuntime, HostRuntime, Stderr> {
        Watched::make(self.host.alloc(), self.host, None, Some(self.errors))
    }

    fn ask(&self, call: LinkCall, path: &str) -> io::Result<()> {
        match &self.refusal {
            Some(refusal) if refusal.call == call && is_end_of(refusal.end, path) => {
                Err(io::Error::from(refusal.error))
            }
            _ => Ok(()),
        }
    }
}

// Whether a path ends so. Of a path in the working directory the system hears the last name alone.
fn is_end_of(end: &str, path: &str) -> bool {
    path.ends_with(end) || end.strip_prefix('/') == Some(path)
}

impl Watch for Stage<'_> {
    fn did(&self, _call: Call, _count: u64) {}

    fn failed(&self, call: Call, path: &Path, cause: &io::Error) {
        self.watched().failed(call, path, cause);
    }

    fn work_in(&self, path: &str) -> io::Result<()> {
        self.host.work_in(path)
    }

    fn apart(&self) -> Self {
        *self
    }
}

impl RandomSource for Stage<'_> {
    fn fill_bytes(&self, buffer: &mut [u8]) -> io::Result<()> {
        self.host.fill_bytes(buffer)
    }
}

impl Files for Stage<'_> {
    type File = File;

    type Dir = <HostRuntime as Files>::Dir;

    fn remove_file(&self, path: &str) -> io::Result<()> {
        self.ask(LinkCall::Remove, path)?;
        self.host.remove_file(path)
    }

    fn read_link<B: Allocator>(&self, alloc: B, path: &str) -> io::Result<PathBuf<B>> {
        self.ask(LinkCall::Read, path)?;
        self.host.read_link(alloc, path)
    }

    fn symlink(&self, original: &str, link: &str) -> io::Result<()> {
        self.ask(LinkCall::Make, link)?;
        self.host.symlink(original, link)
    }

    fn open_file(&self, how: &OpenOptions, path: &str) -> io::Result<File> {
        self.host.open_file(how, path)
    }

    fn rename(&self, from: &str, to: &str) -> io::Result<()> {
        self.host.rename(from, to)
    }

    fn metadata(&self, path: &str) -> io::Result<Metadata> {
        self.host.metadata(path)
    }

    fn open_dir(&self, path: &str) -> io::Result<Self::Dir> {
        self.host.open_dir(path)
    }

    fn create_dir(&self, path: &str) -> io::Result<()> {
        self.host.create_dir(path)
    }

    fn copy(&self, from: &str, to: &str) -> io::Result<u64> {
        self.host.copy(from, to)
    }

    fn symlink_metadata(&self, path: &str) -> io::Result<Metadata> {
        self.host.symlink_metadata(path)
    }

    fn remove_dir(&self, path: &str) -> io::Result<()> {
        self.host.remove_dir(path)
    }

    fn remove_dir_all<B: Allocator>(&self, alloc: B, path: &str) -> io::Result<()> {
        self.host.remove_dir_all(alloc, path)
    }
}
