//! The system of the program: that of the host, which a live line and a file of failures may watch.
//!
//! Each call is that of [`Watched`]. A type of its own, without parameters, keeps the check of `main` small: the call of `run` compares
//! the types of readers, parts and spans with those of this system, and each of their parameters multiplies that.
use path_text::Path;
use real_disk::{Call, Watch, Watched};
use std::alloc::Allocator;
use std::fs::{File, Files, Metadata, OpenOptions};
use std::io;
use std::path::PathBuf;
use std::random::RandomSource;
use std::rt::Stderr;

/// The files and the random bytes of the host, watched.
#[derive(Clone, Copy, Drop)]
pub struct Console<'a> {
    /// The host's system, and who watches it.
    pub watched: Watched<'a, HostRuntime, HostRuntime, Stderr>,
}

impl Watch for Console<'_> {
    fn did(&self, call: Call, count: u64) {
        self.watched.did(call, count);
    }

    fn failed(&self, call: Call, path: &Path, cause: &io::Error) {
        self.watched.failed(call, path, cause);
    }

    fn work_in(&self, path: &str) -> io::Result<()> {
        self.watched.work_in(path)
    }

    fn apart(&self) -> Self {
        Console {
            watched: self.watched.apart(),
        }
    }
}

impl RandomSource for Console<'_> {
    fn fill_bytes(&self, buffer: &mut [u8]) -> io::Result<()> {
        self.watched.fill_bytes(buffer)
    }
}

impl Files for Console<'_> {
    type File = File;

    type Dir = <HostRuntime as Files>::Dir;

    fn copy(&self, from: &str, to: &str) -> io::Result<u64> {
        self.watched.copy(from, to)
    }

    fn open_dir(&self, path: &str) -> io::Result<Self::Dir> {
        self.watched.open_dir(path)
    }

    fn remove_dir(&self, path: &str) -> io::Result<()> {
        self.watched.remove_dir(path)
    }

    fn open_file(&self, how: &OpenOptions, path: &str) -> io::Result<File> {
        self.watched.open_file(how, path)
    }

    fn remove_dir_all<B: Allocator>(&self, alloc: B, path: &str) -> io::Result<()> {
        self.watched.remove_dir_all(alloc, path)
    }

    fn metadata(&self, path: &str) -> io::Result<Metadata> {
        self.watched.metadata(path)
    }

    fn create_dir(&self, path: &str) -> io::Result<()> {
        self.watched.create_dir(path)
    }

    fn read_link<B: Allocator>(&self, alloc: B, path: &str) -> io::Result<PathBuf<B>> {
        self.watched.read_link(alloc, path)
    }

    fn symlink(&self, original: &str, link: &str) -> io::Result<()> {
        self.watched.symlink(original, link)
    }

    fn symlink_metadata(&self, path: &str) -> io::Result<Metadata> {
        self.watched.symlink_metadata(path)
    }

    fn remove_file(&self, path: &str) -> io::Result<()> {
        self.watched.remove_file(path)
    }

    fn rename(&self, from: &str, to: &str) -> io::Result<()> {
        self.watched.rename(from, to)
    }
}
