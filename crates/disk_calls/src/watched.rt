//! The files of a system that counts its calls and writes its failures to a file.
use crate::causes::line_of;
use crate::live::Live;
use crate::watch::{Call, Watch};
use path_text::Path;
use std::alloc::{Allocator, Global};
use std::fs::{File, Files, Metadata, OpenOptions};
use std::io;
use std::io::Print;
use std::os::unix::fs::FileExt;
use std::path::PathBuf;
use std::random::RandomSource;
use std::rt::Clock;

/// A system with the files of another one. If there is a live line, it shows how far the calls of a run are. If there is a file of
/// errors, it gets a line for each call that failed.
#[derive(Clone, Copy, Drop)]
pub struct Watched<'a, R, C, P> {
    alloc: Global,
    system: R,
    live: Option<&'a Live<C, P>>,
    errors: Option<&'a File>,
    row: u8,
}

impl<'a, R, C, P> Watched<'a, R, C, P> {
    /// The system, with a live line and a file of errors, if there are these. The file must be open to append to it.
    pub fn make(
        alloc: Global,
        system: R,
        live: Option<&'a Live<C, P>>,
        errors: Option<&'a File>,
    ) -> Watched<'a, R, C, P> {
        Watched {
            alloc,
            system,
            live,
            errors,
            row: 0,
        }
    }
}

impl<R: Watch + Copy, C: Clock + Copy, P: Print + Copy> Watch for Watched<'_, R, C, P> {
    fn did(&self, call: Call, count: u64) {
        if let Some(live) = self.live {
            live.add(self.row, call, count);
        }
    }

    /// One write a line, so that lines of several threads do not mix. A line that cannot be written is left out.
    fn failed(&self, call: Call, path: &Path, cause: &io::Error) {
        let Some(errors) = self.errors else {
            return;
        };
        if let Ok(line) = line_of(self.alloc, call, path, cause) {
            // Linux appends to a file that is open to append, at whatever place a write names.
            let _ = errors.write_at(line.as_slice(), 0);
        }
    }

    fn work_in(&self, path: &str) -> io::Result<()> {
        self.system.work_in(path)
    }

    fn apart(&self) -> Self {
        let row = match self.live {
            Some(live) => live.row(),
            None => 0,
        };
        Watched { row, ..*self }
    }
}

impl<R: RandomSource, C, P> RandomSource for Watched<'_, R, C, P> {
    fn fill_bytes(&self, buffer: &mut [u8]) -> io::Result<()> {
        self.system.fill_bytes(buffer)
    }
}

impl<R: Files, C, P> Files for Watched<'_, R, C, P> {
    type File = R::File;

    type Dir = R::Dir;

    fn open_file(&self, how: &OpenOptions, path: &str) -> io::Result<R::File> {
        self.system.open_file(how, path)
    }

    fn open_dir(&self, path: &str) -> io::Result<R::Dir> {
        self.system.open_dir(path)
    }

    fn metadata(&self, path: &str) -> io::Result<Metadata> {
        self.system.metadata(path)
    }

    fn symlink_metadata(&self, path: &str) -> io::Result<Metadata> {
        self.system.symlink_metadata(path)
    }

    fn copy(&self, from: &str, to: &str) -> io::Result<u64> {
        self.system.copy(from, to)
    }

    fn rename(&self, from: &str, to: &str) -> io::Result<()> {
        self.system.rename(from, to)
    }

    fn remove_file(&self, path: &str) -> io::Result<()> {
        self.system.remove_file(path)
    }

    fn create_dir(&self, path: &str) -> io::Result<()> {
        self.system.create_dir(path)
    }

    fn remove_dir(&self, path: &str) -> io::Result<()> {
        self.system.remove_dir(path)
    }

    fn remove_dir_all<B: Allocator>(&self, alloc: B, path: &str) -> io::Result<()> {
        self.system.remove_dir_all(alloc, path)
    }

    fn read_link<B: Allocator>(&self, alloc: B, path: &str) -> io::Result<PathBuf<B>> {
        self.system.read_link(alloc, path)
    }

    fn symlink(&self, original: &str, link: &str) -> io::Result<()> {
        self.system.symlink(original, link)
    }
}
