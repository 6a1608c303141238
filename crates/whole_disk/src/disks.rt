//! The files of a system.
ghost use Rattle.std.specs.Prelude.{◌≡◌};
ghost use Rattle.outside.specs.Tree.{is_root};

use outside::{Ground, LinkText, LoadError, Plot, SaveError, WriteError, load, save};
use path_text::{OutOfMemory, Path};
use real_disk::{RealGround, RealReader, Watch};
use std::alloc::Global;
use std::fs::Files;
use std::marker::Model;
use std::os::fd::AsRawFd;
use std::os::unix::fs::FileExt;
use std::random::RandomSource;

// A call does not write more bytes, nor writes at a later place.
const MOST: u64 = 1_000_000;

/// A call that writes, with the place and the bytes of a write.
#[derive(Clone, Copy, Debug, Drop)]
pub enum Act<'a> {
    MakeDir,
    MakeFile,
    MakeLink(&'a str),
    Write(u64, &'a [u8]),
    RemoveFile,
    RemoveDir,
}

/// The files of the system, of which no part is lent, so that they may be written at each path but `/`.
#[derive(Drop)]
pub struct DiskOver<R: Files> {
    files: RealGround<R>,
}

/// Those of the system that nobody watches.
pub type WholeDisk = DiskOver<HostRuntime>;

impl<R: Files> Model for DiskOver<R> {
    ghost use Rattle.std.specs.Prelude.{◌≡◌, ℕ, []};

    ghost Value = { ℕ };

    ghost view = { λ whole. whole.files.count };

    ghost invariant = { λ whole. (whole.files.lent ≡ []) × (whole.files.cut ≡ []) };
}

impl DiskOver<HostRuntime> {
    /// They have not failed yet.
    pub fn make(rt: HostRuntime) -> DiskOver<HostRuntime> {
        DiskOver::over(rt.alloc(), rt)
    }
}

impl<R: Files + RandomSource + Watch + Copy> DiskOver<R>
where
    R::File: FileExt + AsRawFd,
{
    /// Those of a system, which have not failed yet.
    pub fn over(alloc: Global, system: R) -> DiskOver<R> {
        DiskOver {
            files: RealGround::make(alloc, system),
        }
    }

    /// Lets calls change the working directory of the process.
    pub fn work_alone(&mut self) {
        self.files.work_alone(true);
    }

    /// Does a call that writes. `/` is refused as `Failed`, and so is a write of more than 1,000,000 bytes, or at a later place.
    pub fn act(&mut self, alloc: Global, act: Act<'_>, path: &Path) -> Result<(), WriteError> {
        if is_root(path) {
            return Err(WriteError::Failed);
        }
        match act {
            Act::MakeDir => self.files.make_dir(alloc, path),
            Act::MakeFile => self.files.make_file(alloc, path),
            Act::MakeLink(text) => match LinkText::parse(alloc, text) {
                Ok(text) => self.files.make_link(alloc, path, &text),
                Err(_) => Err(WriteError::Failed),
            },
            Act::Write(at, bytes) if at <= MOST && bytes.len() as u64 <= MOST => {
                self.files.write_at(alloc, path, at, bytes)
            }
            Act::Write(..) => Err(WriteError::Failed),
            Act::RemoveFile => self.files.remove_file(alloc, path),
            Act::RemoveDir => self.files.remove_dir(alloc, path),
        }
    }

    /// Saves a whole file.
    pub fn save(&mut self, alloc: Global, path: &Path, bytes: &[u8]) -> Result<(), SaveError> {
        save(alloc, &mut self.files, path, bytes)
    }

    /// The bytes of a whole file.
    pub fn load(&mut self, alloc: Global, path: &Path) -> Result<Vec<u8>, LoadError> {
        let Ok(mut reader) = self.files.reader(alloc) else {
            return Err(LoadError::OutOfMemory);
        };
        load(alloc, &mut reader, path)
    }

    /// A reader of the files as they are now.
    pub fn reader(&mut self, alloc: Global) -> Result<RealReader<R>, OutOfMemory> {
        self.files.reader(alloc)
    }

    /// Takes a reader back.
    pub fn take_reader(&mut self, reader: RealReader<R>) {
        self.files.take_reader(reader);
    }

    /// How often they have failed.
    pub fn faults(&self) -> u64 {
        self.files.faults()
    }
}

fn is_root(path: &Path) -> bool
    ensures { result ≡ is_root path.now }
{
    path.text() == "/"
}
