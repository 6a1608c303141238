//! The calls on one path, with the answers of the system. Each acts in the directory above its path.
ghost use Rattle.std.specs.Prelude.{◌≡◌, ◌≢◌, IfOk, IfSome};

use crate::answers::is_absent;
use crate::handles::{to_make, to_read, to_write};
use crate::here::another;
use crate::known::Directory;
use crate::parents::Parents;
use crate::stats::{stat_of, unseen};
use crate::watch::Watch;
use outside::{Kind, LinkText, Stat};
use path_text::{OutOfMemory, Path};
use std::alloc::Global;
use std::fs::{Files, Metadata};
use std::io::ErrorKind;
use std::os::fd::AsRawFd;
use std::path::PathBuf;
use std::{fs, io};

/// The files of a system, for one that reads or writes them, and its knowledge of directories.
#[derive(Drop)]
pub struct Disk<R: Files> {
    system: R,
    parents: Parents<R::File>,
}

impl<R: Files> Disk<R>
where
    R::File: AsRawFd,
{
    /// No directory is known yet. The key is that of the hashes of paths.
    pub fn make(alloc: Global, system: R, key: [u8; 16]) -> Disk<R> {
        let parents = Parents::make(alloc, &system, key);
        Disk { system, parents }
    }
}

impl<R: Files> Disk<R> {
    /// The system that it asks.
    pub fn system(&self) -> &R {
        &self.system
    }

    /// Lets calls change the working directory of the process, if the run is alone.
    pub fn work_alone(&mut self, is_alone: bool) {
        self.parents.work_alone(is_alone);
    }

    /// Closes the directories that were used last, unless the path is in one of them.
    pub fn leave(&mut self, path: &Path) {
        self.parents.leave(path);
    }
}

impl<R: Files + Watch + Copy> Disk<R> {
    /// The same files with all its knowledge, for a reader or a part.
    pub fn share(&mut self) -> Result<Disk<R>, OutOfMemory> {
        let parents = self.parents.share()?;
        let system = self.system.apart();
        Ok(Disk { system, parents })
    }

    /// Takes the knowledge of directories of a reader or a part.
    pub fn take(&mut self, other: Disk<R>) {
        let Disk { parents, .. } = other;
        self.parents.take(parents);
    }
}

// The calls of a reader.
impl<R: Files + Watch> Disk<R>
where
    R::File: AsRawFd,
{
    /// The stat of the entry at the path. A directory is known from then on.
    pub fn look(&mut self, path: &Path) -> io::Result<Option<Stat>>
        ensures { IfOk result (λ answer. IfSome answer (λ stat. stat.kind ≢ Kind.File → stat.size ≡ 0)) }
    {
        let name = self.parents.name_to_look(&self.system, path);
        let told = fs::symlink_metadata(&self.system, name);
        // The answer is large, so it is read in its place.
        match &told {
            Ok(data) => self.seen(path, data),
            Err(_) => unseen(told),
        }
    }

    // The stat of the entry that the system found at the path. A directory is known from then on.
    fn seen(&mut self, path: &Path, data: &Metadata) -> io::Result<Option<Stat>>
        ensures { IfOk result (λ answer. IfSome answer (λ stat. stat.kind ≢ Kind.File → stat.size ≡ 0)) }
    {
        if data.is_dir() {
            let directory = Directory::of(data);
            self.parents.keep(&self.system, path, directory, true)?;
        }
        Ok(Some(stat_of(data)))
    }

    /// Opens the directory at the path, so that its names are read.
    pub fn open_dir(&mut self, path: &Path) -> io::Result<R::Dir> {
        self.parents.open_dir(&self.system, path)
    }

    /// Opens the file at the path to read it.
    pub fn open_to_read(&mut self, path: &Path) -> io::Result<R::File> {
        self.parents.go(&self.system, path, 2)?;
        let in_private = self.parents.in_private();
        let told = to_read(&self.system, self.parents.way(), in_private);
        self.parents.told(&self.system, told)
    }

    /// The text of the link at the path.
    pub fn text_at(&mut self, alloc: Global, path: &Path) -> io::Result<PathBuf> {
        self.parents.go(&self.system, path, 1)?;
        let told = self.system.read_link(alloc, self.parents.way());
        self.parents.told(&self.system, told)
    }
}

// The calls of a writer.
impl<R: Files + Watch> Disk<R>
where
    R::File: AsRawFd,
{
    /// Makes an empty directory. One that was made, or that exists already, is known from then on. If another entry has taken the place of
    /// the one that was made, that is a fault.
    pub fn make_dir(&mut self, path: &Path) -> io::Result<()> {
        self.parents.go(&self.system, path, 2)?;
        self.parents.forget(path);
        let told = fs::create_dir(&self.system, self.parents.way());
        match self.parents.told(&self.system, told) {
            Ok(()) => self.keep_made(path),
            Err(e) if e.kind() == ErrorKind::AlreadyExists => {
                let _ = self.keep(path)?;
                Err(e)
            }
            Err(e) => Err(e),
        }
    }

    // Keeps the directory that was made at the current path. If another entry has taken its place, that is a fault.
    fn keep_made(&mut self, path: &Path) -> io::Result<()> {
        if self.keep(path)? {
            Ok(())
        } else {
            Err(another())
        }
    }

    // Keeps which directory is at the current path, and answers whether there is one. If there is none, nothing is done below the path.
    fn keep(&mut self, path: &Path) -> io::Result<bool> {
        let data = fs::symlink_metadata(&self.system, self.parents.way())?;
        if data.is_dir() {
            let directory = Directory::of(&data);
            self.parents.keep(&self.system, path, directory, false)?;
        } else {
            self.parents.refuse(path)?;
        }
        Ok(data.is_dir())
    }

    /// Makes an empty file, open to write to it.
    pub fn make_file(&mut self, path: &Path) -> io::Result<R::File> {
        self.parents.go(&self.system, path, 1)?;
        let told = to_make(&self.system, self.parents.way());
        self.parents.told(&self.system, told)
    }

    /// Makes a link with this text.
    pub fn make_link(&mut self, path: &Path, text: &LinkText) -> io::Result<()> {
        self.parents.go(&self.system, path, 1)?;
        let told = self.system.symlink(text.text(), self.parents.way());
        self.parents.told(&self.system, told)
    }

    /// Opens the file at the path to write to it.
    pub fn open_to_write(&mut self, path: &Path) -> io::Result<R::File> {
        self.parents.go(&self.system, path, 2)?;
        let in_private = self.parents.in_private();
        let told = to_write(&self.system, self.parents.way(), in_private);
        self.parents.told(&self.system, told)
    }

    /// Removes anything but a directory.
    pub fn remove_file(&mut self, path: &Path) -> io::Result<()> {
        self.parents.go(&self.system, path, 1)?;
        let told = fs::remove_file(&self.system, self.parents.way());
        self.parents.told(&self.system, told)
    }

    /// Removes an empty directory. For "not a directory" the path itself may be no directory, or one above it. The second is answered as
    /// if nothing were there.
    pub fn remove_dir(&mut self, path: &Path) -> io::Result<()> {
        self.parents.go(&self.system, path, 1)?;
        self.parents.forget(path);
        let told = fs::remove_dir(&self.system, self.parents.way());
        match self.parents.told(&self.system, told) {
            Err(e) if e.kind() == ErrorKind::NotADirectory && self.is_gone() => {
                Err(io::Error::from(ErrorKind::NotFound))
            }
            told => told,
        }
    }

    // Whether nothing is at the current path.
    fn is_gone(&self) -> bool {
        match fs::symlink_metadata(&self.system, self.parents.way()) {
            Ok(_) => false,
            Err(e) => is_absent(e.kind()),
        }
    }
}
