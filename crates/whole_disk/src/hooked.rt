//! The files of the host, with a hook before and after each call.
use real_disk::Watch;
use std::alloc::Allocator;
use std::fs::{File, Files, Metadata, OpenOptions};
use std::io;
use std::path::PathBuf;
use std::random::RandomSource;

/// A call to the files of the host.
#[derive(Clone, Copy, Debug, Drop, PartialEq, Eq)]
pub enum Asked {
    OpenFile,
    OpenDir,
    Metadata,
    SymlinkMetadata,
    Copy,
    Rename,
    RemoveFile,
    CreateDir,
    RemoveDir,
    RemoveDirAll,
    ReadLink,
    Symlink,
}

/// Hears of each call to the files of the host, with the path that the call names first, or that of the link which it makes.
pub trait Hook {
    /// A call comes. An error is its answer, and the host is not asked.
    fn before(&self, _host: HostRuntime, _call: Asked, _path: &str) -> io::Result<()> {
        Ok(())
    }

    /// The host answered a call. An error takes the place of the answer.
    fn after(&self, _host: HostRuntime, _call: Asked, _path: &str) -> io::Result<()> {
        Ok(())
    }

    /// Makes a directory the working directory of the process, if the system of the test can.
    fn work_in(&self, _host: HostRuntime, _path: &str) -> io::Result<()> {
        Err(io::Error::from(io::ErrorKind::Unsupported))
    }
}

/// The files of the host, with a hook.
#[derive(Clone, Copy, Drop)]
pub struct Hooked<H> {
    pub host: HostRuntime,
    pub hook: H,
}

impl<H: Hook> Hooked<H> {
    fn ask(&self, call: Asked, path: &str) -> io::Result<()> {
        self.hook.before(self.host, call, path)
    }

    fn tell<T: Drop>(&self, call: Asked, path: &str, told: io::Result<T>) -> io::Result<T> {
        self.hook.after(self.host, call, path)?;
        told
    }
}

impl<H: Hook + Copy> Watch for Hooked<H> {
    fn work_in(&self, path: &str) -> io::Result<()> {
        self.hook.work_in(self.host, path)
    }

    fn apart(&self) -> Self {
        *self
    }
}

impl<H> RandomSource for Hooked<H> {
    fn fill_bytes(&self, bytes: &mut [u8]) -> io::Result<()> {
        self.host.fill_bytes(bytes)
    }
}

impl<H: Hook> Files for Hooked<H> {
    type File = File;

    type Dir = <HostRuntime as Files>::Dir;

    fn open_file(&self, how: &OpenOptions, path: &str) -> io::Result<File> {
        self.ask(Asked::OpenFile, path)?;
        self.tell(Asked::OpenFile, path, self.host.open_file(how, path))
    }

    fn open_dir(&self, path: &str) -> io::Result<Self::Dir> {
        self.ask(Asked::OpenDir, path)?;
        self.tell(Asked::OpenDir, path, self.host.open_dir(path))
    }

    fn metadata(&self, path: &str) -> io::Result<Metadata> {
        self.ask(Asked::Metadata, path)?;
        self.tell(Asked::Metadata, path, self.host.metadata(path))
    }

    fn symlink_metadata(&self, path: &str) -> io::Result<Metadata> {
        let call = Asked::SymlinkMetadata;
        self.ask(call, path)?;
        self.tell(call, path, self.host.symlink_metadata(path))
    }

    fn copy(&self, from: &str, to: &str) -> io::Result<u64> {
        self.ask(Asked::Copy, from)?;
        self.tell(Asked::Copy, from, self.host.copy(from, to))
    }

    fn rename(&self, from: &str, to: &str) -> io::Result<()> {
        self.ask(Asked::Rename, from)?;
        self.tell(Asked::Rename, from, self.host.rename(from, to))
    }

    fn remove_file(&self, path: &str) -> io::Result<()> {
        self.ask(Asked::RemoveFile, path)?;
        self.tell(Asked::RemoveFile, path, self.host.remove_file(path))
    }

    fn create_dir(&self, path: &str) -> io::Result<()> {
        self.ask(Asked::CreateDir, path)?;
        self.tell(Asked::CreateDir, path, self.host.create_dir(path))
    }

    fn remove_dir(&self, path: &str) -> io::Result<()> {
        self.ask(Asked::RemoveDir, path)?;
        self.tell(Asked::RemoveDir, path, self.host.remove_dir(path))
    }

    fn remove_dir_all<B: Allocator>(&self, alloc: B, path: &str) -> io::Result<()> {
        let call = Asked::RemoveDirAll;
        self.ask(call, path)?;
        self.tell(call, path, self.host.remove_dir_all(alloc, path))
    }

    fn read_link<B: Allocator>(&self, alloc: B, path: &str) -> io::Result<PathBuf<B>> {
        let call = Asked::ReadLink;
        self.ask(call, path)?;
        self.tell(call, path, self.host.read_link(alloc, path))
    }

    fn symlink(&self, original: &str, link: &str) -> io::Result<()> {
        self.ask(Asked::Symlink, link)?;
        self.tell(Asked::Symlink, link, self.host.symlink(original, link))
    }
}
