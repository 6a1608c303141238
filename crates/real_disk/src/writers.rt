//! Writes to the files of the system. Each failure is counted.
ghost use Rattle.std.specs.Prelude.{◌≡◌, ◌≤◌, IfErr, IsErrOf, IsTrue};
ghost use Rattle.outside.specs.Count.{RoseBy, capped};
ghost use Rattle.outside.specs.Writes.{may_make, may_change, may_empty};

use disk_calls::{Call, Disk, Handle, Watch, changed, emptied, made, wrote};
use outside::{LinkText, WriteError};
use path_text::{OutOfMemory, Path};
use std::alloc::Global;
use std::fs::Files;
use std::io;
use std::marker::Model;
use std::os::fd::AsRawFd;
use std::os::unix::fs::FileExt;
use std::sync::Arc;

/// Writes to the files of a system. It is seen as its count of faults. The file that was made or written last stays open.
#[derive(Drop)]
pub struct RealWriter<R: Files> {
    disk: Disk<R>,
    written: Option<Handle<R::File>>,
    count: u64,
}

impl<R: Files> Model for RealWriter<R> {
    ghost use Rattle.std.specs.Prelude.{ℕ};

    ghost Value = { ℕ };

    ghost view = { λ writer. writer.count };
}

impl<R: Files> RealWriter<R> {
    /// A writer to these files, with no fault yet.
    pub fn make(disk: Disk<R>) -> RealWriter<R>
        ensures { result ≡ 0 }
    {
        RealWriter {
            disk,
            written: None,
            count: 0,
        }
    }

    /// Lets calls change the working directory of the process, if the run is alone.
    pub fn work_alone(&mut self, is_alone: bool)
        ensures { self.new ≡ self.old }
    {
        self.disk.work_alone(is_alone);
    }

    /// How often it has failed.
    pub fn faults(&self) -> u64
        ensures { result ≡ self.now }
    {
        self.count
    }

    /// Adds faults that another counted. The count never falls.
    pub fn add(&mut self, faults: u64)
        ensures sum { self.new ≡ capped self.old faults }
        ensures rises { self.old ≤ self.new }
    {
        self.count = self.count.saturating_add(faults);
    }

    // Counts a fault if the answer is one.
    fn counted(&mut self, told: Result<(), WriteError>) -> Result<(), WriteError>
        ensures same { result ≡ told }
        ensures count { RoseBy 0 self.old self.new }
        ensures cause { IsErrOf told WriteError.Failed → RoseBy 1 self.old self.new }
    {
        if told == Err(WriteError::Failed) {
            self.count = self.count.saturating_add(1);
        }
        told
    }
}

impl<R: Files + Watch + Copy> RealWriter<R> {
    /// The system that it writes to, for another object that asks it.
    pub fn system(&self) -> R {
        self.disk.system().apart()
    }

    /// The files with its knowledge of directories, for a reader or a part.
    pub fn share(&mut self) -> Result<Disk<R>, OutOfMemory>
        ensures { self.new ≡ self.old }
    {
        self.disk.share()
    }

    /// Takes the knowledge of directories of a reader or a part.
    pub fn take(&mut self, disk: Disk<R>)
        ensures { self.new ≡ self.old }
    {
        self.disk.take(disk);
    }

    /// The files, with its knowledge of directories.
    pub fn into_disk(self) -> Disk<R> {
        let RealWriter { disk, .. } = self;
        disk
    }
}

impl<R: Files + Watch> RealWriter<R>
where
    R::File: FileExt + AsRawFd,
{
    /// Makes an empty directory.
    pub fn make_dir(&mut self, path: &Path) -> Result<(), WriteError>
        ensures named { IfErr result (λ e. IsTrue (may_make e)) }
        ensures count { RoseBy 0 self.old self.new }
        ensures cause { IsErrOf result WriteError.Failed → RoseBy 1 self.old self.new }
    {
        let told = self.disk.make_dir(path);
        let told = made(self.disk.system(), Call::MakeDir, path, told);
        self.counted(told)
    }

    /// Makes an empty file. A link is not followed.
    pub fn make_file(&mut self, path: &Path) -> Result<(), WriteError>
        ensures named { IfErr result (λ e. IsTrue (may_make e)) }
        ensures count { RoseBy 0 self.old self.new }
        ensures cause { IsErrOf result WriteError.Failed → RoseBy 1 self.old self.new }
    {
        let told = self.file_made(path);
        let told = made(self.disk.system(), Call::MakeFile, path, told);
        self.counted(told)
    }

    /// Makes a link with this text.
    pub fn make_link(&mut self, path: &Path, text: &LinkText) -> Result<(), WriteError>
        ensures named { IfErr result (λ e. IsTrue (may_make e)) }
        ensures count { RoseBy 0 self.old self.new }
        ensures cause { IsErrOf result WriteError.Failed → RoseBy 1 self.old self.new }
    {
        let told = self.disk.make_link(path, text);
        let told = made(self.disk.system(), Call::MakeLink, path, told);
        self.counted(told)
    }

    /// Writes bytes to a file. A write of nothing, or of fewer bytes than were given, is a fault.
    pub fn write_at(&mut self, path: &Path, at: u64, bytes: &[u8]) -> Result<(), WriteError>
        ensures named { IfErr result (λ e. IsTrue (may_change e)) }
        ensures count { RoseBy 0 self.old self.new }
        ensures cause { IsErrOf result WriteError.Failed → RoseBy 1 self.old self.new }
    {
        let told = self.write_open(path, at, bytes);
        self.counted(told)
    }

    /// The file at the path, open to write to it, for several that keep it. It is the file that was made or written last, or one that is
    /// opened here. None if it cannot be opened.
    pub fn lend_file(
        &mut self,
        alloc: Global,
        path: &Path,
    ) -> Result<Option<Arc<R::File>>, OutOfMemory>
        ensures { self.new ≡ self.old }
    {
        if let Some(handle) = self.written.take() {
            if let Some(file) = handle.into_file(path) {
                return Ok(Some(Arc::new(alloc, file)?));
            }
        }
        let told = self.disk.open_to_write(path);
        match changed(self.disk.system(), Call::Open, path, told) {
            Ok(file) => Ok(Some(Arc::new(alloc, file)?)),
            Err(WriteError::OutOfMemory) => Err(OutOfMemory),
            Err(_) => Ok(None),
        }
    }

    /// Removes anything but a directory.
    pub fn remove_file(&mut self, path: &Path) -> Result<(), WriteError>
        ensures named { IfErr result (λ e. IsTrue (may_change e)) }
        ensures count { RoseBy 0 self.old self.new }
        ensures cause { IsErrOf result WriteError.Failed → RoseBy 1 self.old self.new }
    {
        self.written = None;
        let told = self.disk.remove_file(path);
        let told = changed(self.disk.system(), Call::RemoveFile, path, told);
        self.counted(told)
    }

    /// Removes an empty directory.
    pub fn remove_dir(&mut self, path: &Path) -> Result<(), WriteError>
        ensures named { IfErr result (λ e. IsTrue (may_empty e)) }
        ensures count { RoseBy 0 self.old self.new }
        ensures cause { IsErrOf result WriteError.Failed → RoseBy 1 self.old self.new }
    {
        let told = self.disk.remove_dir(path);
        let told = emptied(self.disk.system(), path, told);
        self.counted(told)
    }
}

impl<R: Files + Watch> RealWriter<R>
where
    R::File: FileExt + AsRawFd,
{
    // The file stays open.
    fn file_made(&mut self, path: &Path) -> io::Result<()>
        ensures { self.new ≡ self.old }
    {
        let file = self.disk.make_file(path)?;
        self.written = Handle::keep(path, file);
        Ok(())
    }

    // Writes through the open handle of the file, or opens one.
    fn write_open(&mut self, path: &Path, at: u64, bytes: &[u8]) -> Result<(), WriteError>
        ensures same { self.new ≡ self.old }
        ensures named { IfErr result (λ e. IsTrue (may_change e)) }
    {
        if let Some(handle) = &self.written {
            if let Some(file) = handle.of(path) {
                let told = file.write_at(bytes, at);
                return wrote(self.disk.system(), path, told, bytes.len());
            }
        }
        let told = self.disk.open_to_write(path);
        let file = changed(self.disk.system(), Call::Open, path, told)?;
        let told = file.write_at(bytes, at);
        wrote(self.disk.system(), path, told, bytes.len())?;
        self.written = Handle::keep(path, file);
        Ok(())
    }
}
