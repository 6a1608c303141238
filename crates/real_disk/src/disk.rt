//! Looks at the files of the system.
ghost use Rattle.std.specs.Prelude.{◌≡◌, ◌≤◌, ℕ, length, IfOk, IsErrOf, None};
ghost use Rattle.outside.specs.Count.{RoseBy};
ghost use Rattle.outside.specs.Tree.{AreNames};

use disk_calls::{Call, Disk, FoundNames, Handle, Watch, is_absent, opened, text_of, was_read};
use outside::{Failed, LinkError, LinkText, ListError, Listing, ReadError, Stat, Tree};
use path_text::{OutOfMemory, Path};
use std::alloc::Global;
use std::fs::Files;
use std::io;
use std::io::Read;
use std::marker::Model;
use std::os::fd::AsRawFd;
use std::os::unix::fs::FileExt;

/// How many bytes of names are asked of the system at a time.
const PIECE: usize = 32768;

/// Looks at the files of a system, seen as its count of faults. It tells no tree.
#[derive(Drop)]
pub struct RealReader<R: Files> {
    disk: Disk<R>,
    // The system writes names into it. It is made once.
    buffer: Vec<u8>,
    // The two files that were read last, the later one first, until the next look at a path. So two files that are compared stay
    // open while they are read in turn, and one that is removed meanwhile is read to its end.
    last: Option<Handle<R::File>>,
    before: Option<Handle<R::File>>,
    count: u64,
}

impl<R: Files> Model for RealReader<R> {
    ghost use Rattle.std.specs.Prelude.{ℕ};

    ghost Value = { ℕ };

    ghost view = { λ reader. reader.count };
}

impl<R: Files + Copy> RealReader<R> {
    /// A reader of these files that has not failed yet.
    pub(crate) fn make(alloc: Global, disk: Disk<R>) -> Result<RealReader<R>, OutOfMemory>
        ensures { IfOk result (λ reader. reader ≡ 0) }
    {
        let buffer = vec![in alloc; 0u8; PIECE]?;
        Ok(RealReader {
            disk,
            buffer,
            last: None,
            before: None,
            count: 0,
        })
    }

    /// The files, with its knowledge of directories.
    pub(crate) fn into_disk(self) -> Disk<R> {
        let RealReader { disk, .. } = self;
        disk
    }
}

impl<R: Files> RealReader<R> {
    // Counts a fault.
    fn fault(&mut self) -> Failed
        ensures { RoseBy 1 self.old self.new }
    {
        self.count = self.count.saturating_add(1);
        Failed
    }
}

impl<R: Files + Watch> RealReader<R>
where
    R::File: FileExt + AsRawFd,
{
    // Closes the files that were read last.
    fn close(&mut self)
        ensures { self.new ≡ self.old }
    {
        if self.last.is_some() || self.before.is_some() {
            self.last = None;
            self.before = None;
        }
    }

    // Reads through the open handle of the file, or opens one.
    fn read_open(&mut self, path: &Path, at: u64, into: &mut [u8]) -> Result<usize, ReadError>
        ensures same { self.new ≡ self.old }
        ensures most { IfOk result (λ n. n ≤ length into.new) }
        ensures untouched { IsErrOf result ReadError.NotFile → into.new ≡ into.old }
    {
        if let Some(file) = self.open_file(path) {
            let told = file.read_at(into, at);
            return was_read(self.disk.system(), path, told);
        }
        self.read_opened(path, at, into)
    }

    // Opens the file, and reads through its handle. It stays open.
    fn read_opened(&mut self, path: &Path, at: u64, into: &mut [u8]) -> Result<usize, ReadError>
        ensures same { self.new ≡ self.old }
        ensures most { IfOk result (λ n. n ≤ length into.new) }
        ensures untouched { IsErrOf result ReadError.NotFile → into.new ≡ into.old }
    {
        let told = self.disk.open_to_read(path);
        let file = opened(self.disk.system(), path, told)?;
        let told = file.read_at(into, at);
        let n = was_read(self.disk.system(), path, told)?;
        self.before = self.last.take();
        self.last = Handle::keep(path, file);
        Ok(n)
    }

    // The file at the path, if it is open.
    fn open_file(&self, path: &Path) -> Option<&R::File> {
        match file_of(&self.last, path) {
            Some(file) => Some(file),
            None => file_of(&self.before, path),
        }
    }
}

impl<R: Files + Watch> Tree for RealReader<R>
where
    R::File: FileExt + AsRawFd,
{
    ghost use Rattle.std.specs.Prelude.{None};

    ghost tree = { λ _. None };

    ghost count = { λ reader. reader };

    fn faults(&self) -> u64 {
        self.count
    }

    /// A link is not followed. If a name in the middle of the path is not a directory, nothing is at the path.
    fn stat(&mut self, path: &Path) -> Result<Option<Stat>, Failed> {
        self.close();
        self.disk.leave(path);
        match self.disk.look(path) {
            Ok(stat) => {
                self.disk.system().did(Call::Stat, 1);
                Ok(stat)
            }
            Err(e) => {
                self.disk.system().failed(Call::Stat, path, &e);
                Err(self.fault())
            }
        }
    }

    /// If another directory or a link is in the place of a known one, that is a fault. A link in the place of any other is not followed.
    fn list(&mut self, alloc: Global, path: &Path) -> Result<Listing, ListError> {
        let told = self.disk.open_dir(path);
        let buffer = self.buffer.as_mut_slice();
        match listing_of(self.disk.system(), alloc, path, told, buffer) {
            Ok(listing) => {
                self.count = self.count.saturating_add(listing.unnamed());
                Ok(listing)
            }
            Err(ListError::Failed) => {
                self.fault();
                Err(ListError::Failed)
            }
            Err(e) => Err(e),
        }
    }

    /// It opens only files, so it follows no link and waits for no pipe.
    fn read(&mut self, path: &Path, at: u64, into: &mut [u8]) -> Result<usize, ReadError> {
        match self.read_open(path, at, into) {
            Err(ReadError::Failed) => match self.fault() {
                Failed => Err(ReadError::Failed),
            },
            told => told,
        }
    }

    /// The text is that of the link itself. A text that is not valid is a fault, for example one that is not UTF-8.
    fn read_link(&mut self, alloc: Global, path: &Path) -> Result<LinkText, LinkError> {
        let told = self.disk.text_at(alloc, path);
        match text_of(self.disk.system(), alloc, path, told) {
            Err(LinkError::Failed) => {
                self.fault();
                Err(LinkError::Failed)
            }
            told => told,
        }
    }
}

// The file, if the one at this path was kept.
fn file_of<'a, F: Drop>(kept: &'a Option<Handle<F>>, path: &Path) -> Option<&'a F> {
    match kept {
        Some(handle) => handle.of(path),
        None => None,
    }
}

// The names in the directory at the path, read through the buffer, if it was opened.
fn listing_of<R: Files + Watch>(
    system: &R,
    alloc: Global,
    path: &Path,
    told: io::Result<R::Dir>,
    buffer: &mut [u8],
) -> Result<Listing, ListError>
    ensures { IfOk result (λ listing. AreNames path.now listing.0) }
{
    let mut folder = match told {
        Ok(folder) => folder,
        Err(e) if is_absent(e.kind()) => return Err(ListError::NotDir),
        Err(e) => return Err(unlisted(system, path, &e)),
    };
    let mut found = FoundNames::make(alloc);
    add_all(system, path, &mut folder, &mut found, buffer)?;
    match found.listing(path) {
        Ok(listing) => Ok(listing),
        Err(_) => Err(ListError::OutOfMemory),
    }
}

// Adds all names in an open directory, read through the buffer.
fn add_all<R: Watch, D: Read>(
    system: &R,
    path: &Path,
    folder: &mut D,
    found: &mut FoundNames,
    buffer: &mut [u8],
) -> Result<(), ListError> {
    for _ in 0..u64::MAX {
        match folder.read(buffer) {
            Ok(0) => {
                system.did(Call::List, 1);
                return Ok(());
            }
            Ok(n) => add_piece(found, &buffer[..n])?,
            Err(e) => return Err(unlisted(system, path, &e)),
        }
    }
    Err(ListError::Failed)
}

// Adds the names in a piece that the system wrote.
fn add_piece(found: &mut FoundNames, piece: &[u8]) -> Result<(), ListError> {
    match found.add_piece(piece) {
        Ok(()) => Ok(()),
        Err(_) => Err(ListError::OutOfMemory),
    }
}

// The names of a directory were not read.
fn unlisted<R: Watch>(watch: &R, path: &Path, cause: &io::Error) -> ListError {
    watch.failed(Call::List, path, cause);
    ListError::Failed
}
