//! A reader of made-up files. It counts how often each is read, and reads some in another way when they are read again.
ghost use Rattle.std.specs.Prelude.{◌≡◌, ◌≤◌, length, IfOk, IsErrOf};

use outside::{Failed, LinkError, LinkText, ListError, Listing, ReadError, Stat, Tree};
use path_text::Path;
use std::alloc::Global;

/// How a file is read when it is read from its front once more.
#[derive(Clone, Copy, Drop)]
pub enum Then {
    IsSame,
    IsOther,
    IsShort,
    IsGone,
    Fails,
}

/// A made-up file, and how often it was read from its front.
#[derive(Clone, Copy, Drop)]
pub struct Sheet {
    path: &'static str,
    bytes: &'static [u8],
    then: Then,
    times: u64,
}

impl Sheet {
    /// A file with these bytes, each time it is read.
    pub fn of(path: &'static str, bytes: &'static [u8]) -> Sheet {
        Sheet {
            path,
            bytes,
            then: Then::IsSame,
            times: 0,
        }
    }

    // Its bytes, as the next reading gives them.
    fn now(&self) -> Result<&'static [u8], ReadError> {
        if self.times < 2 {
            return Ok(self.bytes);
        }
        match self.then {
            Then::IsSame => Ok(self.bytes),
            Then::IsOther => Ok(b"xyz"),
            Then::IsShort => Ok(self.bytes.get(1..).unwrap_or(&[])),
            Then::IsGone => Err(ReadError::NotFile),
            Then::Fails => Err(ReadError::Failed),
        }
    }

    // Reads two bytes at most.
    fn read(&mut self, at: u64, into: &mut [u8]) -> Result<usize, ReadError>
        ensures most { IfOk result (λ n. n ≤ length into.new) }
        ensures size { length into.new ≡ length into.old }
        ensures untouched { IsErrOf result ReadError.NotFile → into.new ≡ into.old }
    {
        if at == 0 {
            self.times = self.times.saturating_add(1);
        }
        let bytes = self.now()?;
        let at = usize::try_from(at).unwrap_or(usize::MAX);
        let rest = bytes.get(at..).unwrap_or(&[]);
        let n = rest.len().min(into.len()).min(2);
        into[..n].copy_from_slice(&rest[..n]);
        Ok(n)
    }
}

/// A reader of six such files. It tells no tree.
#[derive(Drop)]
pub struct Counting {
    sheets: [Sheet; 6],
    count: u64,
}

impl Counting {
    /// A reader of these files, none of which was read yet.
    pub fn of(sheets: [Sheet; 6]) -> Counting {
        Counting { sheets, count: 0 }
    }

    /// The same, but the file at this path is read in this way when it is read again.
    pub fn then(mut self, path: &str, then: Then) -> Counting {
        for sheet in &mut self.sheets {
            if sheet.path == path {
                sheet.then = then;
            }
        }
        self
    }

    /// How often the file at this place was read from its front.
    pub fn times(&self, place: usize) -> u64 {
        match self.sheets.get(place) {
            Some(sheet) => sheet.times,
            None => 0,
        }
    }

    // The place of the file at this path, or the number of files if it is not there.
    fn place_of(&self, path: &Path) -> usize {
        for (place, sheet) in self.sheets.iter().enumerate() {
            if sheet.path == path.text() {
                return place;
            }
        }
        self.sheets.len()
    }
}

impl Tree for Counting {
    ghost use Rattle.std.specs.Prelude.{None};

    ghost tree = { λ _. None };

    ghost count = { λ reader. reader.count };

    fn faults(&self) -> u64 {
        self.count
    }

    fn stat(&mut self, _path: &Path) -> Result<Option<Stat>, Failed> {
        self.count = self.count.saturating_add(1);
        Err(Failed)
    }

    fn list(&mut self, _alloc: Global, _path: &Path) -> Result<Listing, ListError> {
        Err(ListError::NotDir)
    }

    fn read(&mut self, path: &Path, at: u64, into: &mut [u8]) -> Result<usize, ReadError> {
        let place = self.place_of(path);
        match self.sheets.get_mut(place) {
            Some(sheet) => match sheet.read(at, into) {
                Err(ReadError::Failed) => {
                    self.count = self.count.saturating_add(1);
                    Err(ReadError::Failed)
                }
                told => told,
            },
            None => Err(ReadError::NotFile),
        }
    }

    fn read_link(&mut self, _alloc: Global, _path: &Path) -> Result<LinkText, LinkError> {
        Err(LinkError::NotLink)
    }
}
