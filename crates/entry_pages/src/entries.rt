//! An entry: a path, and the file system's answers for it.
ghost use Rattle.std.specs.Prelude.{◌≡◌, IfOk, OnOk, OnErr};

use outside::{LinkText, Stat};
use path_text::{OutOfMemory, Path};

/// How the file system answered for a path.
#[derive(Clone, Copy, Debug, Drop, PartialEq, Eq)]
pub enum Mark {
    /// Each call was answered.
    Fine,
    /// The call for its stat failed, or the reading of a link's text.
    StatFailed,
    /// It is a directory, and the reading of its names failed.
    ListFailed,
    /// Nothing is there.
    Gone,
    /// It was a directory or a link at first, and then it was not.
    Changed,
}

/// A path, and the file system's answers for it.
#[derive(Debug, Drop)]
pub struct Entry {
    /// The path.
    pub path: Path,
    /// The kind, size and time of the file at the path, if they are known.
    pub stat: Option<Stat>,
    /// How the file system answered.
    pub mark: Mark,
    /// How many names in it are not text.
    pub unnamed: u64,
    /// How many of its children have a path that would be too long.
    pub far: u64,
    /// The text of a link, if it was read. An entry read from a list file of version 1 has none.
    pub target: Option<LinkText>,
}

impl Entry {
    /// The same entry again.
    pub fn copy(&self) -> Result<Entry, OutOfMemory>
        ensures { IfOk result (λ copy. copy ≡ self.now) }
    {
        Ok(Entry {
            path: self.path.copy()?,
            stat: self.stat,
            mark: self.mark,
            unnamed: self.unnamed,
            far: self.far,
            target: copy_target(&self.target)?,
        })
    }

    /// It becomes another entry, in its own memory if that is enough. A refusal leaves it.
    pub fn overwrite(&mut self, entry: &Entry) -> Result<(), OutOfMemory>
        ensures ok { OnOk result (self.new ≡ entry.now) }
        ensures err { OnErr result (self.new ≡ self.old) }
    {
        let target = copy_target(&entry.target)?;
        self.path.rewrite(0, entry.path.text().as_bytes())?;
        self.stat = entry.stat;
        self.mark = entry.mark;
        self.unnamed = entry.unnamed;
        self.far = entry.far;
        self.target = target;
        Ok(())
    }
}

// The same target again.
fn copy_target(target: &Option<LinkText>) -> Result<Option<LinkText>, OutOfMemory>
    ensures { IfOk result (λ copy. copy ≡ target.now) }
{
    match target {
        None => Ok(None),
        Some(text) => Ok(Some(text.copy()?)),
    }
}
