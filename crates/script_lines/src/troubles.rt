//! Why a line is not done.
use crate::words::number;
use path_text::{OutOfMemory, PathError};
use std::alloc::{AllocError, AllocFailed};
use std::io;

/// Why a line of a script is not done.
#[derive(Clone, Copy, Debug, Drop, PartialEq, Eq)]
pub enum Trouble {
    /// Its first word is not known, or it cannot be answered now.
    Line,
    /// A word is not a path.
    Path,
    /// A word is not a number.
    Number,
    /// A word is not the text of a link.
    Link,
    /// No directory is over the node that it makes.
    NoParent,
    /// A node is at the path of the node that it makes.
    Taken,
    /// There is no such file.
    File,
    /// It asks blind files for more than they can do, or other files for something that only blind ones do.
    Blind,
    /// The system refuses it.
    System,
    /// Out of memory.
    Memory,
}

impl Trouble {
    /// Its text.
    pub fn text(self) -> &'static str {
        match self {
            Trouble::Line => "? no such line\n",
            Trouble::Path => "? not a path\n",
            Trouble::Number => "? not a number\n",
            Trouble::Link => "? not the text of a link\n",
            Trouble::NoParent => "? not put, no directory is over it\n",
            Trouble::Taken => "? not put, something is there\n",
            Trouble::File => "? no file\n",
            Trouble::Blind => "? not of these files\n",
            Trouble::System => "? refused by the system\n",
            Trouble::Memory => "? no memory\n",
        }
    }
}

impl From<io::Error> for Trouble {
    fn from(_: io::Error) -> Self {
        Trouble::System
    }
}

impl From<AllocError> for Trouble {
    fn from(_: AllocError) -> Self {
        Trouble::Memory
    }
}

impl<T: Drop> From<AllocFailed<T>> for Trouble {
    fn from(_: AllocFailed<T>) -> Self {
        Trouble::Memory
    }
}

impl From<OutOfMemory> for Trouble {
    fn from(_: OutOfMemory) -> Self {
        Trouble::Memory
    }
}

impl From<PathError> for Trouble {
    fn from(_: PathError) -> Self {
        Trouble::Path
    }
}

/// The number of a word.
pub fn number_of(word: &str) -> Result<u64, Trouble> {
    number(word).ok_or(Trouble::Number)
}

/// The number of a rank, or of ranks, in a word.
pub fn small_of(word: &str) -> Result<u32, Trouble> {
    u32::try_from(number_of(word)?).map_err(|_| Trouble::Number)
}
