//! The watch, which hears of the calls of a run to the files.
use path_text::Path;
use std::rt::HostRuntime;
use std::{env, io};

/// A call to the files, by the work that it does.
#[derive(Clone, Copy, Debug, Drop, PartialEq, Eq)]
pub enum Call {
    /// Looks at a path.
    Stat,
    /// Lists a directory.
    List,
    /// Opens a file, to read it or to write to it.
    Open,
    /// Reads bytes of a file.
    Read,
    /// Reads the text of a link.
    ReadLink,
    /// Makes a directory.
    MakeDir,
    /// Makes an empty file.
    MakeFile,
    /// Makes a link.
    MakeLink,
    /// Writes bytes to a file.
    Write,
    /// Removes a file, a link or anything else that is not a directory.
    RemoveFile,
    /// Removes an empty directory.
    RemoveDir,
}

impl Call {
    /// The word for it in a line about a call that failed.
    pub fn word(self) -> &'static str {
        match self {
            Call::Stat => "stat",
            Call::List => "list",
            Call::Open => "open",
            Call::Read => "read",
            Call::ReadLink => "readlink",
            Call::MakeDir => "mkdir",
            Call::MakeFile => "create",
            Call::MakeLink => "symlink",
            Call::Write => "write",
            Call::RemoveFile => "remove",
            Call::RemoveDir => "rmdir",
        }
    }
}

/// Hears of the calls of readers, parts and spans, as they make them. It cannot change an answer. If nobody watches a system, the
/// methods do nothing.
pub trait Watch {
    /// The system answered a call. The count of a read or a write is its number of bytes, and that of any other call is 1.
    fn did(&self, _call: Call, _count: u64) {}

    /// A call failed, so the files count a fault.
    fn failed(&self, _call: Call, _path: &Path, _cause: &io::Error) {}

    /// Makes a directory the working directory of the process, if the system can.
    fn work_in(&self, _path: &str) -> io::Result<()> {
        Err(io::Error::from(io::ErrorKind::Unsupported))
    }

    /// The same system, for another reader, part or span that may run beside this one.
    fn apart(&self) -> Self
    where
        Self: Sized;
}

impl Watch for HostRuntime {
    fn work_in(&self, path: &str) -> io::Result<()> {
        env::set_current_dir(self, path)
    }

    fn apart(&self) -> HostRuntime {
        *self
    }
}
