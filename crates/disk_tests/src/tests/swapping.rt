//! The system of a test, which swaps a directory while it is asked.
use std::fs::Files;
use std::io;
use std::io::ErrorKind;
use whole_disk::{Asked, Hook, Hooked};

/// When something takes the place of a directory.
#[derive(Clone, Copy, PartialEq, Eq, Debug, Drop)]
pub enum Moment {
    /// Not by the system.
    Never,
    /// A link takes the place of each directory as soon as it is made, or was found to be there.
    Made,
    /// Another directory takes the place of one before the names of any are read. If the system has names for what is open, both are back
    /// as soon as the directory that is read is open.
    Listed,
}

/// The files of the system, where something takes the place of a directory.
pub type Swapping<'a> = Hooked<Swaps<'a>>;

/// What takes the place of a directory, and when.
#[derive(Clone, Copy, Drop)]
pub struct Swaps<'a> {
    pub moment: Moment,
    /// The path of the directory.
    pub own: &'a str,
    /// The path to which a directory is moved.
    pub aside: &'a str,
    /// The text of the link, or the path of the other directory.
    pub out: &'a str,
    /// Whether it has names for what is open.
    pub has_names: bool,
}

impl Hook for Swaps<'_> {
    fn before(&self, host: HostRuntime, call: Asked, path: &str) -> io::Result<()> {
        match call {
            Asked::OpenDir if self.moment == Moment::Listed => {
                host.rename(self.own, self.aside)?;
                host.rename(self.out, self.own)
            }
            Asked::Metadata if !self.has_names && path.starts_with("/proc/self/fd/") => {
                Err(io::Error::from(ErrorKind::NotFound))
            }
            _ => Ok(()),
        }
    }

    fn after(&self, host: HostRuntime, call: Asked, path: &str) -> io::Result<()> {
        match call {
            Asked::OpenDir if self.moment == Moment::Listed && self.has_names => {
                host.rename(self.own, self.out)?;
                host.rename(self.aside, self.own)
            }
            Asked::CreateDir if self.moment == Moment::Made => {
                host.rename(path, self.aside)?;
                host.symlink(self.out, path)
            }
            _ => Ok(()),
        }
    }
}
