//! A directory in which something was done, and its name in later calls to the system.
use crate::answers::is_absent;
use crate::known::Identity;
use crate::ways::{is_within, name_of, with_slash};
use std::alloc::Global;
use std::fs::{File, Files, OpenFile};
use std::io;
use std::io::ErrorKind;
use std::os::fd::AsRawFd;

/// A directory in which something was done.
#[derive(Drop)]
pub struct Here<F: Drop> {
    path: String,
    // Comes before a name in it when the system is asked.
    front: String,
    // The directory to which the front must lead, if the front is the path itself.
    due: Option<Identity>,
    // Whether the run looked at it and found it private, so that no other user can replace anything in it.
    is_private: bool,
    // Keeps the directory open that the front names.
    open: Option<F>,
}

impl<F: Drop> Here<F> {
    /// The directory at a path, by its path.
    pub fn by_path(
        alloc: Global,
        path: &str,
        due: Option<Identity>,
        is_private: bool,
    ) -> io::Result<Here<F>> {
        Ok(Here {
            path: String::from_str(alloc, path)?,
            front: with_slash(alloc, path)?,
            due,
            is_private,
            open: None,
        })
    }

    /// Comes before a name in the directory when the system is asked.
    pub fn front(&self) -> &str {
        self.front.as_str()
    }

    /// Whether the run looked at it and found it private.
    pub fn is_private(&self) -> bool {
        self.is_private
    }

    /// Whether it is open, so that the front names it wherever it is.
    pub fn is_open(&self) -> bool {
        self.open.is_some()
    }

    /// Whether this is the directory at a path.
    pub fn is_at(&self, path: &str) -> bool {
        self.path.as_str() == path
    }

    /// Whether this directory is at a path or below it.
    pub fn is_below(&self, top: &str) -> bool {
        is_within(self.path.as_str(), top)
    }

    /// Whether the front still leads to the known directory. An open directory always stands.
    pub fn stands<R: Files>(&self, system: &R) -> bool {
        let Some(due) = self.due else {
            return true;
        };
        match Identity::at(system, self.front()) {
            Ok(identity) => identity == due,
            Err(_) => false,
        }
    }
}

impl<F: OpenFile + AsRawFd + Drop> Here<F> {
    /// The directory at a path, which is open. None if it is another one than is due.
    pub fn held(alloc: Global, path: &str, due: Identity, open: F) -> io::Result<Option<Here<F>>> {
        if Identity::of_open(&open)? != due {
            return Ok(None);
        }
        Ok(Some(Here {
            path: String::from_str(alloc, path)?,
            front: name_of(alloc, &open)?,
            due: None,
            is_private: false,
            open: Some(open),
        }))
    }

    /// The directory at a path, to use what is in it. It must be this one. It is open if the system has a name for it and opens it.
    pub fn to_use<R: Files<File = F>>(
        alloc: Global,
        system: &R,
        path: &str,
        due: Identity,
        has_names: bool,
    ) -> io::Result<Here<F>> {
        if !has_names {
            return Here::by_path(alloc, path, Some(due), false);
        }
        match File::open(system, with_slash(alloc, path)?.as_str()) {
            Ok(open) => Here::held(alloc, path, due, open)?.ok_or(another()),
            Err(e) if is_absent(e.kind()) => Err(e),
            Err(_) => Here::by_path(alloc, path, Some(due), false),
        }
    }

    /// The directory at a path, to list its names. It must be this one. It is open if the system has a name for it.
    pub fn to_list<R: Files<File = F>>(
        alloc: Global,
        system: &R,
        path: &str,
        due: Identity,
        has_names: bool,
    ) -> io::Result<Here<F>> {
        if has_names {
            let open = File::open(system, with_slash(alloc, path)?.as_str())?;
            return Here::held(alloc, path, due, open)?.ok_or(another());
        }
        let here = Here::by_path(alloc, path, Some(due), false)?;
        if Identity::at(system, here.front())? == due {
            Ok(here)
        } else {
            Err(another())
        }
    }
}

/// Whether this is the directory at a path.
pub fn is_at<F: Drop>(here: &Option<Here<F>>, path: &str) -> bool {
    match here {
        Some(here) => here.is_at(path),
        None => false,
    }
}

/// Whether this directory is at a path or below it.
pub fn is_below<F: Drop>(here: &Option<Here<F>>, top: &str) -> bool {
    match here {
        Some(here) => here.is_below(top),
        None => false,
    }
}

/// The error if another directory is in the place of a known one.
pub fn another() -> io::Error {
    io::Error::from(ErrorKind::StaleNetworkFileHandle)
}
