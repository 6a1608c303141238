//! Open files of the system.
use crate::known::Identity;
use path_text::Path;
use std::fs::{Files, OpenFile, OpenOptions};
use std::io::ErrorKind;
use std::{fs, io};

/// A file that is open, and its path.
#[derive(Drop)]
pub struct Handle<F: Drop> {
    path: Path,
    file: F,
}

impl<F: Drop> Handle<F> {
    /// Keeps the open file. If there is no memory for its path, it closes the file.
    pub fn keep(path: &Path, file: F) -> Option<Handle<F>> {
        match path.copy() {
            Ok(path) => Some(Handle { path, file }),
            Err(_) => None,
        }
    }

    /// The file, if this is its path.
    pub fn of(&self, path: &Path) -> Option<&F> {
        if self.path == *path {
            Some(&self.file)
        } else {
            None
        }
    }

    /// The file, if this is its path, for a caller that keeps it.
    pub fn into_file(self, path: &Path) -> Option<F> {
        if self.path != *path {
            return None;
        }
        let Handle { file, .. } = self;
        Some(file)
    }
}

/// Opens a file to read it. In a private directory no other user can replace the file.
pub fn to_read<R: Files>(system: &R, way: &str, in_private: bool) -> io::Result<R::File> {
    let mut how = OpenOptions::new();
    how.read(true);
    file_at(system, way, &how, in_private)
}

/// Opens a file to write to it. In a private directory no other user can replace the file.
pub fn to_write<R: Files>(system: &R, way: &str, in_private: bool) -> io::Result<R::File> {
    let mut how = OpenOptions::new();
    how.write(true);
    file_at(system, way, &how, in_private)
}

/// Makes a file that does not exist yet, open to write to it.
pub fn to_make<R: Files>(system: &R, way: &str) -> io::Result<R::File> {
    let mut how = OpenOptions::new();
    how.write(true);
    how.create_new(true);
    how.open(system, way)
}

// Opens a file, and nothing else: any other entry is refused as a directory is. If another file took the place of the one that was
// looked at, that is a fault. In a private directory only this user and root can do that, so the open file is not compared.
fn file_at<R: Files>(
    system: &R,
    way: &str,
    how: &OpenOptions,
    in_private: bool,
) -> io::Result<R::File> {
    let data = fs::symlink_metadata(system, way)?;
    if !data.is_file() {
        return Err(io::Error::from(ErrorKind::IsADirectory));
    }
    let file = how.open(system, way)?;
    if !in_private && Identity::of(&file.metadata()?) != Identity::of(&data) {
        return Err(io::Error::from(ErrorKind::StaleNetworkFileHandle));
    }
    Ok(file)
}
