//! The names of directories and of entries, as the system is asked for them.
use memchr::memrchr;
use path_text::Path;
use std::alloc::Global;
use std::fs::Files;
use std::os::fd::AsRawFd;
use std::{fs, io};

/// The name of an open directory, with a slash after it.
pub fn name_of<F: AsRawFd>(alloc: Global, open: &F) -> io::Result<String> {
    let number = open.as_raw_fd();
    Ok(format!(in alloc; "/proc/self/fd/{number}/")?)
}

/// A path with a slash after it.
pub fn with_slash(alloc: Global, path: &str) -> io::Result<String> {
    let mut folder = String::from_str(alloc, path)?;
    folder.push('/')?;
    Ok(folder)
}

/// A path without the slash that `/` has at its end.
pub fn plain(path: &Path) -> &str {
    match path.text() {
        "/" => "",
        text => text,
    }
}

/// The path of the directory above a path, without a slash at its end, and the last name.
pub fn around(path: &Path) -> (&str, &str) {
    around_last(path.text())
}

// The text before the last slash, and the one behind it.
fn around_last(text: &str) -> (&str, &str) {
    let Some(at) = memrchr(b'/', text.as_bytes()) else {
        return ("", "");
    };
    let above = text.get(..at).unwrap_or("");
    let name = text.get(at.saturating_add(1)..).unwrap_or("");
    (above, name)
}

/// Whether a path is another one or is under it.
pub fn is_within(path: &str, top: &str) -> bool {
    match path.strip_prefix(top) {
        Some(rest) => rest.is_empty() || rest.starts_with('/'),
        None => false,
    }
}

/// Whether a link is at a path.
pub fn is_link<R: Files>(system: &R, path: &Path) -> bool {
    match fs::symlink_metadata(system, path.text()) {
        Ok(data) => data.is_symlink(),
        Err(_) => false,
    }
}
