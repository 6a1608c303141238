//! Folders that tests make for themselves, and what they put there.
use path_text::Path;
use std::fs::{File, OpenOptions, Permissions};
use std::io::ErrorKind;
use std::os::unix::fs::{PermissionsExt, symlink};
use std::time::{SystemTime, UNIX_EPOCH};
use std::{env, fs, io};

/// What a test puts below its folder.
#[derive(Clone, Copy, Drop)]
pub enum Node<'a> {
    Dir,
    File(&'a [u8]),
    Link(&'a str),
}

/// A folder that nobody else has, empty at first. What stands in it is named by the names below it, with slashes between them.
#[derive(Drop)]
pub struct Room {
    host: HostRuntime,
    top: Path,
}

impl Room {
    /// A folder with these nodes, put one after another.
    pub fn with(host: HostRuntime, nodes: &[(&str, Node<'_>)]) -> io::Result<Room> {
        let room = Room::fresh(host)?;
        for (names, node) in nodes {
            room.put(names, *node)?;
        }
        Ok(room)
    }

    // An empty folder, where the system has those that last for a while.
    fn fresh(host: HostRuntime) -> io::Result<Room> {
        let above = env::temp_dir(&host)?;
        let seed = nanoseconds(host)?;
        for k in 0..1000u32 {
            let text = format!(in host.alloc(); "{}/mfu_test_{seed}_{k}", above.as_str())?;
            if let Some(room) = Room::made(host, text.as_str())? {
                return Ok(room);
            }
        }
        Err(io::Error::from(ErrorKind::AlreadyExists))
    }

    // The folder of a path, unless something is there.
    fn made(host: HostRuntime, text: &str) -> io::Result<Option<Room>> {
        match fs::create_dir(&host, text) {
            Ok(()) => {}
            Err(e) if e.kind() == ErrorKind::AlreadyExists => return Ok(None),
            Err(e) => return Err(e),
        }
        fs::set_permissions(&host, text, Permissions::from_mode(0o755))?;
        let top = parsed(host, text)?;
        Ok(Some(Room { host, top }))
    }

    /// The folder itself.
    pub fn top(&self) -> &Path {
        &self.top
    }

    /// The path of what stands there.
    pub fn at(&self, names: &str) -> io::Result<Path> {
        let text = format!(in self.host.alloc(); "{}/{names}", self.top.text())?;
        parsed(self.host, text.as_str())
    }

    /// Puts a node there. A file that is there already gets the bytes.
    pub fn put(&self, names: &str, node: Node<'_>) -> io::Result<()> {
        let path = self.at(names)?;
        match node {
            Node::Dir => fs::create_dir(&self.host, path.text()),
            Node::File(bytes) => fs::write(&self.host, path.text(), bytes),
            Node::Link(to) => symlink(&self.host, to, path.text()),
        }
    }

    /// Gives what stands there a mode.
    pub fn set_mode(&self, names: &str, mode: u32) -> io::Result<()> {
        let path = self.at(names)?;
        fs::set_permissions(&self.host, path.text(), Permissions::from_mode(mode))
    }

    /// A file there, open to append to it, and made where none is.
    pub fn appended(&self, names: &str) -> io::Result<File> {
        let mut how = OpenOptions::new();
        how.append(true);
        how.create(true);
        how.open(&self.host, self.at(names)?.text())
    }

    /// Removes a file.
    pub fn take(&self, names: &str) -> io::Result<()> {
        let path = self.at(names)?;
        fs::remove_file(&self.host, path.text())
    }

    /// Whether the file there has just these bytes.
    pub fn holds(&self, names: &str, bytes: &[u8]) -> bool {
        let Ok(path) = self.at(names) else {
            return false;
        };
        match fs::read(&self.host, path.text()) {
            Ok(held) => held.as_slice() == bytes,
            Err(_) => false,
        }
    }

    /// Removes it, with all that is in it.
    pub fn remove(self) -> io::Result<()> {
        fs::remove_dir_all(&self.host, self.top.text())
    }
}

fn nanoseconds(host: HostRuntime) -> io::Result<u128> {
    match SystemTime::now(&host)?.duration_since(UNIX_EPOCH) {
        Ok(time) => Ok(time.as_nanos()),
        Err(_) => Ok(0),
    }
}

/// The path that a text is.
pub fn parsed(host: HostRuntime, text: &str) -> io::Result<Path> {
    match Path::parse(host.alloc(), text) {
        Ok(path) => Ok(path),
        Err(_) => Err(io::Error::from(ErrorKind::InvalidInput)),
    }
}
