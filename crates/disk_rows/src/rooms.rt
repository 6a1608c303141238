//! The directory in which a script is played.
use std::fs::{File, OpenOptions, Permissions};
use std::io::ErrorKind;
use std::os::unix::fs::PermissionsExt;
use std::time::{SystemTime, UNIX_EPOCH};
use std::{env, fs, io};

/// A directory that nobody else has, and a file beside it that takes lines about failed calls.
#[derive(Drop)]
pub struct Room {
    host: HostRuntime,
    above: String,
    top: String,
    errors: String,
}

impl Room {
    /// An empty one, where the system has those that last for a while.
    pub fn fresh(host: HostRuntime) -> io::Result<Room> {
        let temp = env::temp_dir(&host)?;
        let seed = nanoseconds(host)?;
        for k in 0..1000u32 {
            let above = format!(in host.alloc(); "{}/mfu_rows_{seed}_{k}", temp.as_str())?;
            match fs::create_dir(&host, above.as_str()) {
                Ok(()) => return Room::below(host, above),
                Err(e) if e.kind() == ErrorKind::AlreadyExists => {}
                Err(e) => return Err(e),
            }
        }
        Err(io::Error::from(ErrorKind::AlreadyExists))
    }

    fn below(host: HostRuntime, above: String) -> io::Result<Room> {
        fs::set_permissions(&host, above.as_str(), Permissions::from_mode(0o755))?;
        let top = format!(in host.alloc(); "{above}/rows")?;
        let errors = format!(in host.alloc(); "{above}/errors")?;
        make_top(host, top.as_str())?;
        Ok(Room {
            host,
            above,
            top,
            errors,
        })
    }

    /// The path of the directory.
    pub fn top(&self) -> &str {
        self.top.as_str()
    }

    /// Empties it.
    pub fn empty(&self) -> io::Result<()> {
        fs::remove_dir_all(&self.host, self.top.as_str())?;
        make_top(self.host, self.top.as_str())?;
        fs::write(&self.host, self.errors.as_str(), b"")
    }

    /// The file of lines about failed calls, open to append to it.
    pub fn appended(&self) -> io::Result<File> {
        let mut how = OpenOptions::new();
        how.append(true);
        how.create(true);
        how.open(&self.host, self.errors.as_str())
    }

    /// The lines about failed calls since the last time.
    pub fn errors(&self) -> io::Result<Vec<u8>> {
        let lines = fs::read(&self.host, self.errors.as_str())?;
        fs::write(&self.host, self.errors.as_str(), b"")?;
        Ok(lines)
    }

    /// Removes it, with all that is in it.
    pub fn remove(self) -> io::Result<()> {
        fs::remove_dir_all(&self.host, self.above.as_str())
    }
}

fn make_top(host: HostRuntime, top: &str) -> io::Result<()> {
    fs::create_dir(&host, top)?;
    fs::set_permissions(&host, top, Permissions::from_mode(0o755))
}

fn nanoseconds(host: HostRuntime) -> io::Result<u128> {
    match SystemTime::now(&host)?.duration_since(UNIX_EPOCH) {
        Ok(time) => Ok(time.as_nanos()),
        Err(_) => Ok(0),
    }
}
