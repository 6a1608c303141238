//! Nodes that lines make, by calls of the system.
use script_lines::{Trouble, number_of};
use std::alloc::{AllocError, Global};
use std::fs::Permissions;
use std::io::ErrorKind;
use std::os::unix::fs::{PermissionsExt, symlink};
use std::time::{Duration, SystemTime, UNIX_EPOCH};
use std::{fs, io};

/// Does the words of a line that are about nodes; whether they are.
pub fn make(host: HostRuntime, words: &[String]) -> Result<bool, Trouble> {
    match words {
        [word, at] => make_plain(host, word, at),
        [word, at, value] => make_with(host, word, at, value),
        [word, at, count, name] if word.as_str() == "many" => {
            make_many(host, at, number_of(count)?, name)?;
            Ok(true)
        }
        _ => Ok(false),
    }
}

fn make_plain(host: HostRuntime, word: &str, at: &str) -> Result<bool, Trouble> {
    match word {
        "dir" => fs::create_dir(&host, at)?,
        "file" => fs::write(&host, at, b"")?,
        "unlink" => fs::remove_file(&host, at)?,
        _ => return Ok(false),
    }
    Ok(true)
}

fn make_with(host: HostRuntime, word: &str, at: &str, value: &str) -> Result<bool, Trouble> {
    match word {
        "file" => fs::write(&host, at, value.as_bytes())?,
        "link" => symlink(&host, value, at)?,
        "move" => fs::rename(&host, at, value)?,
        _ => return make_by_number(host, word, at, value),
    }
    Ok(true)
}

fn make_by_number(host: HostRuntime, word: &str, at: &str, value: &str) -> Result<bool, Trouble> {
    match word {
        "letters" => {
            let bytes = letters(host.alloc(), number_of(value)?)?;
            fs::write(&host, at, &bytes)?;
        }
        "mode" => match u32::from_str_radix(value, 8) {
            Ok(mode) => fs::set_permissions(&host, at, Permissions::from_mode(mode))?,
            Err(_) => return Err(Trouble::Number),
        },
        "touch" => {
            let time = UNIX_EPOCH.checked_add(Duration::from_secs(number_of(value)?));
            set_time(host, at, time)?;
        }
        "age" => {
            let ago = Duration::from_secs(number_of(value)?);
            set_time(host, at, SystemTime::now(&host)?.checked_sub(ago))?;
        }
        _ => return Ok(false),
    }
    Ok(true)
}

/// So many small letters in turn.
pub fn letters(alloc: Global, count: u64) -> Result<Vec<u8>, AllocError> {
    let mut bytes = Vec::new(alloc);
    for k in 0..count {
        bytes.push(b'a'.saturating_add((k % 26) as u8))?;
    }
    Ok(bytes)
}

// Sets when a file was changed last.
fn set_time(host: HostRuntime, at: &str, time: Option<SystemTime>) -> io::Result<()> {
    match time {
        Some(time) => fs::open(&host, at)?.set_modified(time),
        None => Err(io::Error::from(ErrorKind::InvalidInput)),
    }
}

fn make_many(host: HostRuntime, at: &str, count: u64, name: &str) -> io::Result<()> {
    for k in 0..count {
        let path = format!(in host.alloc(); "{at}/{k:04}{name}")?;
        fs::write(&host, path.as_str(), b"x")?;
    }
    Ok(())
}

/// Makes directories below the path, one in the other, until a path has so many bytes: that path. The system takes names of at most
/// 255 bytes.
pub fn deepened(host: HostRuntime, at: &str, len: u64) -> Result<String, Trouble> {
    let mut path = String::from_str(host.alloc(), at)?;
    for _ in 0..100u32 {
        let left = len.saturating_sub(path.len() as u64);
        if left >= 2 {
            let size = if left > 210 { 200 } else { left - 1 };
            path.push('/')?;
            for _ in 0..size {
                path.push('d')?;
            }
            fs::create_dir(&host, path.as_str())?;
        }
    }
    Ok(path)
}
