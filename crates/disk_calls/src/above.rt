//! The directories above a path, from the nearest one up.
use crate::known::{Directory, Found, Identity, Known};
use crate::ways::{is_within, name_of};
use path_text::MAX_PATH;
use std::alloc::Global;
use std::fs::{File, Files};
use std::os::fd::AsRawFd;
use std::{fs, io};

// If a path of `..` has more bytes, its directory is opened, and the path goes on from there.
const FAR_UP: usize = 3000;

/// Whether another user can replace a directory above a path, as far as the first known one or `/`.
#[derive(Clone, Copy, Debug, Drop, PartialEq, Eq)]
pub enum Above {
    /// Another user can, or one of them is a link.
    Exposed,
    /// No other user can. The nearest one is known.
    Known,
    /// No other user can. The system was asked about the nearest one.
    Asked,
}

/// Asks the system about the directories above a path, up to the first known one or `/`.
pub fn look_above<R: Files>(system: &R, known: &Known, path: &str, user: u32) -> Above {
    let mut rest = path;
    let mut safe = Above::Known;
    for _ in 0..MAX_PATH {
        let Some((above, _)) = rest.rsplit_once('/') else {
            return safe;
        };
        if let Found::Is(_) = known.find(known.hash(above)) {
            return safe;
        }
        let at = if above.is_empty() { "/" } else { above };
        match fs::symlink_metadata(system, at) {
            Ok(data) if data.is_dir() && Directory::of(&data).keeps_own(user) => {}
            _ => return Above::Exposed,
        }
        safe = Above::Asked;
        rest = above;
    }
    Above::Exposed
}

/// Whether the directory at a path, or one above it, is exposed. Those above the last private one are not.
pub fn has_exposed_from(known: &Known, path: &str, private: &str) -> bool {
    let mut rest = path;
    for _ in 0..MAX_PATH {
        if known.is_exposed(known.hash(rest)) {
            return true;
        }
        if is_within(private, rest) {
            return false;
        }
        let Some((above, _)) = rest.rsplit_once('/') else {
            return false;
        };
        rest = above;
    }
    true
}

/// A directory, by its path and by a name that leads to it and ends in a slash.
#[derive(Clone, Copy)]
pub struct Place<'a> {
    pub path: &'a str,
    pub front: &'a str,
}

/// Whether a directory is the child of the one above it, and so on up. It compares up to the first directory that is unknown or was
/// seen in its place already. The last one that was seen so has the path `seen`.
pub fn is_in_place<R: Files>(
    alloc: Global,
    system: &R,
    known: &Known,
    place: Place<'_>,
    seen: &str,
    has_names: bool,
) -> io::Result<bool>
where
    R::File: AsRawFd,
{
    let mut climb = Climb::begin(alloc, place.front)?;
    let mut rest = place.path;
    for _ in 0..MAX_PATH {
        let Some(above) = unseen_above(rest, seen) else {
            return Ok(true);
        };
        if let Some(is_in_place) = climb.step(system, known, above)? {
            return Ok(is_in_place);
        }
        if has_names {
            climb.shorten(alloc, system)?;
        }
        rest = above;
    }
    Ok(false)
}

// The path of the directory above one, unless that one was seen in its place or is `/`.
fn unseen_above<'a>(path: &'a str, seen: &str) -> Option<&'a str> {
    if is_within(seen, path) {
        return None;
    }
    match path.rsplit_once('/') {
        Some((above, _)) => Some(above),
        None => None,
    }
}

// The way up from a directory.
#[derive(Drop)]
struct Climb<F: Drop> {
    // A name for the directory that is reached. It ends in a slash.
    up: String,
    // Keeps the directory open with which the name begins.
    open: Option<F>,
}

impl<F: Drop> Climb<F> {
    fn begin(alloc: Global, front: &str) -> io::Result<Climb<F>> {
        Ok(Climb {
            up: String::from_str(alloc, front)?,
            open: None,
        })
    }

    // Goes to the directory above, which has this path. It gives the answer of the climb, or none if the climb goes on.
    fn step<R: Files>(
        &mut self,
        system: &R,
        known: &Known,
        path: &str,
    ) -> io::Result<Option<bool>> {
        self.up.push_str("../")?;
        match known.find(known.hash(path)) {
            Found::Is(due) => {
                let is_due = Identity::at(system, self.up.as_str())? == due;
                Ok(if is_due { None } else { Some(false) })
            }
            Found::Nothing => Ok(Some(true)),
            Found::Lost => Ok(Some(false)),
        }
    }
}

impl<F: AsRawFd + Drop> Climb<F> {
    // Opens the directory that is reached if its name is long. Then the name begins with that directory.
    fn shorten<R: Files<File = F>>(&mut self, alloc: Global, system: &R) -> io::Result<()> {
        if self.up.len() > FAR_UP {
            let open = File::open(system, self.up.as_str())?;
            self.up = name_of(alloc, &open)?;
            self.open = Some(open);
        }
        Ok(())
    }
}

/// Whether the system has names for open directories. If it has, the name of `/` leads to `/`.
pub fn has_names<R: Files>(alloc: Global, system: &R) -> io::Result<bool>
where
    R::File: AsRawFd,
{
    let top = File::open(system, "/")?;
    let name = name_of(alloc, &top)?;
    let named = Identity::at(system, name.as_str())?;
    Ok(named == Identity::of_open(&top)?)
}
