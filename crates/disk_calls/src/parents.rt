//! The directories in which a run works.
//!
//! **A directory stays the one that was looked at.** Each act below a directory that the run looked at, made or found is done in
//! that very directory, or it is a counted failure. The directory must also be the child of the one above it. The paths that a run
//! was given, and the links in the middle of them, stay as the system takes them.
//!
//! So a run opens a known directory and compares its identity. It compares its `..` with the identity of the directory above it, and
//! so on up to the first unknown one. Then the call names `/proc/self/fd/N/NAME`, where N is the open directory, wherever its path
//! leads meanwhile. If the system has no such names, or does not open the directory, the call names the whole path. Then the
//! directory is compared before and after the call.
//!
//! **A private directory is not guarded.** Only the user who runs the program and root can write in it, and in each directory
//! above it up to `/`. None of these is a link, but one above it may be sticky, as `/tmp` is. No other user can replace anything
//! in it, so the call names the whole path, and nothing is compared. A directory that was ever seen exposed to others stays
//! exposed for the run.
//!
//! **In a private directory a name alone may serve.** If a run has its thread for itself, a private directory at which it looked may become
//! the working directory of the process, and calls in it name the last name alone ([`Working`]). The working directory is forgotten
//! before a directory is made or removed at it or above it, and when any directory is seen exposed.
//!
//! **Names are read from the open directory that was compared.** A known directory that is not private is opened to list it. Its identity
//! and its `..` are compared as above. Then its names are read by way of `/proc/self/fd/N/`, and it stays open for later acts in it.
//! A private directory, and one at which the run did not look, is opened by its path. The answers for a guarded directory are:
//!
//! - The known directory is in its place: its names. A link may lead to it, if it is still below the same directory.
//! - Another directory, or a link to anything else or to nothing, is in its place: a failure.
//! - The known directory is below another directory: a failure.
//! - Nothing is in its place, or an entry that is neither a directory nor a link: "not a directory", which is not a failure.
//! - It may be read and not entered, so the system does not tell its `..`: its names. It does not stay open.
//! - The system has no names for open directories: the directory is compared before and after it is opened by its path. A link in its
//!   place is not followed, and is a failure.
use crate::above::{Place, has_names, is_in_place};
use crate::answers::is_absent;
use crate::dirs::KnownDirs;
use crate::here::{Here, another, is_at, is_below};
use crate::known::{Directory, Found, Identity, Known, PathHash};
use crate::watch::Watch;
use crate::ways::{around, is_link, is_within, plain, with_slash};
use crate::working::{Naming, Working};
use path_text::{OutOfMemory, Path};
use std::alloc::Global;
use std::fs::{File, Files, OpenFile};
use std::io::ErrorKind;
use std::os::fd::AsRawFd;
use std::os::unix::fs::MetadataExt;
use std::{fs, io, mem};

/// The knowledge about directories, and the two of them that were used last.
#[derive(Drop)]
pub struct Parents<F: Drop> {
    alloc: Global,
    dirs: KnownDirs,
    // Whether the system has names for open directories.
    has_names: bool,
    // The directory of the current path, and the one before. Files that are compared are read in turn, so both stay open.
    here: Option<Here<F>>,
    other: Option<Here<F>>,
    // The path of the last directory that was seen to be in its place.
    seen: String,
    way: String,
    working: Working,
}

impl<F: OpenFile + AsRawFd + Drop> Parents<F> {
    /// No directory is known yet.
    pub fn make<R: Files<File = F>>(alloc: Global, system: &R, key: [u8; 16]) -> Parents<F> {
        let has_names = has_names(alloc, system).unwrap_or(false);
        let user = match fs::metadata(system, "/proc/self") {
            Ok(data) => Some(data.uid()),
            Err(_) => None,
        };
        let working = Working::fixed(alloc);
        let dirs = KnownDirs::make(alloc, Known::make(alloc, key), user);
        Parents::over(alloc, dirs, has_names, working)
    }
}

impl<F: Drop> Parents<F> {
    fn over(alloc: Global, dirs: KnownDirs, has_names: bool, working: Working) -> Parents<F> {
        Parents {
            alloc,
            dirs,
            has_names,
            here: None,
            other: None,
            seen: String::new(alloc),
            way: String::new(alloc),
            working,
        }
    }

    /// Lets calls change the working directory of the process, if the run is alone.
    pub fn work_alone(&mut self, is_alone: bool) {
        self.working = if is_alone {
            Working::alone(self.alloc)
        } else {
            Working::fixed(self.alloc)
        };
    }

    /// A copy of all knowledge, for a reader or a part.
    pub fn share(&mut self) -> Result<Parents<F>, OutOfMemory> {
        let dirs = self.dirs.share(self.alloc)?;
        let working = self.working.share()?;
        Ok(Parents::over(self.alloc, dirs, self.has_names, working))
    }

    /// Takes the knowledge of a reader or a part.
    pub fn take(&mut self, other: Parents<F>) {
        let Parents { dirs, working, .. } = other;
        self.close();
        self.seen.clear();
        self.dirs.take(dirs);
        self.working.take(working);
    }

    // Closes the two directories that were used last.
    fn close(&mut self) {
        self.here = None;
        self.other = None;
    }

    /// Forgets the working directory if it may be at a path or below it, before a directory is made or removed there.
    pub fn forget(&mut self, path: &Path) {
        self.working.forget(plain(path));
    }

    /// Keeps which directory is at a path. If one is known there already, that one may stay.
    pub fn keep<R: Files>(
        &mut self,
        system: &R,
        path: &Path,
        directory: Directory,
        known_stays: bool,
    ) -> io::Result<()> {
        let hash = self.dirs.hash(plain(path));
        self.keep_mode(system, plain(path), hash, directory);
        if known_stays && self.dirs.has(hash) {
            return Ok(());
        }
        self.dirs.keep(hash, directory.identity)
    }

    /// Keeps that another entry is in the place of a directory. Until a directory is made there, none is taken for it.
    pub fn refuse(&mut self, path: &Path) -> io::Result<()> {
        self.seen.clear();
        self.leave_below(plain(path));
        let hash = self.dirs.hash(plain(path));
        self.dirs.keep(hash, Identity::of_none())
    }

    // Keeps that the directory at a path is exposed, if it is. Then no directory below it counts as private any longer.
    fn keep_mode<R: Files>(
        &mut self,
        system: &R,
        path: &str,
        hash: PathHash,
        directory: Directory,
    ) {
        if self.dirs.expose(system, path, hash, directory) {
            self.leave_below(path);
            // If there was no memory for that, each directory counts as exposed.
            self.working.forget("");
        }
    }

    // Closes those of the two directories that were used last that are at a path or below it.
    fn leave_below(&mut self, top: &str) {
        if is_below(&self.here, top) {
            self.here = None;
        }
        if is_below(&self.other, top) {
            self.other = None;
        }
    }

    // Whether a call, which asks the system so often, names an entry of the directory at a path by its last name alone. It does so in the
    // working directory. A private directory at which the run looked may become that.
    fn is_alone<R: Watch>(&mut self, system: &R, path: &str, asks: u64) -> bool {
        match self.working.naming(path, asks) {
            Naming::Alone => true,
            Naming::Due => {
                let may_enter = self.dirs.find(path).is_looked_at() && self.dirs.is_private(path);
                self.working.enter(system, path, may_enter)
            }
            Naming::Whole => false,
        }
    }

    /// The name by which the system is asked for what is at a path, where nothing is compared.
    pub fn name_to_look<'a, R: Watch>(&mut self, system: &R, path: &'a Path) -> &'a str {
        if self.working.is_fixed() {
            return path.text();
        }
        let (above, name) = around(path);
        if self.is_alone(system, above, 1) {
            name
        } else {
            path.text()
        }
    }

    /// Closes the directories that were used last, unless the path is in one of them.
    pub fn leave(&mut self, path: &Path) {
        if self.here.is_none() && self.other.is_none() {
            return;
        }
        let above = around(path).0;
        if !is_at(&self.here, above) && !is_at(&self.other, above) {
            self.close();
        }
    }

    /// The name for the current path in calls to the system.
    pub fn way(&self) -> &str {
        self.way.as_str()
    }

    /// Whether the current path is in a private directory, so that no other user can replace its entry.
    pub fn in_private(&self) -> bool {
        match &self.here {
            Some(here) => here.is_private(),
            None => false,
        }
    }

    /// The answer of the system, if the directory is still the known one. Otherwise an error.
    pub fn told<R: Files, T: Drop>(&self, system: &R, told: io::Result<T>) -> io::Result<T> {
        if self.stands(system) {
            told
        } else {
            Err(another())
        }
    }

    // Whether the directory is still the known one.
    fn stands<R: Files>(&self, system: &R) -> bool {
        match &self.here {
            Some(here) => here.stands(system),
            None => true,
        }
    }

    // Whether the directory at a path is the child of the one above it, as far as that one is known and the system answers. In a private
    // directory the system is not asked.
    fn is_child<R: Files>(&mut self, system: &R, path: &Path) -> bool {
        let above = around(path).0;
        if self.dirs.is_private(above) {
            return true;
        }
        let due = match self.dirs.find(above) {
            Found::Is(due) => due,
            Found::Nothing => return true,
            Found::Lost => return false,
        };
        if self.put_way(plain(path), "/..").is_err() {
            return false;
        }
        match Identity::at(system, self.way()) {
            Ok(identity) => identity == due,
            Err(_) => true,
        }
    }

    fn put_way(&mut self, front: &str, name: &str) -> io::Result<()> {
        self.way.clear();
        self.way.push_str(front)?;
        self.way.push_str(name)?;
        Ok(())
    }
}

impl<F: OpenFile + AsRawFd + Drop> Parents<F> {
    /// Makes a path the current one, so that [`Parents::way`] is its name in calls to the system, of which so many come. If the directory above
    /// it does not exist, nothing is at the path.
    pub fn go<R: Files<File = F> + Watch>(
        &mut self,
        system: &R,
        path: &Path,
        asks: u64,
    ) -> io::Result<()> {
        let (above, name) = around(path);
        if !self.is_last(above) {
            self.here = None;
            self.here = Some(self.entered_or_none(system, above)?);
        }
        if !self.stands(system) {
            return Err(another());
        }
        if self.is_alone(system, above, asks) {
            self.put_way("", name)
        } else {
            self.put_way_in(name)
        }
    }

    // Whether the directory at a path is one of the two that were used last. Then it is the last one from then on.
    fn is_last(&mut self, path: &str) -> bool {
        if is_at(&self.here, path) {
            return true;
        }
        mem::swap(&mut self.here, &mut self.other);
        is_at(&self.here, path)
    }

    // Puts the name for an entry of the directory that was used last.
    fn put_way_in(&mut self, name: &str) -> io::Result<()> {
        self.way.clear();
        if let Some(here) = &self.here {
            self.way.push_str(here.front())?;
        }
        self.way.push_str(name)?;
        Ok(())
    }

    // The directory at a path. If it does not exist, nothing is at any path in it.
    fn entered_or_none<R: Files<File = F>>(
        &mut self,
        system: &R,
        path: &str,
    ) -> io::Result<Here<F>> {
        match self.entered(system, path) {
            Err(e) if is_absent(e.kind()) => Err(io::Error::from(ErrorKind::NotFound)),
            told => told,
        }
    }

    fn entered<R: Files<File = F>>(&mut self, system: &R, path: &str) -> io::Result<Here<F>> {
        let found = self.dirs.find(path);
        if self.dirs.is_private(path) {
            return Here::by_path(self.alloc, path, None, found.is_looked_at());
        }
        match found {
            Found::Is(due) => self.known_entered(system, path, due),
            Found::Nothing => Here::by_path(self.alloc, path, None, false),
            Found::Lost => Err(another()),
        }
    }

    // The directory at a path. It must be this one, and be in its place.
    fn known_entered<R: Files<File = F>>(
        &mut self,
        system: &R,
        path: &str,
        due: Identity,
    ) -> io::Result<Here<F>> {
        let here = Here::to_use(self.alloc, system, path, due, self.has_names)?;
        if !self.is_in_place(system, path, &here)? {
            return Err(another());
        }
        self.see(path)?;
        Ok(here)
    }

    // Whether the directory at a path is in its place, as far up as is not known yet.
    fn is_in_place<R: Files<File = F>>(
        &self,
        system: &R,
        path: &str,
        here: &Here<F>,
    ) -> io::Result<bool> {
        let front = here.front();
        let place = Place { path, front };
        let seen = self.seen.as_str();
        is_in_place(
            self.alloc,
            system,
            self.dirs.known(),
            place,
            seen,
            self.has_names,
        )
    }

    // Keeps that the directory at a path was seen to be in its place.
    fn see(&mut self, path: &str) -> io::Result<()> {
        self.seen.clear();
        self.seen.push_str(path)?;
        Ok(())
    }
}

// The directories whose names are read.
impl<F: OpenFile + AsRawFd + Drop> Parents<F> {
    /// Opens the directory at a path, so that its names are read. A known directory that is not private must be the known one, and be in its
    /// place. If a link has taken its place, that is an error also where the link leads nowhere.
    pub fn open_dir<R: Files<File = F>>(&mut self, system: &R, path: &Path) -> io::Result<R::Dir> {
        if self.dirs.is_private(plain(path)) {
            let (above, name) = around(path);
            let is_alone = self.working.is_at(above);
            return system.open_dir(if is_alone { name } else { path.text() });
        }
        match self.dirs.find(plain(path)) {
            Found::Is(due) => match self.known_dir(system, path, due) {
                Err(e) if is_absent(e.kind()) && is_link(system, path) => Err(another()),
                told => told,
            },
            Found::Nothing => self.unknown_dir(system, path),
            Found::Lost => Err(another()),
        }
    }

    // Opens a directory at which the run did not look. It must be the child of the one above it.
    fn unknown_dir<R: Files<File = F>>(&mut self, system: &R, path: &Path) -> io::Result<R::Dir> {
        let dir = system.open_dir(path.text())?;
        if self.is_child(system, path) {
            Ok(dir)
        } else {
            Err(another())
        }
    }

    // Opens the directory at a path, which must be this one, so that its names are read. Then it is the one that was used last, unless it
    // may not be entered.
    fn known_dir<R: Files<File = F>>(
        &mut self,
        system: &R,
        path: &Path,
        due: Identity,
    ) -> io::Result<R::Dir> {
        let text = plain(path);
        let here = Here::to_list(self.alloc, system, text, due, self.has_names)?;
        let may_enter = self.may_enter(system, text, &here)?;
        let dir = dir_of(system, path, &here)?;
        if may_enter {
            self.see(text)?;
            self.stay(text, here);
        }
        Ok(dir)
    }

    // Whether the directory at a path may be entered. It must be in its place, as far as the system tells.
    fn may_enter<R: Files<File = F>>(
        &mut self,
        system: &R,
        path: &str,
        here: &Here<F>,
    ) -> io::Result<bool> {
        // The directory above it is compared again, also if this one was seen in its place.
        if is_within(self.seen.as_str(), path) {
            self.seen.clear();
        }
        match self.is_in_place(system, path, here) {
            Ok(true) => Ok(true),
            Ok(false) => Err(another()),
            // Its names may be read, but the system does not tell the directory above it.
            Err(e) if e.kind() == ErrorKind::PermissionDenied => Ok(false),
            Err(e) => Err(e),
        }
    }

    // Makes the directory at a path the one that was used last.
    fn stay(&mut self, path: &str, here: Here<F>) {
        if !is_at(&self.here, path) {
            self.other = self.here.take();
        }
        self.here = Some(here);
    }
}

// Opens the directory at a path to read its names, by its front if that one is open. It must still be the known one.
fn dir_of<R: Files>(system: &R, path: &Path, here: &Here<R::File>) -> io::Result<R::Dir> {
    let name = if here.is_open() {
        here.front()
    } else {
        path.text()
    };
    let dir = system.open_dir(name)?;
    if here.stands(system) {
        Ok(dir)
    } else {
        Err(another())
    }
}
