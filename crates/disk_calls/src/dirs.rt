//! The directories that a run knows, and which of them another user can change.
use crate::above::{Above, has_exposed_from, look_above};
use crate::known::{Directory, Found, Identity, Known, PathHash};
use path_text::OutOfMemory;
use std::alloc::Global;
use std::fs::Files;
use std::io;

/// The knowledge about directories. A path has no slash at its end here.
#[derive(Drop)]
pub struct KnownDirs {
    known: Known,
    // The user who runs the program, if the system gives it.
    user: Option<u32>,
    // The path of the last directory that was found private.
    private: String,
    // The path of the last directory about which the system was asked, with those above it, and which no other user can replace.
    safe: String,
}

impl KnownDirs {
    /// These directories. Nothing is known of other users.
    pub fn make(alloc: Global, known: Known, user: Option<u32>) -> KnownDirs {
        KnownDirs {
            known,
            user,
            private: String::new(alloc),
            safe: String::new(alloc),
        }
    }

    /// A copy of all knowledge, for a reader or a part.
    pub fn share(&mut self, alloc: Global) -> Result<KnownDirs, OutOfMemory> {
        let known = self.known.share()?;
        Ok(KnownDirs::make(alloc, known, self.user))
    }

    /// Takes the knowledge of a reader or a part.
    pub fn take(&mut self, other: KnownDirs) {
        let KnownDirs { known, .. } = other;
        self.private.clear();
        self.safe.clear();
        self.known.take(known);
    }

    /// The directories, each with its identity.
    pub fn known(&self) -> &Known {
        &self.known
    }

    /// The hash by which a path is known.
    pub fn hash(&self, path: &str) -> PathHash {
        self.known.hash(path)
    }

    /// The knowledge about the directory at a path.
    pub fn find(&self, path: &str) -> Found {
        self.known.find(self.known.hash(path))
    }

    /// Whether a directory is known at a path.
    pub fn has(&self, hash: PathHash) -> bool {
        match self.known.find(hash) {
            Found::Is(_) => true,
            Found::Nothing | Found::Lost => false,
        }
    }

    /// Keeps which directory is at a path.
    pub fn keep(&mut self, hash: PathHash, identity: Identity) -> io::Result<()> {
        self.known.keep(hash, identity)
    }

    /// Keeps that the directory at a path is exposed, if it is. It answers whether that is new. Then no directory counts as private until it
    /// is looked up again.
    pub fn expose<R: Files>(
        &mut self,
        system: &R,
        path: &str,
        hash: PathHash,
        directory: Directory,
    ) -> bool {
        if !self.is_newly_exposed(system, path, hash, directory) {
            return false;
        }
        self.known.expose(hash);
        self.private.clear();
        self.safe.clear();
        true
    }

    // Whether the directory at a path is exposed, and is not known to be so.
    fn is_newly_exposed<R: Files>(
        &mut self,
        system: &R,
        path: &str,
        hash: PathHash,
        directory: Directory,
    ) -> bool {
        let Some(user) = self.user else {
            return false;
        };
        if self.known.is_exposed(hash) {
            return false;
        }
        !(directory.is_own(user) && self.is_under_own(system, path, user))
    }

    // Whether no other user can replace the directories above a path. If the system was asked, the nearest one is kept, so that it is not asked
    // again for another path in that directory.
    fn is_under_own<R: Files>(&mut self, system: &R, path: &str, user: u32) -> bool {
        let above = path.rsplit_once('/').unwrap_or(("", "")).0;
        if !above.is_empty() && self.safe.as_str() == above {
            return true;
        }
        match look_above(system, &self.known, path, user) {
            Above::Exposed => false,
            Above::Known => true,
            Above::Asked => {
                self.safe.clear();
                // If there is no memory for the path, the system is asked again.
                if self.safe.push_str(above).is_err() {
                    self.safe.clear();
                }
                true
            }
        }
    }

    /// Whether the directory at a path is private. Then neither it nor any above it is exposed.
    pub fn is_private(&mut self, path: &str) -> bool {
        if self.user.is_none() {
            return false;
        }
        if !self.known.has_exposed() {
            return true;
        }
        if has_exposed_from(&self.known, path, self.private.as_str()) {
            return false;
        }
        self.private.clear();
        // If there is no memory for the path, the next one is looked up again.
        if self.private.push_str(path).is_err() {
            self.private.clear();
        }
        true
    }
}
