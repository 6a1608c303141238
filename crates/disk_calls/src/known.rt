//! The directories that a run knows, each by its device and inode.
use path_text::OutOfMemory;
use std::alloc::Global;
use std::collections::HashMap;
use std::collections::hash_map::DefaultHasher;
use std::fs::{Files, Metadata, OpenFile};
use std::hash::Hasher;
use std::os::unix::fs::MetadataExt;
use std::sync::Arc;
use std::{fs, io, mem};

// The bits of a mode by which group and others write.
const OTHERS_WRITE: u32 = 0o022;

// The bit of a directory in which nobody can rename or delete the entries of others.
const STICKY: u32 = 0o1000;

/// The identity of a file or directory, which all its names share.
#[derive(Clone, Copy, Debug, Drop, PartialEq, Eq)]
pub struct Identity {
    device: u64,
    inode: u64,
}

impl Identity {
    /// The identity in an answer of the system.
    pub fn of(data: &Metadata) -> Identity {
        Identity {
            device: data.dev(),
            inode: data.ino(),
        }
    }

    /// The identity of the entry to which a path leads.
    pub fn at<R: Files>(system: &R, path: &str) -> io::Result<Identity> {
        match fs::metadata(system, path) {
            Ok(data) => Ok(Identity::of(&data)),
            Err(e) => Err(e),
        }
    }

    /// The identity of an open file or directory.
    pub fn of_open<F: OpenFile>(open: &F) -> io::Result<Identity> {
        match open.metadata() {
            Ok(data) => Ok(Identity::of(&data)),
            Err(e) => Err(e),
        }
    }

    /// An identity that no file or directory has.
    pub fn of_none() -> Identity {
        Identity {
            device: u64::MAX,
            inode: u64::MAX,
        }
    }
}

/// A directory as the system describes it. It is small, so a caller need not keep the whole answer of the system.
#[derive(Clone, Copy, Debug, Drop)]
pub struct Directory {
    /// Which directory it is.
    pub identity: Identity,
    owner: u32,
    mode: u32,
}

impl Directory {
    /// The directory of an answer of the system.
    pub fn of(data: &Metadata) -> Directory {
        Directory {
            identity: Identity::of(data),
            owner: data.uid(),
            mode: data.mode(),
        }
    }

    /// Whether nobody but this user and root can write in it. One of the two owns it, and its mode lets neither group nor others
    /// write. If it has an access list, its mode has the most that the list gives to groups and to other users.
    pub fn is_own(self, user: u32) -> bool {
        self.has_owner(user) && self.mode & OTHERS_WRITE == 0
    }

    /// Whether only this user and root can replace one of their entries in it. Either they alone can write in it, or one of them owns
    /// it and it is sticky.
    pub fn keeps_own(self, user: u32) -> bool {
        self.is_own(user) || (self.has_owner(user) && self.mode & STICKY != 0)
    }

    fn has_owner(self, user: u32) -> bool {
        self.owner == user || self.owner == 0
    }
}

/// The knowledge about the directory at a path.
#[derive(Clone, Copy, Debug, Drop, PartialEq, Eq)]
pub enum Found {
    /// The run looked at it, made it or found it, and it was this one.
    Is(Identity),
    /// Nothing: the run did not look at it.
    Nothing,
    /// There was no memory for some directory, which may be this one.
    Lost,
}

impl Found {
    /// Whether the run looked at the directory. It did not look at the one above a path word, in which others may write.
    pub fn is_looked_at(self) -> bool {
        match self {
            Found::Is(identity) => identity != Identity::of_none(),
            _ => false,
        }
    }
}

// Directories, by the hashes of their paths.
#[derive(Drop)]
struct Looks {
    by_path: HashMap<u64, Identity>,
    // Those in which others can write.
    exposed: HashMap<u64, ()>,
    lost: bool,
}

impl Looks {
    fn none(alloc: Global) -> Looks {
        Looks {
            by_path: HashMap::new(alloc),
            exposed: HashMap::new(alloc),
            lost: false,
        }
    }

    fn is_empty(&self) -> bool {
        self.by_path.is_empty() && self.exposed.is_empty() && !self.lost
    }

    // Whether others can write in some directory, as far as is known.
    fn has_exposed(&self) -> bool {
        self.lost || !self.exposed.is_empty()
    }

    fn is_exposed(&self, hash: u64) -> bool {
        self.lost || (!self.exposed.is_empty() && self.exposed.contains_key(&hash))
    }
}

/// The hash of a path under the key of a run. One hash serves several questions about a path.
#[derive(Clone, Copy, Debug, Drop)]
pub struct PathHash(u64);

/// The directories that a run looked at, made or found, each with its identity. It keeps a hash of each path under a key that nobody
/// can guess, and not the path. A path has no slash at its end here, so that of `/` is empty.
#[derive(Drop)]
pub struct Known {
    alloc: Global,
    key: [u8; 16],
    // The knowledge from before this was made, which others share. The latest comes last.
    before: Vec<Arc<Looks>>,
    own: Looks,
}

impl Known {
    /// No directory. It takes no memory.
    pub fn make(alloc: Global, key: [u8; 16]) -> Known {
        Known {
            alloc,
            key,
            before: Vec::new(alloc),
            own: Looks::none(alloc),
        }
    }

    /// The hash by which a path is known.
    pub fn hash(&self, path: &str) -> PathHash {
        let mut hasher = DefaultHasher::new();
        hasher.write(&self.key);
        hasher.write(path.as_bytes());
        PathHash(hasher.finish())
    }

    /// The latest knowledge about the directory at a path.
    pub fn find(&self, path: PathHash) -> Found {
        let PathHash(hash) = path;
        if let Some(identity) = self.own.by_path.get(&hash) {
            return Found::Is(*identity);
        }
        let mut lost = self.own.lost;
        for looks in self.before.iter().rev() {
            if let Some(identity) = looks.by_path.get(&hash) {
                return Found::Is(*identity);
            }
            lost = lost || looks.lost;
        }
        if lost { Found::Lost } else { Found::Nothing }
    }

    /// Keeps which directory is at a path.
    pub fn keep(&mut self, path: PathHash, identity: Identity) -> io::Result<()> {
        let PathHash(hash) = path;
        self.own.by_path.insert(hash, identity)?;
        Ok(())
    }

    /// Keeps that others can write in the directory at a path, for the rest of the run. If there is no memory for that, each directory
    /// counts as one in which they can write.
    pub fn expose(&mut self, path: PathHash) {
        let PathHash(hash) = path;
        if self.own.exposed.insert(hash, ()).is_err() {
            self.own.lost = true;
        }
    }

    /// Whether others can write in some directory, as far as is known.
    pub fn has_exposed(&self) -> bool {
        self.own.has_exposed() || self.before.iter().any(|looks| looks.has_exposed())
    }

    /// Whether others can write in the directory at a path, as far as is known.
    pub fn is_exposed(&self, path: PathHash) -> bool {
        let PathHash(hash) = path;
        self.own.is_exposed(hash) || self.before.iter().any(|looks| looks.is_exposed(hash))
    }

    /// A copy of all knowledge, which goes on by itself.
    pub fn share(&mut self) -> Result<Known, OutOfMemory> {
        if !self.own.is_empty() {
            self.before.reserve(1)?;
            let own = mem::replace(&mut self.own, Looks::none(self.alloc));
            self.before.push(Arc::new(self.alloc, own)?)?;
        }
        let mut before = Vec::with_capacity(self.alloc, self.before.len())?;
        for looks in &self.before {
            before.push(Arc::try_clone(looks)?)?;
        }
        Ok(Known {
            alloc: self.alloc,
            key: self.key,
            before,
            own: Looks::none(self.alloc),
        })
    }

    /// Takes the knowledge of another one. If there is no memory for that, an unknown directory may be one that the run looked at, and
    /// is [`Found::Lost`].
    pub fn take(&mut self, other: Known) {
        let Known { own, .. } = other;
        if self.own.is_empty() {
            self.own = own;
            return;
        }
        for (hash, identity) in &own.by_path {
            if self.own.by_path.insert(*hash, *identity).is_err() {
                self.own.lost = true;
            }
        }
        for hash in own.exposed.keys() {
            if self.own.exposed.insert(*hash, ()).is_err() {
                self.own.lost = true;
            }
        }
        self.own.lost = self.own.lost || own.lost;
    }
}
