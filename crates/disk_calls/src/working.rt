//! The working directory of the process. A name in it means the same as the whole path, and takes the system less time.
//!
//! The process has one working directory, and all readers and parts of a run that works alone share it. Each knows the directory that
//! it made the working directory itself, and the number of that change. If any of them has changed it since, or forgets it, the
//! numbers differ, so at most one of them believes in its own.
use crate::watch::Watch;
use crate::ways::is_within;
use path_text::OutOfMemory;
use std::alloc::Global;
use std::mem;
use std::sync::Arc;
use std::sync::atomic::{AtomicU64, Ordering};

/// How a call names the entry of a directory.
#[derive(Clone, Copy, Debug, Drop, PartialEq, Eq)]
pub enum Naming {
    /// By its last name alone: the directory is the working directory.
    Alone,
    /// By its whole path. The directory may become the working directory before that.
    Due,
    /// By its whole path.
    Whole,
}

/// The numbers that all readers and parts of a run share.
#[derive(Drop)]
struct Turns {
    // How many readers and parts there are.
    sharers: AtomicU64,
    // How many calls they made, and how many they had made after the last one by a name alone.
    calls: AtomicU64,
    used: AtomicU64,
    // How often the working directory was changed or forgotten. It is not 0.
    changes: AtomicU64,
}

impl Turns {
    // Whether this is the number of the last change.
    fn is_last(&self, change: u64) -> bool {
        self.changes.load(Ordering::SeqCst) == change
    }
}

/// A directory in which calls asked by whole paths.
#[derive(Drop)]
struct Near {
    path: String,
    // How many whole paths the system was asked, with those of the call that comes.
    asked: u64,
    // Whether it must not become the working directory.
    is_out: bool,
}

impl Near {
    fn none(alloc: Global) -> Near {
        Near {
            path: String::new(alloc),
            asked: 0,
            is_out: true,
        }
    }

    fn is_at(&self, path: &str) -> bool {
        self.path.as_str() == path
    }

    // The directory at a path, with no call yet. The one at `/` has no path here, and must stay out, as one for whose path memory lacks.
    fn come(&mut self, path: &str) {
        self.path.clear();
        self.asked = 0;
        self.is_out = path.is_empty() || self.path.push_str(path).is_err();
    }
}

/// The knowledge of a reader or a part about the working directory. Paths have no slash at their ends here.
#[derive(Drop)]
pub struct Working {
    alloc: Global,
    // None if the run does not change the working directory.
    turns: Option<Arc<Turns>>,
    // The directory that this one made the working directory, and the number of that change, or 0.
    here: String,
    change: u64,
    // The last two directories with calls by whole paths, the later one first.
    near: Near,
    other: Near,
}

impl Working {
    /// The working directory stays as it is.
    pub fn fixed(alloc: Global) -> Working {
        Working::over(alloc, None)
    }

    /// The working directory may be changed: nothing else in the process needs it. If there is no memory for that, it stays as it is.
    pub fn alone(alloc: Global) -> Working {
        let turns = Turns {
            sharers: AtomicU64::new(0),
            calls: AtomicU64::new(0),
            used: AtomicU64::new(0),
            changes: AtomicU64::new(1),
        };
        Working::over(alloc, Arc::new(alloc, turns).ok())
    }

    fn over(alloc: Global, turns: Option<Arc<Turns>>) -> Working {
        Working {
            alloc,
            turns,
            here: String::new(alloc),
            change: 0,
            near: Near::none(alloc),
            other: Near::none(alloc),
        }
    }

    /// The same for a reader or a part, which has not made a call yet.
    pub fn share(&self) -> Result<Working, OutOfMemory> {
        let Some(turns) = &self.turns else {
            return Ok(Working::fixed(self.alloc));
        };
        let shared = Arc::try_clone(turns)?;
        turns.sharers.fetch_add(1, Ordering::SeqCst);
        Ok(Working::over(self.alloc, Some(shared)))
    }

    /// Takes back that of a reader or a part. The working directory is forgotten.
    pub fn take(&mut self, other: Working) {
        if let (Some(turns), Some(_)) = (&self.turns, &other.turns) {
            turns.sharers.fetch_sub(1, Ordering::SeqCst);
        }
        self.forget("");
    }

    /// Whether the run does not change the working directory, so that each call names its whole path.
    pub fn is_fixed(&self) -> bool {
        self.turns.is_none()
    }

    /// Whether this is the working directory.
    pub fn is_at(&self, path: &str) -> bool {
        match &self.turns {
            Some(turns) => turns.is_last(self.change) && self.here.as_str() == path,
            None => false,
        }
    }

    /// How a call names an entry of the directory at a path, which asks the system so often by that name. The second time makes the directory
    /// due, if the working directory was of no use for two calls, and for as many as there are readers and parts. If there are several, earlier
    /// calls do not count.
    pub fn naming(&mut self, path: &str, asks: u64) -> Naming {
        let Some(turns) = &self.turns else {
            return Naming::Whole;
        };
        let call = turns.calls.load(Ordering::Relaxed).wrapping_add(1);
        turns.calls.store(call, Ordering::Relaxed);
        if turns.is_last(self.change) && self.here.as_str() == path {
            turns.used.store(call, Ordering::Relaxed);
            return Naming::Alone;
        }
        let idle = call.wrapping_sub(turns.used.load(Ordering::Relaxed));
        let sharers = turns.sharers.load(Ordering::Relaxed);
        let is_free = idle > 1 && sharers <= idle;
        if !is_free && sharers > 1 {
            return Naming::Whole;
        }
        if !self.near.is_at(path) {
            mem::swap(&mut self.near, &mut self.other);
        }
        if !self.near.is_at(path) {
            self.near.come(path);
        }
        self.near.asked = self.near.asked.saturating_add(asks);
        if is_free && self.near.asked > 1 && !self.near.is_out {
            Naming::Due
        } else {
            Naming::Whole
        }
    }

    /// Makes the directory of the last call, which is due, the working directory, if it may be that. It answers whether it is. If not,
    /// calls in it name whole paths as before.
    pub fn enter<R: Watch>(&mut self, system: &R, path: &str, may_enter: bool) -> bool {
        self.near.is_out = !may_enter || !self.entered(system, path);
        !self.near.is_out
    }

    fn entered<R: Watch>(&mut self, system: &R, path: &str) -> bool {
        let Some(turns) = &self.turns else {
            return false;
        };
        let before = turns.changes.fetch_add(1, Ordering::SeqCst);
        turns
            .used
            .store(turns.calls.load(Ordering::SeqCst), Ordering::SeqCst);
        self.change = 0;
        self.here.clear();
        if self.here.push_str(path).is_err() || system.work_in(path).is_err() {
            return false;
        }
        self.change = before.wrapping_add(1);
        true
    }

    /// Forgets the working directory, for all that share it, unless it is known to be neither at the path nor below it.
    pub fn forget(&mut self, path: &str) {
        let Some(turns) = &self.turns else {
            return;
        };
        if turns.is_last(self.change) && !is_within(self.here.as_str(), path) {
            return;
        }
        turns.changes.fetch_add(1, Ordering::SeqCst);
    }
}
