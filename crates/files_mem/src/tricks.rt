//! The false answers of readers.
use crate::meetings::Meeting;
use path_text::{OutOfMemory, Path};
use std::alloc::{AllocError, Global};
use std::sync::Arc;

/// The paths that are lied about, those whose files swell, and the paths that meet. Those who share them keep them as they were.
#[derive(Drop)]
pub struct Tricks {
    lies: Option<Arc<Vec<Path>>>,
    swells: Option<Arc<Vec<Path>>>,
    meeting: Option<Arc<Meeting>>,
}

impl Tricks {
    /// No paths.
    pub fn none() -> Tricks {
        Tricks {
            lies: None,
            swells: None,
            meeting: None,
        }
    }

    /// A second handle on the same paths.
    pub fn share(&self) -> Result<Tricks, OutOfMemory> {
        Ok(Tricks {
            lies: again(&self.lies)?,
            swells: again(&self.swells)?,
            meeting: again(&self.meeting)?,
        })
    }

    /// Adds a path that is lied about.
    pub fn lie(&mut self, alloc: Global, path: &Path) -> Result<(), OutOfMemory> {
        add(&mut self.lies, alloc, path)
    }

    /// Adds a path whose file swells.
    pub fn swell(&mut self, alloc: Global, path: &Path) -> Result<(), OutOfMemory> {
        add(&mut self.swells, alloc, path)
    }

    /// These two meet, and no others.
    pub fn meet(&mut self, alloc: Global, one: &Path, other: &Path) -> Result<(), OutOfMemory> {
        let meeting = Meeting::make(one.copy()?, other.copy()?);
        self.meeting = Some(Arc::new(alloc, meeting)?);
        Ok(())
    }

    /// Whether the path is lied about.
    pub fn lies(&self, path: &Path) -> bool {
        has(&self.lies, path)
    }

    /// Whether the file at the path swells.
    pub fn swells(&self, path: &Path) -> bool {
        has(&self.swells, path)
    }

    /// Waits for a look at the path that this one meets, and answers whether it came.
    pub fn meets(&self, path: &Path) -> bool {
        match &self.meeting {
            Some(meeting) => meeting.meets(path),
            None => true,
        }
    }
}

// Adds a path. Those who share the paths keep them as they were.
fn add(paths: &mut Option<Arc<Vec<Path>>>, alloc: Global, path: &Path) -> Result<(), OutOfMemory> {
    let path = path.copy()?;
    match paths {
        Some(paths) => Arc::make_mut(paths)?.push(path)?,
        None => *paths = Some(Arc::new(alloc, vec![in alloc; path]?)?),
    }
    Ok(())
}

fn has(paths: &Option<Arc<Vec<Path>>>, path: &Path) -> bool {
    match paths {
        Some(paths) => paths.contains(path),
        None => false,
    }
}

// A second handle on the same value.
fn again<T>(shared: &Option<Arc<T>>) -> Result<Option<Arc<T>>, AllocError> {
    match shared {
        Some(shared) => Ok(Some(Arc::try_clone(shared)?)),
        None => Ok(None),
    }
}
