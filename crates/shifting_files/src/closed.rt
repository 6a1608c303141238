//! Files that tell no tree and cannot be written.
use outside::{LinkText, Plot, Tops, WriteError};
use path_text::Path;
use std::alloc::Global;

/// A place at which files are.
pub trait Place {
    ghost use Rattle.outside.specs.Writes.{Area};

    /// The paths at which they may be written.
    ghost area: { Self → Area };
}

impl Place for Tops {
    ghost use Rattle.outside.specs.Writes.{under};

    ghost area = { λ tops. under tops };
}

/// Files of such a place that tell no tree. Each call that writes is out of memory.
#[derive(Drop)]
pub struct Closed<P> {
    pub(crate) place: P,
}

impl<P: Place> Plot for Closed<P> {
    ghost use Rattle.std.specs.Prelude.{None};

    ghost tree = { λ _. None };

    ghost count = { λ _. 0 };

    ghost area = { λ closed. P.area closed.place };

    fn faults(&self) -> u64 {
        0
    }

    fn make_dir(&mut self, _alloc: Global, _path: &Path) -> Result<(), WriteError> {
        Err(WriteError::OutOfMemory)
    }

    fn make_file(&mut self, _alloc: Global, _path: &Path) -> Result<(), WriteError> {
        Err(WriteError::OutOfMemory)
    }

    fn make_link(
        &mut self,
        _alloc: Global,
        _path: &Path,
        _text: &LinkText,
    ) -> Result<(), WriteError> {
        Err(WriteError::OutOfMemory)
    }

    fn write_at(
        &mut self,
        _alloc: Global,
        _path: &Path,
        _at: u64,
        _bytes: &[u8],
    ) -> Result<(), WriteError> {
        Err(WriteError::OutOfMemory)
    }

    fn remove_file(&mut self, _alloc: Global, _path: &Path) -> Result<(), WriteError> {
        Err(WriteError::OutOfMemory)
    }

    fn remove_dir(&mut self, _alloc: Global, _path: &Path) -> Result<(), WriteError> {
        Err(WriteError::OutOfMemory)
    }
}
