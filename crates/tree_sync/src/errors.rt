//! Why a sync ends early.
use path_text::NoMemory;
use thiserror::Error;

/// Why a sync ends early.
#[derive(Clone, Copy, Debug, Drop, PartialEq, Eq, Error)]
pub enum SyncError {
    /// Out of memory.
    #[error("out of memory")]
    OutOfMemory,
}

impl<E: NoMemory> From<E> for SyncError {
    fn from(_: E) -> Self {
        SyncError::OutOfMemory
    }
}
