//! The error of a run.
use path_text::NoMemory;
use thiserror::Error;

/// Why a run has no result.
#[derive(Clone, Copy, Debug, Drop, PartialEq, Eq, Error)]
pub enum CircleError {
    /// The run or a job ran out of memory.
    #[error("out of memory")]
    OutOfMemory,
}

impl<E: NoMemory> From<E> for CircleError {
    fn from(_: E) -> Self {
        CircleError::OutOfMemory
    }
}
