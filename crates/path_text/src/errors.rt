//! The errors of calls on paths.
use std::alloc::{AllocError, AllocFailed};
use thiserror::Error;

/// The call is out of memory.
#[derive(Clone, Copy, Debug, Drop, PartialEq, Eq, Error)]
#[error("out of memory")]
pub struct OutOfMemory;

impl From<AllocError> for OutOfMemory {
    fn from(_: AllocError) -> Self {
        OutOfMemory
    }
}

impl<T: Drop> From<AllocFailed<T>> for OutOfMemory {
    fn from(_: AllocFailed<T>) -> Self {
        OutOfMemory
    }
}

/// An error that says that memory ran out, and nothing else. An error with a case for it has one `impl<E: NoMemory> From<E>`,
/// and so `?` takes each of these.
pub trait NoMemory: Drop {}

impl NoMemory for OutOfMemory {}

impl NoMemory for AllocError {}

impl<T: Drop> NoMemory for AllocFailed<T> {}

/// Why a text is not a path, or why no path could be made of it.
#[derive(Clone, Copy, Debug, Drop, PartialEq, Eq, Error)]
pub enum PathError {
    /// The first byte is not `/`.
    #[error("a path begins with `/`")]
    NotAbsolute,
    /// Two `/` in a row, or a `/` at the end.
    #[error("a name of the path is empty")]
    EmptyName,
    /// A name is `.` or `..`.
    #[error("a name of the path is `.` or `..`")]
    DotName,
    /// A name holds the byte 0.
    #[error("a name of the path holds the byte 0")]
    Nul,
    /// The text has more than 4,095 bytes.
    #[error("the path has more than 4095 bytes")]
    TooLong,
    /// The call is out of memory.
    #[error("out of memory")]
    OutOfMemory,
}

impl From<AllocError> for PathError {
    ghost use Rattle.std.specs.Prelude.{◌≡◌};
    ghost use Rattle.path_text.specs.declared.errors.PathError.TheVariants.{OutOfMemory};

    ghost from_gives = { λ _ e. e ≡ OutOfMemory };

    fn from(_: AllocError) -> Self {
        PathError::OutOfMemory
    }
}

/// Why a longer path could not be made.
#[derive(Clone, Copy, Debug, Drop, PartialEq, Eq, Error)]
pub enum JoinError {
    /// The path would have more than 4,095 bytes.
    #[error("the path would have more than 4095 bytes")]
    TooLong,
    /// The call is out of memory.
    #[error("out of memory")]
    OutOfMemory,
}

impl From<AllocError> for JoinError {
    ghost use Rattle.std.specs.Prelude.{◌≡◌};
    ghost use Rattle.path_text.specs.declared.errors.JoinError.TheVariants.{OutOfMemory};

    ghost from_gives = { λ _ e. e ≡ OutOfMemory };

    fn from(_: AllocError) -> Self {
        JoinError::OutOfMemory
    }
}

/// Why a text is not a path as [`escape`](crate::escape) writes it, or why no path could be made of it.
#[derive(Clone, Copy, Debug, Drop, PartialEq, Eq, Error)]
pub enum EscapeError {
    /// The byte at this index is raw and must be escaped, or is a backslash that begins no escape.
    #[error("the byte at {0} is no text of a path")]
    BadEscape(usize),
    /// The bytes that the text means are not a path. The error is never `PathError::OutOfMemory`.
    #[error("{0}")]
    Path(PathError),
    /// The call is out of memory.
    #[error("out of memory")]
    OutOfMemory,
}

impl From<AllocError> for EscapeError {
    ghost use Rattle.std.specs.Prelude.{◌≡◌};
    ghost use Rattle.path_text.specs.declared.errors.EscapeError.TheVariants.{OutOfMemory};

    ghost from_gives = { λ _ e. e ≡ OutOfMemory };

    fn from(_: AllocError) -> Self {
        EscapeError::OutOfMemory
    }
}
