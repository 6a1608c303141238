//! Why the lists of a checkpoint are not written or read.
use path_text::{NoMemory, Path};
use thiserror::Error;

/// Why the lists of a checkpoint are not written or read.
#[derive(Debug, Drop, PartialEq, Eq, Error)]
pub enum ListsError {
    /// The files failed at this path, and have counted the fault.
    #[error("the files failed")]
    Failed(Path),
    /// The call is out of memory.
    #[error("out of memory")]
    OutOfMemory,
    /// In this file the lines before this one begin a file of its rank, and the lines up to this one do not. Lines count from 1,
    /// and the line after the last of a text is its end. Only reading gives this error.
    #[error("the file of a rank is damaged at line {1}")]
    Damaged(Path, u64),
    /// No file is at this path; or, with the folder's path, a file's path would be too long. Only reading gives this error.
    #[error("the file of a rank is absent")]
    NoFile(Path),
    /// No file can be at this path; or, with the folder's path, a file's path would be too long. Only writing gives this error.
    #[error("the file of a rank has no place")]
    NoPlace(Path),
}

impl<E: NoMemory> From<E> for ListsError {
    ghost use Rattle.std.specs.Prelude.{◌≡◌};
    ghost use Rattle.circle_lists.specs.declared.errors.ListsError.TheVariants as error;

    ghost from_gives = { λ _ e. e ≡ error.OutOfMemory };

    fn from(_: E) -> Self {
        ListsError::OutOfMemory
    }
}
