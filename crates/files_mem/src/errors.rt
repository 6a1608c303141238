//! Why a node is not put.
use outside::WriteError;
use path_text::NoMemory;
use thiserror::Error;

/// Why a node is not put at a path.
#[derive(Clone, Copy, Debug, Drop, PartialEq, Eq, Error)]
pub enum PutError {
    /// A node is there already.
    #[error("a node is there already")]
    Exists,
    /// The parent is not a directory.
    #[error("the path over it is no directory")]
    NoParent,
    /// Out of memory.
    #[error("out of memory")]
    OutOfMemory,
}

impl<E: NoMemory> From<E> for PutError {
    ghost use Rattle.std.specs.Prelude.{◌≡◌};
    ghost use Rattle.files_mem.specs.declared.errors.PutError.TheVariants as error;

    ghost from_gives = { λ _ e. e ≡ error.OutOfMemory };

    fn from(_: E) -> Self {
        PutError::OutOfMemory
    }
}

impl From<PutError> for WriteError {
    ghost use Rattle.std.specs.Prelude.{◌≡◌};
    ghost use Rattle.files_mem.specs.Memory.{write_error};

    ghost from_gives = { λ refused e. e ≡ write_error refused };

    fn from(refused: PutError) -> Self {
        match refused {
            PutError::Exists => WriteError::Exists,
            PutError::NoParent => WriteError::NoParent,
            PutError::OutOfMemory => WriteError::OutOfMemory,
        }
    }
}
