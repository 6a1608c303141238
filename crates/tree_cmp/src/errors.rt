//! The errors of a comparison, and of the text of an expression.
use path_text::{JoinError, NoMemory, OutOfMemory};
use std::alloc::{AllocError, AllocFailed};
use thiserror::Error;

/// Why a comparison stops without findings.
#[derive(Clone, Copy, Debug, Drop, PartialEq, Eq, Error)]
pub enum CmpError {
    /// Memory runs out.
    #[error("out of memory")]
    OutOfMemory,
}

/// A path that is joined again to its own top is not too long, so the one cause is that memory runs out.
impl From<JoinError> for CmpError {
    fn from(_: JoinError) -> Self {
        CmpError::OutOfMemory
    }
}

impl<T: Drop> From<AllocFailed<T>> for CmpError {
    fn from(_: AllocFailed<T>) -> Self {
        CmpError::OutOfMemory
    }
}

impl NoMemory for CmpError {}

impl From<OutOfMemory> for CmpError {
    fn from(_: OutOfMemory) -> Self {
        CmpError::OutOfMemory
    }
}

impl From<AllocError> for CmpError {
    fn from(_: AllocError) -> Self {
        CmpError::OutOfMemory
    }
}

/// Why a text is not an expression.
#[derive(Clone, Copy, Debug, Drop, PartialEq, Eq, Error)]
pub enum ExprError {
    /// The condition that begins at this byte has no `=`, or the word before its `=` is not a field.
    #[error("no field at byte {0}")]
    BadField(usize),
    /// The word after a `=`, which begins at this byte, is not a state of the field.
    #[error("no state at byte {0}")]
    BadState(usize),
    /// The text is empty.
    #[error("no expression")]
    Empty,
    /// Memory runs out.
    #[error("out of memory")]
    OutOfMemory,
}

impl<E: NoMemory> From<E> for ExprError {
    ghost use Rattle.std.specs.Prelude.{◌≡◌};
    ghost use Rattle.tree_cmp.specs.declared.errors.ExprError.TheVariants as error;

    ghost from_gives = { λ _ e. e ≡ error.OutOfMemory };

    fn from(_: E) -> Self {
        ExprError::OutOfMemory
    }
}
