//! Sources with their targets, and why there are none.
use path_text::{NoMemory, Path};
use thiserror::Error;

/// A source, and the path to which it is copied.
#[derive(Debug, Drop)]
pub struct Pair {
    /// The path that is copied.
    pub source: Path,
    /// The path to which it is copied.
    pub target: Path,
}

/// Why sources can't be copied to a destination.
#[derive(Debug, Drop, Error)]
pub enum PlaceError {
    /// Two of all sources and targets are equal, or one is under another.
    #[error("sources and targets overlap")]
    Overlap,
    /// The destination is not a directory, or not in one, or a target would be too long.
    #[error("the destination is no directory")]
    NoDest,
    /// The look at this path failed.
    #[error("the look at the destination failed")]
    Failed(Path),
    /// Out of memory.
    #[error("out of memory")]
    OutOfMemory,
}

impl<E: NoMemory> From<E> for PlaceError {
    ghost use Rattle.std.specs.Prelude.{◌≡◌};
    ghost use Rattle.tree_copy.specs.declared.pairs.PlaceError.TheVariants as error;

    ghost from_gives = { λ _ e. e ≡ error.OutOfMemory };

    fn from(_: E) -> Self {
        PlaceError::OutOfMemory
    }
}
