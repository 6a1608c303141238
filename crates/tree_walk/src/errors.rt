//! Why a walk gives no list.
use circle_run::CircleError;
use path_text::OutOfMemory;
use thiserror::Error;

/// Why a walk gives no list.
#[derive(Clone, Copy, Debug, Drop, PartialEq, Eq, Error)]
pub enum WalkError {
    /// The walk is out of memory.
    #[error("out of memory")]
    OutOfMemory,
    /// The walk found this many entries, more than [`crate::MAX_ENTRIES`].
    #[error("the walk found {0} entries, more than a list may have")]
    TooMany(u64),
}

impl From<OutOfMemory> for WalkError {
    ghost use Rattle.std.specs.Prelude.{◌≡◌};
    ghost use Rattle.tree_walk.specs.declared.errors.WalkError.TheVariants as error;

    ghost from_gives = { λ _ e. e ≡ error.OutOfMemory };

    fn from(_: OutOfMemory) -> Self {
        WalkError::OutOfMemory
    }
}

impl From<CircleError> for WalkError {
    ghost use Rattle.std.specs.Prelude.{◌≡◌};
    ghost use Rattle.tree_walk.specs.declared.errors.WalkError.TheVariants as error;

    ghost from_gives = { λ _ e. e ≡ error.OutOfMemory };

    fn from(_: CircleError) -> Self {
        WalkError::OutOfMemory
    }
}
