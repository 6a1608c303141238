//! Why a text is not a list file.
use path_text::NoMemory;
use thiserror::Error;

/// Why [`FlatList::decode`](crate::FlatList::decode) refuses a text.
#[derive(Clone, Copy, Debug, Drop, PartialEq, Eq, Error)]
pub enum CacheError {
    /// The lines before this one begin some list file, and together with this one they do not. Lines are counted from 1, and
    /// the line after the last line of a text is its end.
    #[error("the list is damaged at line {0}")]
    Damaged(u64),
    /// Out of memory.
    #[error("out of memory")]
    OutOfMemory,
    /// The text begins with the lines of more than 4,194,304 entries.
    #[error("the list has too many entries")]
    TooMany,
}

impl<E: NoMemory> From<E> for CacheError {
    ghost use Rattle.std.specs.Prelude.{◌≡◌};
    ghost use Rattle.flat_list.specs.declared.errors.CacheError.TheVariants as error;

    ghost from_gives = { λ _ e. e ≡ error.OutOfMemory };

    fn from(_: E) -> Self {
        CacheError::OutOfMemory
    }
}
