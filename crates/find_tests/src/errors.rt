//! Why a value of a test is refused.
use path_text::NoMemory;
use thiserror::Error;

/// Why a text is not a value of a test.
#[derive(Clone, Copy, Debug, Drop, PartialEq, Eq, Error)]
pub enum TestError {
    /// The number has no digit or more than 40 digits, or the bytes or the time that it gives are not below 2^64.
    #[error("the number is missing or too great")]
    BadNumber,
    /// The text after the digits is not a unit.
    #[error("there is no such unit")]
    BadUnit,
    /// There is no such kind.
    #[error("the kind is one of f, d, l and o")]
    BadKind,
    /// The call is out of memory.
    #[error("out of memory")]
    OutOfMemory,
}

impl<E: NoMemory> From<E> for TestError {
    ghost use Rattle.std.specs.Prelude.{◌≡◌};
    ghost use Rattle.find_tests.specs.declared.errors.TestError.TheVariants as error;

    ghost from_gives = { λ _ e. e ≡ error.OutOfMemory };

    fn from(_: E) -> Self {
        TestError::OutOfMemory
    }
}
