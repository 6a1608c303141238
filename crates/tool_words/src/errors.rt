//! Why words are refused.
use path_text::NoMemory;
use thiserror::Error;

/// Why a word is refused.
#[derive(Clone, Copy, Debug, Drop, PartialEq, Eq)]
pub enum Cause {
    /// There is no word.
    NoTool,
    /// The first word names no tool.
    UnknownTool,
    /// The tool has no such option.
    UnknownOption,
    /// The option needs a value, and is the last word.
    NoValue,
    /// The word, or its part after `=`, is not a value of the option, or not a path or number of nodes.
    BadValue,
    /// A path, or the number of nodes, is missing after the last word.
    NoPath,
    /// The word is one path, or number of nodes, too many.
    TooManyPaths,
    /// The option was given before, or cannot be combined with others.
    Clash,
}

/// The refusal of a word.
#[derive(Clone, Copy, Debug, Drop, PartialEq, Eq)]
pub struct Refusal {
    /// The number of the word, the tool being word 0.
    pub word: usize,
    /// Why it is refused. Of several causes at one word it is the first in their order.
    pub cause: Cause,
}

/// Why there is no command: a word was refused, as in [`Refusal`], or no memory was found.
#[derive(Clone, Copy, Debug, Drop, PartialEq, Eq, Error)]
pub enum WordsError {
    /// There is no word.
    #[error("refused word {0} no tool")]
    NoTool(usize),
    /// The first word names no tool.
    #[error("refused word {0} unknown tool")]
    UnknownTool(usize),
    /// The tool has no such option.
    #[error("refused word {0} unknown option")]
    UnknownOption(usize),
    /// The option needs a value, and is the last word.
    #[error("refused word {0} no value")]
    NoValue(usize),
    /// The word, or its part after `=`, is not a value of the option, or not a path or number of nodes.
    #[error("refused word {0} bad value")]
    BadValue(usize),
    /// A path, or the number of nodes, is missing after the last word.
    #[error("refused word {0} no path")]
    NoPath(usize),
    /// The word is one path, or number of nodes, too many.
    #[error("refused word {0} too many paths")]
    TooManyPaths(usize),
    /// The option was given before, or cannot be combined with others.
    #[error("refused word {0} clash")]
    Clash(usize),
    /// No memory was found.
    #[error("out of memory")]
    OutOfMemory,
}

impl WordsError {
    ghost use Rattle.std.specs.Prelude.{◌≡◌};
    ghost use Rattle.tool_words.specs.Refusals.{refusal_in};

    /// The refusal, or none if no memory was found.
    pub fn refusal(self) -> Option<Refusal>
        ensures { result ≡ refusal_in self }
    {
        let (word, cause) = match self {
            WordsError::NoTool(word) => (word, Cause::NoTool),
            WordsError::UnknownTool(word) => (word, Cause::UnknownTool),
            WordsError::UnknownOption(word) => (word, Cause::UnknownOption),
            WordsError::NoValue(word) => (word, Cause::NoValue),
            WordsError::BadValue(word) => (word, Cause::BadValue),
            WordsError::NoPath(word) => (word, Cause::NoPath),
            WordsError::TooManyPaths(word) => (word, Cause::TooManyPaths),
            WordsError::Clash(word) => (word, Cause::Clash),
            WordsError::OutOfMemory => return None,
        };
        Some(Refusal { word, cause })
    }
}

impl<E: NoMemory> From<E> for WordsError {
    ghost use Rattle.std.specs.Prelude.{◌≡◌};
    ghost use Rattle.tool_words.specs.declared.errors.WordsError.TheVariants as error;

    ghost from_gives = { λ _ e. e ≡ error.OutOfMemory };

    fn from(_: E) -> Self {
        WordsError::OutOfMemory
    }
}
