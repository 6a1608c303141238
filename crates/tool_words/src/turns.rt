//! How the next word is read.
use crate::tables::OptionName;

/// How the next word is read.
#[derive(Clone, Copy, Debug, Drop, PartialEq, Eq)]
pub(crate) enum Turn {
    /// An option, `--` or a plain word.
    Any,
    /// The value of this option, whose word has this number.
    Value(OptionName, usize),
    /// A plain word, since it follows `--`.
    Plain,
}
