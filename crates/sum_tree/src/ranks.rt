//! The count and word of one rank, and a step on its word.

/// The count of a rank and its word.
#[derive(Clone, Copy, Debug, Drop, PartialEq, Eq)]
pub struct RankSum {
    /// The rank's own count.
    pub count: u64,
    /// The number in its word: the sum of the rank and all below it, as far as the rank knew it at the last writing.
    pub word: u64,
    /// Whether that number is the final sum.
    pub is_final: bool,
}

/// A step that a seat made on the word of a rank. A word is twice a number, and one more if that is final.
#[derive(Clone, Copy, Debug, Drop, PartialEq, Eq)]
pub struct Reading {
    /// The rank's number.
    pub word: u64,
    /// The word before the step.
    pub found: u64,
    /// The word after the step.
    pub left: u64,
}
