//! The answers of a board's calls.
use rank_queue::Batch;
use ring_core::Colour;

/// The state of a request.
#[derive(Drop)]
pub enum Answer {
    /// It is not answered yet.
    Pending,
    /// The rank got no strings.
    Nothing,
    /// The strings that the asked rank gave.
    Work(Batch),
}

/// Where the token is, as a rank sees it.
#[derive(Clone, Copy, Debug, Drop, PartialEq, Eq)]
pub enum Ring {
    /// At another rank.
    Elsewhere,
    /// At this rank, with this colour.
    Here(Colour),
    /// The run has ended: all is over.
    Over,
    /// All are to halt.
    Halted,
}

/// The answer to the gathering of all seats.
#[derive(Clone, Copy, Debug, Drop, PartialEq, Eq)]
pub struct Gathered {
    /// Whether rank 0 saw the end.
    pub over: bool,
}

/// A step on a word of a board: the number of the word, its value before the step, and its value after it.
#[derive(Clone, Copy, Debug, Drop, PartialEq, Eq)]
pub struct Reading {
    pub word: u64,
    pub found: u64,
    pub left: u64,
}
