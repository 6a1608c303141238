//! The result of a run.
use path_text::Path;
use ring_core::Event;

/// How many strings a rank handled, gave to others and took from others. A count stops at the greatest value of its type.
#[derive(Clone, Copy, Debug, Drop, PartialEq, Eq)]
pub struct Share {
    /// The strings that it handled.
    pub handled: u64,
    /// The strings that it gave.
    pub given: u128,
    /// The strings that it took.
    pub taken: u128,
}

/// The result of a run, in each list by rank.
#[derive(Drop)]
pub struct Finished<J> {
    /// The jobs, with their logs.
    pub jobs: Vec<J>,
    /// The strings that wait, oldest first.
    pub left: Vec<Vec<Path>>,
    /// The counts of each rank.
    pub shares: Vec<Share>,
    /// The events of the run, in order, if the options have a trace. Not by rank.
    pub events: Vec<Event>,
    /// The numbers of progress: how many strings had been handled at some moments, and at last how many in all. Not by rank.
    pub sums: Vec<u64>,
}
