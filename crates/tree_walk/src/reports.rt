//! The report of a walk.
use circle_run::Share;
use flat_list::FlatList;
use path_text::Path;
use ring_core::Event;

/// A walk that was cut: the entries that it had done, and the paths that it left.
#[derive(Drop)]
pub struct Cut {
    /// The entries that were done, in path order.
    pub done: FlatList,
    /// The paths that wait, by rank, oldest first. None is equal to or under another, so that a walk can go on from them.
    pub left: Vec<Vec<Path>>,
}

/// How much was walked.
#[derive(Drop)]
pub enum Walked {
    /// All paths at and under the starts.
    Whole,
    /// A part, if the options have a stop.
    Cut(Cut),
}

/// The report of a walk.
#[derive(Drop)]
pub struct WalkReport {
    /// The entries of a whole walk, in path order; of a walk that was cut, none.
    pub list: FlatList,
    /// How much was walked.
    pub walked: Walked,
    /// The share of each rank, by rank: how many paths it handled, gave and took.
    pub shares: Vec<Share>,
    /// The events of the ranks, in order, if the options have a trace; else none.
    pub events: Vec<Event>,
    /// The numbers of progress: how many entries the ranks had found. Each but the last is at least 1,000 above the one before
    /// it, and the last is the number of entries.
    pub sums: Vec<u64>,
}
