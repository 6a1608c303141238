//! The options of a run.

/// How many strings an asked rank gives.
#[derive(Clone, Copy, Debug, Drop, PartialEq, Eq)]
pub enum Split {
    /// The same part of the queue to each that asks.
    Equal,
    /// A random amount to each that asks.
    Random,
}

/// The options of a run.
#[derive(Clone, Copy, Debug, Drop, PartialEq, Eq)]
pub struct Options {
    /// How many ranks work, each with a queue and a job of its own.
    pub ranks: u32,
    /// How many threads the ranks are spread over.
    pub hosts: u32,
    /// How many strings a rank gives to those that ask.
    pub split: Split,
    /// The seed of all random choices.
    pub seed: u64,
    /// How many ranks report their counts to one.
    pub width: u32,
    /// Whether the events of the run are kept.
    pub trace: bool,
    /// How many strings a rank handles at most. Once one has handled as many, it and all others stop. `None`: all are handled.
    pub stop_after: Option<u64>,
}
