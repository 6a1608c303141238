//! A look at a path, and its answer.
use path_text::Path;

/// The answer of a look at a path.
#[derive(Clone, Copy, Debug, Drop, PartialEq, Eq)]
pub enum Seen {
    /// A node is there. This is the time of its last modification, in seconds since 1970, if it has one.
    At(Option<u64>),
    /// No node is there.
    Absent,
    /// The look failed, and the files have counted the fault.
    Failed,
}

/// A path, and the answer of a look at it.
#[derive(Debug, Drop)]
pub struct Look {
    /// The path.
    pub path: Path,
    /// The answer of the look.
    pub seen: Seen,
}
