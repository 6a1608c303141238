//! The outcome of the copy of a range.

/// The outcome of the copy of a range.
#[derive(Clone, Copy, Debug, Drop, PartialEq, Eq)]
pub(crate) enum Filled {
    // The span has the bytes.
    Done,
    // A call to the outside failed, and the reader or the span has counted it.
    Failed,
    // The file ended before the range did, or is not a file.
    Changed,
    // Out of memory.
    Lost,
}
