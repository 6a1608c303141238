//! The outcome of the copy of a file.

// The outcome of the copy of a file by ranges.
#[derive(Clone, Copy, Debug, Drop, PartialEq, Eq)]
pub(crate) enum Came {
    // The target has the bytes of the source.
    Done,
    // A call to the outside failed, and the files have counted it.
    Failed,
    // The node at the target is in the way, and stays.
    Conflict,
    // The node there differs from its entry.
    Changed,
}
