//! Items, the order of their levels, and their fates.
use flat_list::Entry;
use path_text::Path;

/// In which order the levels are taken.
#[derive(Clone, Copy, Debug, Drop, PartialEq, Eq)]
pub enum Order {
    /// A path before all that is under it.
    TopDown,
    /// A path after all that is under it.
    BottomUp,
}

/// The outcome of an item. Each act says by its relation what its fates mean. No act gives `ParentFailed`.
#[derive(Clone, Copy, Debug, Drop, PartialEq, Eq)]
pub enum Fate {
    /// The act did it.
    Done,
    /// A call to the outside failed, and the outside counted it.
    Failed,
    /// The node at the path is in the way.
    Conflict,
    /// The act does nothing at an item like this.
    Skipped,
    /// The item above it did not come to `Done`, and this one was not touched.
    ParentFailed,
    /// The node at the path differs from its entry.
    Changed,
    /// The directory has a child.
    NotEmpty,
    /// A path would be too long.
    TooLong,
}

/// A path at which an actor acts, with an entry for the act. The entry may be of another path.
#[derive(Debug, Drop)]
pub struct Item {
    /// The path at which an actor acts.
    pub path: Path,
    /// The entry that the act gets.
    pub entry: Entry,
}
