//! Laws of sources with their targets, each the contract of a function that does nothing.
ghost use Rattle.tree_copy.specs.Laws.{FineEntriesAreCopied, TargetsAreApart, TargetsAreLong};
ghost use Rattle.tree_copy.specs.Placing.{PlacedAreApart};

/// Of the pairs that [`place`](crate::place) answers, no source or target is within another. The targets are all in the
/// destination, or the only one is the destination.
pub fn placed_are_apart()
    ensures { PlacedAreApart }
{}

/// No target of such pairs is `/`.
pub fn targets_are_long()
    ensures { TargetsAreLong }
{}

/// Of pairs that are apart no path at or under a source is a target, and no two such paths have one target.
pub fn targets_are_apart()
    ensures { TargetsAreApart }
{}

/// If nothing prevents the copy of any entry, and none failed, all of them come to `Done`.
pub fn fine_entries_are_copied()
    ensures { FineEntriesAreCopied }
{}
