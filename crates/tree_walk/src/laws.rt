//! Laws of the recursive walk and of roots, each the contract of a function that does nothing.
ghost use Rattle.tree_walk.specs.Cut.{RestartIsWalk, CutGoesOn, LeftIsApart};
ghost use Rattle.tree_walk.specs.Roots.{RootsAreUnique};
ghost use Rattle.tree_walk.specs.Told.{EntriesAreTold, EntriesHaveParents, ParentsAreListed};
ghost use Rattle.tree_walk.specs.Walk.{WalkIsRecursive, WalkAscends, WalkHasEachPathOnce, WalkFindsAll, WalkListsAll, WalkWithoutFaultsIsFine};

/// The walk of a path is its entry, and then the walk of each child, names in byte order.
pub fn walk_is_recursive()
    ensures { WalkIsRecursive }
{}

/// The paths of a walk ascend strictly in path order.
pub fn walk_ascends()
    ensures { WalkAscends }
{}

/// Each path stands in a walk at most once.
pub fn walk_has_each_path_once()
    ensures { WalkHasEachPathOnce }
{}

/// If no answer fails and the root is there, every path of the walk is found.
pub fn walk_finds_all()
    ensures { WalkFindsAll }
{}

/// The walk leaves out only nodes behind a failed answer. If the files answered for every path on the way from the root to a
/// node, the node has an entry.
pub fn walk_lists_all()
    ensures { WalkListsAll }
{}

/// If the entries of several roots have no failed answer, they are those of the walk in which no answer fails, and each is
/// fine.
pub fn walk_without_faults_is_fine()
    ensures { WalkWithoutFaultsIsFine }
{}

/// Each entry of a walk tells the truth of the tree. An entry with a stat has the stat of the node at its path. The tree has
/// the path of an entry that is fine or was not listed. It does not have the path of one that is gone. Each fine link has its
/// text, and no other entry has one.
pub fn entries_are_told()
    ensures { EntriesAreTold }
{}

/// In the walks of roots that are apart, an entry's parent that has an entry too is a directory that was listed.
pub fn parents_are_listed()
    ensures { ParentsAreListed }
{}

/// In the walks of several roots each entry is that of a root, or its directory has an entry too.
pub fn entries_have_parents()
    ensures { EntriesHaveParents }
{}

/// The roots of given paths are unique: two lists that are roots of the same valid paths are the same.
pub fn roots_are_unique()
    ensures { RootsAreUnique }
{}

/// A restart goes on. The done entries of a cut and a walk of its left strings are together, in path order, a walk of its
/// starts.
pub fn restart_is_walk()
    ensures { RestartIsWalk }
{}

/// A walk of the left strings of a cut may be cut again. The done entries of both, with the strings that are left at last, are
/// a cut of the first starts.
pub fn cut_goes_on()
    ensures { CutGoesOn }
{}

/// No left string of a cut is equal to or under another, so that a walk can start from them. No done path is equal to or under
/// a left string.
pub fn left_is_apart()
    ensures { LeftIsApart }
{}
