//! Laws of walks that were cut, and of sorts, each the contract of a function that does nothing.
ghost use Rattle.cut_laws.specs.Local.{CutsAreLocal, WalksAreLocal, RestartIsWalkInEach};
ghost use Rattle.cut_laws.specs.Local.{FineWalksAreOne, RestartFindsTheWalk};
ghost use Rattle.cut_laws.specs.Sorts.{SortsAreUnique};

/// A cut of a walk is a cut in each tree that is the same at and under the starts.
pub fn cuts_are_local()
    ensures { CutsAreLocal }
{}

/// A walk of some starts is a walk in each tree that is the same at and under them.
pub fn walks_are_local()
    ensures { WalksAreLocal }
{}

/// The done entries of a cut in one tree and a walk of its left strings in another are together a walk of the starts. They are
/// so in each tree that is the same at and under the starts, with the failed answers that both tell.
pub fn restart_is_walk_in_each()
    ensures { RestartIsWalkInEach }
{}

/// If no answer failed, a walk of starts that are apart finds one list.
pub fn fine_walks_are_one()
    ensures { FineWalksAreOne }
{}

/// A restart finds the same list as the walk that was not cut, over trees that are the same at and under the starts, if no
/// answer failed.
pub fn restart_finds_the_walk()
    ensures { RestartFindsTheWalk }
{}

/// The entries of a list, each path once, have one order by a field: if two tie, the path decides.
pub fn sorts_are_unique()
    ensures { SortsAreUnique }
{}
