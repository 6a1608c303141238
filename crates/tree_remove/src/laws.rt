//! A law of removals, the contract of a function that does nothing.
ghost use Rattle.tree_remove.specs.Laws.{WholeChoicesGo};

/// All chosen paths are gone if all nodes under them are chosen too and nothing else prevents a removal.
pub fn whole_choices_go()
    ensures { WholeChoicesGo }
{}
