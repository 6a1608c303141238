//! Laws, each the contract of a function with an empty body.
ghost use Rattle.run_entries.specs.Fine.{DoneNamesNothing, FineFindsNameNothing, FineFindsStopForMemory, FinePlacesStopForMemory};
ghost use Rattle.run_entries.specs.Fine.{FineWalksAreWhole, FineWalksNameNothing, FineWalksStopForMemory, StillCounts};

use flat_list::{refusals_are_exact, spelling_is_unique};
use path_looks::looks_without_faults_are_told;
use tool_text::nothing_to_order;
use tree_walk::{roots_are_unique, walk_without_faults_is_fine};

/// A run that finds entries in a fine side has no notes.
pub fn fine_finds_name_nothing()
    ensures { FineFindsNameNothing }
{
    walk_without_faults_is_fine();
    roots_are_unique();
    looks_without_faults_are_told();
    nothing_to_order();
    spelling_is_unique();
}

/// Only want of memory stops a run that finds entries in a fine side.
pub fn fine_finds_stop_for_memory()
    ensures { FineFindsStopForMemory }
{
    walk_without_faults_is_fine();
    roots_are_unique();
    refusals_are_exact();
}

/// A walk by itself in a fine side has no notes.
pub fn fine_walks_name_nothing()
    ensures { FineWalksNameNothing }
{
    walk_without_faults_is_fine();
    roots_are_unique();
}

/// A walk by itself in a fine side is the walk in which nothing fails.
pub fn fine_walks_are_whole()
    ensures { FineWalksAreWhole }
{
    walk_without_faults_is_fine();
    roots_are_unique();
}

/// Only want of memory stops a walk by itself in a fine side.
pub fn fine_walks_stop_for_memory()
    ensures { FineWalksStopForMemory }
{
    walk_without_faults_is_fine();
    roots_are_unique();
    refusals_are_exact();
}

/// Only want of memory stops a run that saves outputs, if each has a place and no fault is counted.
pub fn fine_places_stop_for_memory()
    ensures { FinePlacesStopForMemory }
{}

/// Paths whose copies or removals are done have no notes.
pub fn done_names_nothing()
    ensures { DoneNamesNothing }
{}

/// If a count did not rise, nothing failed, and it did not rise in any part.
pub fn still_counts()
    ensures { StillCounts }
{}
