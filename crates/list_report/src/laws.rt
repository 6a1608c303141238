//! Laws, each the contract of a function with an empty body.
ghost use Rattle.list_report.specs.Laws.{FineListSucceeds, FineTestSucceeds, MadeWalkIsFine};

use run_entries::{
    fine_finds_name_nothing, fine_finds_stop_for_memory, fine_places_stop_for_memory,
};
use test_tree::{first_node_is_there, no_child_is_far, nodes_are_counted, test_files_are_tree};
use tree_walk::{walk_ascends, walk_finds_all};

/// If nothing is in the way of dwalk or dfind, it has no notes, and stops only if it is out of memory.
pub fn fine_list_succeeds()
    ensures { FineListSucceeds }
{
    fine_finds_name_nothing();
    fine_finds_stop_for_memory();
    fine_places_stop_for_memory();
}

/// So does dtest.
pub fn fine_test_succeeds()
    ensures { FineTestSucceeds }
{
    made_walk_is_fine();
    fine_finds_name_nothing();
}

/// If nothing fails, a walk of a made-up tree finds its root and no child with too long a path. It finds no more entries than a
/// list may have.
pub(crate) fn made_walk_is_fine()
    ensures { MadeWalkIsFine }
{
    walk_ascends();
    walk_finds_all();
    first_node_is_there();
    test_files_are_tree();
    no_child_is_far();
    nodes_are_counted();
}
