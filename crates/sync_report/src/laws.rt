//! Laws, each the contract of a function with an empty body.
ghost use Rattle.sync_report.specs.Laws.{FineSyncSucceeds};

use outside::{nodes_are_under_directories, nodes_have_paths};
use run_entries::{
    done_names_nothing, fine_walks_name_nothing, fine_walks_stop_for_memory, still_counts,
};
use tool_text::nothing_to_order;
use tree_copy::{fine_entries_are_copied, targets_are_long};
use tree_remove::whole_choices_go;
use tree_walk::{
    entries_are_told, roots_are_unique, walk_ascends, walk_is_recursive, walk_lists_all,
};

/// If nothing is in the way of dsync, it has no notes, and stops only if it is out of memory.
pub fn fine_sync_succeeds()
    ensures { FineSyncSucceeds }
{
    done_names_nothing();
    entries_are_told();
    fine_entries_are_copied();
    fine_walks_name_nothing();
    fine_walks_stop_for_memory();
    nodes_are_under_directories();
    nodes_have_paths();
    nothing_to_order();
    roots_are_unique();
    still_counts();
    targets_are_long();
    walk_ascends();
    walk_is_recursive();
    walk_lists_all();
    whole_choices_go();
}
