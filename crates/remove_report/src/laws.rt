//! Laws, each the contract of a function with an empty body.
ghost use Rattle.remove_report.specs.Laws.{FineRemoveSucceeds};

use run_entries::{
    done_names_nothing, fine_finds_name_nothing, fine_finds_stop_for_memory,
    fine_walks_name_nothing, still_counts,
};
use tool_text::nothing_to_order;
use tree_remove::whole_choices_go;
use tree_walk::entries_are_told;

/// If nothing is in the way of drm, it has no notes, and stops only if it is out of memory.
pub fn fine_remove_succeeds()
    ensures { FineRemoveSucceeds }
{
    done_names_nothing();
    entries_are_told();
    fine_finds_name_nothing();
    fine_finds_stop_for_memory();
    fine_walks_name_nothing();
    nothing_to_order();
    still_counts();
    whole_choices_go();
}
