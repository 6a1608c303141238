//! Laws, each the contract of a function with an empty body.
ghost use Rattle.copy_report.specs.Laws.{FineCopySucceeds};

use run_entries::{
    done_names_nothing, fine_walks_are_whole, fine_walks_name_nothing, fine_walks_stop_for_memory,
    still_counts,
};
use tool_text::nothing_to_order;
use tree_copy::{fine_entries_are_copied, targets_are_long};
use tree_walk::entries_are_told;

/// If nothing is in the way of dcp, it has no notes, and stops only if it is out of memory.
pub fn fine_copy_succeeds()
    ensures { FineCopySucceeds }
{
    done_names_nothing();
    entries_are_told();
    fine_entries_are_copied();
    fine_walks_are_whole();
    fine_walks_name_nothing();
    fine_walks_stop_for_memory();
    nothing_to_order();
    still_counts();
    targets_are_long();
}
