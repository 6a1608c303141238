//! Laws, each the contract of a function with an empty body.
ghost use Rattle.compare_report.specs.Laws.{FineCompareSucceeds};

use run_entries::{
    fine_places_stop_for_memory, fine_walks_name_nothing, fine_walks_stop_for_memory,
};
use tool_text::nothing_to_order;

/// If nothing is in the way of dcmp, it has no notes, and stops only if it is out of memory.
pub fn fine_compare_succeeds()
    ensures { FineCompareSucceeds }
{
    fine_walks_name_nothing();
    fine_walks_stop_for_memory();
    fine_places_stop_for_memory();
    nothing_to_order();
}
