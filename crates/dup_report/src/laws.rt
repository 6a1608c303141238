//! Laws, each the contract of a function with an empty body.
ghost use Rattle.dup_report.specs.Laws.{FineDupSucceeds};

use run_entries::{fine_walks_name_nothing, fine_walks_stop_for_memory, still_counts};
use tool_text::nothing_to_order;

/// If nothing is in the way of ddup, it has no notes, and stops only if it is out of memory.
pub fn fine_dup_succeeds()
    ensures { FineDupSucceeds }
{
    fine_walks_name_nothing();
    fine_walks_stop_for_memory();
    nothing_to_order();
    still_counts();
}
