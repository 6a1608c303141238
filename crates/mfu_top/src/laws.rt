//! Laws, each the contract of a function with an empty body.
ghost use Rattle.mfu_top.specs.Run.{FineRunsSucceed};

use compare_report::fine_compare_succeeds;
use copy_report::fine_copy_succeeds;
use dup_report::fine_dup_succeeds;
use list_report::{fine_list_succeeds, fine_test_succeeds};
use remove_report::fine_remove_succeeds;
use stage_report::fine_stages_succeed;
use sync_report::fine_sync_succeeds;

/// If nothing is in the way of a run, it has no notes, and stops only for want of memory, or with a checkpoint if its words ask for it.
pub fn fine_runs_succeed()
    ensures { FineRunsSucceed }
{
    fine_list_succeeds();
    fine_stages_succeed();
    fine_compare_succeeds();
    fine_copy_succeeds();
    fine_sync_succeeds();
    fine_dup_succeeds();
    fine_remove_succeeds();
    fine_test_succeeds();
}
