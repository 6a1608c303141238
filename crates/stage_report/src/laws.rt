//! Laws, each the contract of a function that only recalls other laws.
ghost use Rattle.stage_report.specs.Laws.{CheckpointsAreCuts, FineStageSucceeds, StagesPrintTheWalk, StoppedStagesAreKept};

use checkpoints::{checkpoints_are_one, fine_reads_stop_for_memory, fine_writes_stop_for_memory};
use cut_laws::{cuts_are_local, restart_finds_the_walk, sorts_are_unique};
use run_entries::fine_places_stop_for_memory;
use tool_text::{nothing_to_order, order_is_unique};
use tree_walk::{cut_goes_on, roots_are_unique, walk_without_faults_is_fine};

/// A stage of a walk that stops leaves a cut of it.
pub fn checkpoints_are_cuts()
    ensures { CheckpointsAreCuts }
{
    checkpoints_are_one();
    cuts_are_local();
    cut_goes_on();
    roots_are_unique();
}

/// A stage that reports a stop wrote its checkpoint, and changed no other path: the file of `--output` is as before.
pub fn stopped_stages_are_kept()
    ensures { StoppedStagesAreKept }
{}

/// A stage that continues from a cut of a walk and ends prints the text of a dwalk without a stop, if no answer failed.
pub fn stages_print_the_walk()
    ensures { StagesPrintTheWalk }
{
    checkpoints_are_one();
    restart_finds_the_walk();
    roots_are_unique();
    sorts_are_unique();
    order_is_unique();
}

/// If nothing is in the way of a stage, it has no notes. It stops only if it is out of memory, or because it was asked to.
pub fn fine_stages_succeed()
    ensures { FineStageSucceeds }
{
    checkpoints_are_one();
    fine_reads_stop_for_memory();
    fine_writes_stop_for_memory();
    fine_places_stop_for_memory();
    roots_are_unique();
    walk_without_faults_is_fine();
    nothing_to_order();
}
