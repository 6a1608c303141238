//! Laws of checkpoints, each the contract of a function that only recalls other laws.
ghost use Rattle.checkpoints.specs.Laws.{CheckpointsAreOne, FineReadsStopForMemory, FineWritesStopForMemory};

use circle_lists::{damage_is_exact, reading_undoes_saving};
use flat_list::refusals_are_exact;
use run_entries::fine_places_stop_for_memory;

/// The files of a directory hold one checkpoint: the one that is read was written.
pub fn checkpoints_are_one()
    ensures { CheckpointsAreOne }
{
    flat_list::spelling_is_unique();
    reading_undoes_saving();
}

/// The reading of a checkpoint that exists and is placed stops only if it is out of memory, if no fault is counted.
pub fn fine_reads_stop_for_memory()
    ensures { FineReadsStopForMemory }
{
    refusals_are_exact();
    flat_list::spelling_is_unique();
    damage_is_exact();
    circle_lists::spelling_is_unique();
    reading_undoes_saving();
}

/// The writing of a checkpoint whose files each have a place stops only if it is out of memory, if no fault is counted.
pub fn fine_writes_stop_for_memory()
    ensures { FineWritesStopForMemory }
{
    fine_places_stop_for_memory();
}
