//! The work of dsync.
ghost use Rattle.std.specs.Prelude.{◌≡◌};
ghost use Rattle.sync_report.specs.Prelude.{[], IfOk, IfErr, RoseBy, nothing_lent, side_of, WithinSync};
ghost use Rattle.sync_report.specs.Syncing.{sync_asked, ReportsSync, StopsSync, LeavesSync};

use crate::acting::sync_sides;
use crate::naming::failures;
use crate::placing::place_pair;
use crate::printing::{failed_report, sync_report};
use crate::task::SyncTask;
use crate::walking::walk_pair;
use outside::Ground;
use run_report::{Report, Stop};
use std::alloc::Global;
use std::sync::Wait;
use std::thread::Threads;
use tree_copy::{Pair, PlaceError};

/// Tests whether there is a place for the destination, walks both sides, makes them equal, and makes the texts.
pub fn report_of_sync<T: Threads + Wait + Sync, G: Ground>(
    rt: &T,
    alloc: Global,
    task: SyncTask,
    files: &mut G,
) -> Result<Report, Stop>
where
    G::Reader: Send,
    G::Part: Send,
    requires lent { G.area files.old ≡ nothing_lent }
    requires within { WithinSync (sync_asked task) }
    ensures reports { IfOk result (ReportsSync (sync_asked task) (side_of G.Plot files.old)
        (side_of G.Plot files.new)) }
    ensures stops { IfErr result (StopsSync (sync_asked task) (side_of G.Plot files.old)
        (side_of G.Plot files.new)) }
    ensures leaves { LeavesSync (sync_asked task) (G.tree files.old) (G.tree files.new) }
    ensures lent { G.area files.new ≡ nothing_lent }
    ensures count { RoseBy 0 (G.count files.old) (G.count files.new) }
{
    let pair = Pair {
        source: task.source,
        target: task.dest,
    };
    match place_pair(alloc, &pair, files) {
        Ok(()) => {}
        Err(PlaceError::Failed(path)) => return Ok(failed_report(alloc, path)?),
        Err(PlaceError::Overlap) => return Err(Stop::Overlap),
        Err(PlaceError::NoDest) => return Err(Stop::NoDirectory),
        Err(PlaceError::OutOfMemory) => return Err(Stop::OutOfMemory),
    }
    let sides = walk_pair(rt, alloc, &task.common, &pair, files)?;
    let synced = sync_sides(rt, alloc, &task.common, &pair, &sides, task.delete, files)?;
    let notes = failures(alloc, &pair, &sides, &synced)?;
    let report = sync_report(alloc, &synced, &notes)?;
    Ok(report)
}
