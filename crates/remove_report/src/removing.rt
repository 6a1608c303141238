//! The work of drm.
ghost use Rattle.std.specs.Prelude.{◌≡◌};
ghost use Rattle.remove_report.specs.Prelude.{IfOk, IfErr, RoseBy, nothing_lent, side_of, WithinRemove};
ghost use Rattle.remove_report.specs.Removing.{remove_asked, ReportsRemove, StopsRemove, LeavesRemove};

use crate::acting::remove_and_tell;
use crate::choosing::find_lower;
use crate::task::RemoveTask;
use outside::Ground;
use run_entries::Findings;
use run_report::{Report, Stop};
use std::alloc::Global;
use std::sync::Wait;
use std::thread::Threads;

/// Finds the entries, removes them unless it is a dry run, and makes the texts. `now` is in seconds since 1970.
pub fn report_of_remove<T: Threads + Wait + Sync, G: Ground<Reader: Send, Part: Send>>(
    rt: &T,
    alloc: Global,
    task: RemoveTask,
    files: &mut G,
    now: u64,
) -> Result<Report, Stop>
    requires lent { G.area files.old ≡ nothing_lent }
    requires within { WithinRemove (remove_asked task) }
    ensures reports { IfOk result (ReportsRemove (remove_asked task) now (side_of G.Plot files.old)
        (side_of G.Plot files.new)) }
    ensures stops { IfErr result (StopsRemove (remove_asked task) (side_of G.Plot files.old)
        (side_of G.Plot files.new)) }
    ensures leaves { LeavesRemove (remove_asked task) now (side_of G.Plot files.old) (side_of G.Plot files.new) }
    ensures lent { G.area files.new ≡ nothing_lent }
    ensures count { RoseBy 0 (G.count files.old) (G.count files.new) }
{
    let RemoveTask {
        common,
        roots,
        tests,
        dryrun,
    } = task;
    let found = find_lower(rt, alloc, &common, roots, tests, now, files)?;
    let Findings { chosen, notes, .. } = found;
    let report = remove_and_tell(rt, alloc, dryrun, &common, &chosen, notes, files)?;
    Ok(report)
}
