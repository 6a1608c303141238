//! The work of dwalk and dfind.
ghost use Rattle.std.specs.Prelude.{◌≡◌};
ghost use Rattle.list_report.specs.Prelude.{[], IfOk, IfErr, RoseBy, nothing_lent, CommonWithin, side_of};
ghost use Rattle.list_report.specs.Lists.{list_asked, ReportsList, StopsList, LeavesList};

use crate::printing::list_report;
use crate::task::ListTask;
use outside::Ground;
use run_entries::{find, save_list};
use run_report::{Report, Stop};
use std::alloc::Global;
use std::sync::Wait;
use std::thread::Threads;

/// Finds the entries, saves them if asked, and makes the texts. `now` is in seconds since 1970.
pub fn report_of_list<T: Threads + Wait + Sync, G: Ground<Reader: Send>>(
    rt: &T,
    alloc: Global,
    task: ListTask,
    files: &mut G,
    now: u64,
) -> Result<Report, Stop>
    requires lent { G.area files.old ≡ nothing_lent }
    requires within { CommonWithin task.common }
    ensures reports { IfOk result (ReportsList (list_asked task) now (side_of G.Plot files.old)
        (side_of G.Plot files.new)) }
    ensures stops { IfErr result (StopsList (list_asked task) (side_of G.Plot files.old)
        (side_of G.Plot files.new)) }
    ensures leaves { LeavesList (list_asked task) (G.tree files.old) (G.tree files.new) }
    ensures lent { G.area files.new ≡ nothing_lent }
    ensures count { RoseBy 0 (G.count files.old) (G.count files.new) }
{
    let ListTask {
        common,
        start,
        tests,
        sort,
        output,
    } = task;
    let found = find(rt, alloc, &common, start, tests, now, files)?;
    save_list(alloc, files, output, &found.chosen)?;
    Ok(list_report(rt, alloc, found, &common, sort)?)
}
