//! The work of ddup.
ghost use Rattle.std.specs.Prelude.{◌≡◌};
ghost use Rattle.dup_report.specs.Prelude.{IfOk, IfErr, RoseBy, side_of, WithinDup};
ghost use Rattle.dup_report.specs.Grouping.{dup_asked, ReportsDup, StopsDup, LeavesDup};

use crate::finding::{group_listed, walk_listed};
use crate::naming::failures;
use crate::printing::dup_report;
use outside::Ground;
use path_text::Path;
use run_report::{Report, Stop};
use std::alloc::Global;
use std::sync::Wait;
use std::thread::Threads;
use tool_words::Common;

/// The task of ddup.
#[derive(Debug, Drop)]
pub struct DupTask {
    /// The settings of the walk, and the number of hosts that read files.
    pub common: Common,
    /// Where the walk starts.
    pub roots: Vec<Path>,
}

/// Walks the paths, groups the files with equal contents, and makes the texts. Nothing is changed.
pub fn report_of_dup<T: Threads + Wait + Sync, G: Ground>(
    rt: &T,
    alloc: Global,
    task: DupTask,
    files: &mut G,
) -> Result<Report, Stop>
where
    G::Reader: Send,
    requires within { WithinDup (dup_asked task) }
    ensures reports { IfOk result (ReportsDup (dup_asked task) (side_of G.Plot files.old)
        (side_of G.Plot files.new)) }
    ensures stops { IfErr result (StopsDup (dup_asked task) (side_of G.Plot files.old) (side_of G.Plot files.new)) }
    ensures leaves { LeavesDup (G.tree files.old) (G.tree files.new) }
    ensures area { G.area files.new ≡ G.area files.old }
    ensures count { RoseBy 0 (G.count files.old) (G.count files.new) }
{
    let DupTask { common, roots } = task;
    let list = walk_listed(rt, alloc, &common, roots, files)?;
    let found = group_listed(rt, alloc, common.hosts, &list, files)?;
    let notes = failures(alloc, &list, &found)?;
    let report = dup_report(alloc, &found, &notes)?;
    Ok(report)
}
