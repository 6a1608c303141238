//! The work of dcp.
ghost use Rattle.std.specs.Prelude.{◌≡◌};
ghost use Rattle.copy_report.specs.Prelude.{[], Ok, IfOk, IfErr, RoseBy, nothing_lent, side_of, WithinCopy};
ghost use Rattle.copy_report.specs.Copying.{copy_asked, ReportsCopy, StopsCopy, LeavesCopy};

use crate::acting::copy_and_tell;
use crate::placing::place_targets;
use crate::printing::failed_report;
use crate::task::CopyTask;
use crate::walking::walk_sources;
use outside::Wide;
use run_report::{Report, Stop};
use std::alloc::Global;
use std::sync::Wait;
use std::thread::Threads;
use tree_copy::PlaceError;

/// Places the targets, walks the sources, copies the entries to their targets, and makes the texts.
pub fn report_of_copy<T: Threads + Wait + Sync, G: Wide<Reader: Send, Part: Send, Span: Send>>(
    rt: &T,
    alloc: Global,
    task: CopyTask,
    files: &mut G,
) -> Result<Report, Stop>
    requires lent { G.area files.old ≡ nothing_lent }
    requires within { WithinCopy (copy_asked task) }
    ensures reports { IfOk result (ReportsCopy (copy_asked task) (side_of G.Plot files.old)
        (side_of G.Plot files.new)) }
    ensures stops { IfErr result (StopsCopy (copy_asked task) (side_of G.Plot files.old)
        (side_of G.Plot files.new)) }
    ensures leaves { LeavesCopy (copy_asked task) (side_of G.Plot files.old) (side_of G.Plot files.new) }
    ensures lent { G.area files.new ≡ nothing_lent }
    ensures count { RoseBy 0 (G.count files.old) (G.count files.new) }
{
    let CopyTask {
        common,
        sources,
        dest,
        range,
    } = task;
    let pairs = match place_targets(alloc, &sources, &dest, files) {
        Ok(pairs) => pairs,
        Err(PlaceError::Failed(path)) => return Ok(failed_report(alloc, path)?),
        Err(PlaceError::Overlap) => return Err(Stop::Overlap),
        Err(PlaceError::NoDest) => return Err(Stop::NoDirectory),
        Err(PlaceError::OutOfMemory) => return Err(Stop::OutOfMemory),
    };
    let list = walk_sources(rt, alloc, &common, sources, &pairs, files)?;
    let report = copy_and_tell(rt, alloc, &common, range, &list, &pairs, files)?;
    Ok(report)
}
