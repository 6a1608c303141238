//! The work of a dwalk in stages.
ghost use Rattle.std.specs.Prelude.{◌≡◌};
ghost use Rattle.stage_report.specs.Prelude.{[], IfOk, IfErr, RoseBy, nothing_lent, CommonWithin, side_of, option_map, WithinStage};
ghost use Rattle.stage_report.specs.Stages.{stage_asked, ReportsStage, StopsStage, LeavesStage};
ghost use Rattle.stage_report.specs.Private.{list_in, IsWritable, Walks, WalksNot};

use crate::beginning::begin_stage;
use crate::keeping::keep;
use crate::task::StageTask;
use crate::walking::{Stage, walk_stage};
use list_report::list_report;
use outside::Ground;
use path_text::Path;
use run_entries::{Findings, save_list};
use run_report::{Report, Stop};
use std::alloc::Global;
use std::sync::Wait;
use std::thread::Threads;
use tool_words::Common;

/// Walks. A whole list is saved, if asked, and printed. For a walk that is cut a checkpoint is
/// written in its place, and the reason to stop is [`Stop::Stopped`].
pub fn report_of_stage<T: Threads + Wait + Sync, G: Ground<Reader: Send>>(
    rt: &T,
    alloc: Global,
    task: StageTask,
    files: &mut G,
) -> Result<Report, Stop>
    requires lent { G.area files.old ≡ nothing_lent }
    requires within { WithinStage (stage_asked task) }
    ensures reports { IfOk result (ReportsStage (stage_asked task) (side_of G.Plot files.old)
        (side_of G.Plot files.new)) }
    ensures stops { IfErr result (StopsStage (stage_asked task) (side_of G.Plot files.old)
        (side_of G.Plot files.new)) }
    ensures leaves { LeavesStage (stage_asked task) (G.tree files.old) (G.tree files.new) }
    ensures lent { G.area files.new ≡ nothing_lent }
    ensures count { RoseBy 0 (G.count files.old) (G.count files.new) }
{
    let StageTask {
        common,
        starts,
        stop_after,
        lists,
        sort,
        output,
    } = task;
    let stage = begin_and_walk(rt, alloc, &common, starts, stop_after, &lists, files)?;
    match stage {
        Stage::Finished { list, account } => {
            let found = Findings::of_all(alloc, list, account)?;
            save_list(alloc, files, output, &found.chosen)?;
            Ok(list_report(rt, alloc, found, &common, sort)?)
        }
        Stage::Cut {
            handled,
            done,
            left,
        } => { Err(keep(alloc, files, &lists, handled, &done, &left)?) }
    }
}

// Begins, and walks from there.
fn begin_and_walk<T: Threads + Wait + Sync, G: Ground<Reader: Send>>(
    rt: &T,
    alloc: Global,
    common: &Common,
    starts: Option<Vec<Path>>,
    stop_after: Option<u64>,
    lists: &Path,
    files: &mut G,
) -> Result<Stage, Stop>
    requires within { CommonWithin common.now }
    ensures walks { IfOk result (Walks (option_map (λ paths. paths.items) starts) lists.now stop_after common.now
        (side_of G.Plot files.old) (side_of G.Plot files.new)) }
    ensures writable { IfOk result (λ stage. IsWritable (list_in stage)) }
    ensures stopped { IfErr result (WalksNot (option_map (λ paths. paths.items) starts) lists.now stop_after common.now
        (side_of G.Plot files.old) (side_of G.Plot files.new)) }
    ensures same { G.tree files.new ≡ G.tree files.old }
    ensures area { G.area files.new ≡ G.area files.old }
    ensures count { RoseBy 0 (G.count files.old) (G.count files.new) }
{
    let beginning = begin_stage(alloc, files, starts, lists)?;
    let stage = walk_stage(rt, alloc, common, stop_after, beginning, files)?;
    Ok(stage)
}
