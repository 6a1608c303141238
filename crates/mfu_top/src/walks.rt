//! The command of dwalk: a list, or a stage of a walk.
ghost use Rattle.std.specs.Prelude.{◌≡◌};
ghost use Rattle.mfu_top.specs.Prelude.{[], IfOk, IfErr, None, RoseBy, nothing_lent, side_of, asked_by, Within};
ghost use Rattle.mfu_top.specs.Run.{Reports, Stops, Leaves};
ghost use Rattle.mfu_top.specs.Walks.{asked_of};

use flat_list::Field;
use list_report::{ListTask, report_of_list};
use outside::Ground;
use path_text::Path;
use run_report::{Report, Stop};
use stage_report::{StageTask, report_of_stage};
use std::alloc::Global;
use std::sync::Wait;
use std::thread::Threads;
use tool_words::{Command, Common, Start};

/// The work of a dwalk.
#[derive(Drop)]
pub(crate) enum WalkTask {
    /// A list, of a walk or of a list file.
    List(ListTask),
    /// A walk that may stop, or that continues.
    Stage(StageTask),
}

/// The work for this start, these outputs, this stop and this directory of a checkpoint.
pub(crate) fn walk_task(
    common: Common,
    start: Start,
    sort: Option<(Field, bool)>,
    output: Option<Path>,
    stop_after: Option<u64>,
    lists: Option<Path>,
) -> WalkTask
    ensures { asked_of result ≡ asked_by (Command.Walk common start sort output stop_after lists) }
{
    let Some(lists) = lists else {
        return whole(common, start, sort, output);
    };
    let starts = match start {
        Start::Restart => None,
        Start::Input(path) => return whole(common, Start::Input(path), sort, output),
        Start::Roots(paths) => match stop_after {
            Some(_) => Some(paths),
            None => return whole(common, Start::Roots(paths), sort, output),
        },
    };
    WalkTask::Stage(StageTask {
        common,
        starts,
        stop_after,
        lists,
        sort,
        output,
    })
}

// All of a list.
fn whole(
    common: Common,
    start: Start,
    sort: Option<(Field, bool)>,
    output: Option<Path>,
) -> WalkTask
    ensures { asked_of result ≡ asked_by (Command.Walk common start sort output None None) }
{
    WalkTask::List(ListTask {
        common,
        start,
        tests: None,
        sort,
        output,
    })
}

/// Does it, and makes the texts.
pub(crate) fn report_of_walk<T: Threads + Wait + Sync, G: Ground>(
    rt: &T,
    alloc: Global,
    task: WalkTask,
    files: &mut G,
    now: u64,
) -> Result<Report, Stop>
where
    G::Reader: Send,
    requires lent { G.area files.old ≡ nothing_lent }
    requires within { Within (asked_of task) }
    ensures reports { IfOk result (Reports (asked_of task) now (side_of G.Plot files.old)
        (side_of G.Plot files.new)) }
    ensures stops { IfErr result (Stops (asked_of task) (side_of G.Plot files.old) (side_of G.Plot files.new)) }
    ensures leaves { Leaves (asked_of task) now (side_of G.Plot files.old) (side_of G.Plot files.new) }
    ensures lent { G.area files.new ≡ nothing_lent }
    ensures count { RoseBy 0 (G.count files.old) (G.count files.new) }
{
    match task {
        WalkTask::List(task) => report_of_list(rt, alloc, task, files, now),
        WalkTask::Stage(task) => report_of_stage(rt, alloc, task, files),
    }
}
