//! The walk of a stage.
ghost use Rattle.std.specs.Prelude.{◌≡◌, ◌≤◌};
ghost use Rattle.stage_report.specs.Prelude.{length, IfOk, IfErr, Some, IsStrictlySortedBy, path_cmp, RoseBy, max_entries, CommonWithin, Apart, paths_of};
ghost use Rattle.stage_report.specs.Prelude.{found_in};
ghost use Rattle.stage_report.specs.Private.{list_in, IsBeside, IsStage, IsStageOf, IsWritable, StopsWalk};

use crate::beginning::Beginning;
use crate::joining::joined;
use circle_run::Options;
use flat_list::FlatList;
use outside::Ground;
use path_text::{OutOfMemory, Path};
use run_entries::{Account, Entries, stop_of_walk, walk_roots};
use run_report::Stop;
use std::alloc::Global;
use std::sync::Wait;
use std::thread::Threads;
use tool_words::Common;
use tree_walk::{MAX_ENTRIES, WalkReport, Walked, walk};

/// The result of a stage.
#[derive(Drop)]
pub(crate) enum Stage {
    /// The whole list, and the work of the ranks in this stage.
    Finished {
        list: FlatList,
        account: Account,
    },
    /// The number of paths handled in this stage, all done entries, and the paths that each rank has left.
    Cut {
        handled: u64,
        done: FlatList,
        left: Vec<Vec<Path>>,
    },
}

/// Walks with as many ranks as asked, until each path is handled or one rank has handled as many as it may.
pub(crate) fn walk_stage<T: Threads + Wait + Sync, G: Ground<Reader: Send>>(
    rt: &T,
    alloc: Global,
    common: &Common,
    stop_after: Option<u64>,
    beginning: Beginning,
    files: &mut G,
) -> Result<Stage, Stop>
    requires within { CommonWithin common.now }
    requires apart { Apart beginning.starts.items }
    requires beside { IsBeside beginning.done beginning.starts.items }
    requires writable { IsWritable beginning.done }
    ensures stage { IfOk result (IsStage stop_after common.now (G.tree files.old) beginning.done beginning.starts.items
        (G.count files.old) (G.count files.new)) }
    ensures few { IfOk result (λ stage. length (list_in stage) ≤ max_entries) }
    ensures writable { IfOk result (λ stage. IsWritable (list_in stage)) }
    ensures stopped { IfErr result (StopsWalk stop_after common.now (G.tree files.old) beginning.done beginning.starts.items
        (G.count files.old) (G.count files.new)) }
    ensures same { G.tree files.new ≡ G.tree files.old }
    ensures area { G.area files.new ≡ G.area files.old }
    ensures count { RoseBy 0 (G.count files.old) (G.count files.new) }
{
    let stage = stage_from(rt, alloc, common, stop_after, beginning, files)?;
    if stage.list().len() > MAX_ENTRIES {
        return Err(Stop::TooMany);
    }
    Ok(stage)
}

// The stage from this beginning, however many entries it finds.
fn stage_from<T: Threads + Wait + Sync, G: Ground<Reader: Send>>(
    rt: &T,
    alloc: Global,
    common: &Common,
    stop_after: Option<u64>,
    beginning: Beginning,
    files: &mut G,
) -> Result<Stage, Stop>
    requires within { CommonWithin common.now }
    requires apart { Apart beginning.starts.items }
    ensures stage { IfOk result (IsStage stop_after common.now (G.tree files.old) beginning.done beginning.starts.items
        (G.count files.old) (G.count files.new)) }
    ensures stopped { IfErr result (StopsWalk stop_after common.now (G.tree files.old) beginning.done beginning.starts.items
        (G.count files.old) (G.count files.new)) }
    ensures same { G.tree files.new ≡ G.tree files.old }
    ensures area { G.area files.new ≡ G.area files.old }
    ensures count { RoseBy 0 (G.count files.old) (G.count files.new) }
{
    let Beginning { done, starts } = beginning;
    // The count of faults is a number of 64 bits.
    let _faults = files.faults();
    match stop_after {
        Some(most) => stop_or_finish(rt, alloc, common, most, done, starts, files),
        None => {
            let entries = match walk_roots(rt, alloc, common, starts, files) {
                Ok(entries) => entries,
                Err(why) => return Err(stop_of_walk(why)),
            };
            let Entries { list, account } = entries;
            let list = joined(alloc, done, list)?;
            Ok(Stage::Finished { list, account })
        }
    }
}

// Walks until a rank has handled so many paths, or to the end.
fn stop_or_finish<T: Threads + Wait + Sync, G: Ground<Reader: Send>>(
    rt: &T,
    alloc: Global,
    common: &Common,
    most: u64,
    done: FlatList,
    starts: Vec<Path>,
    files: &mut G,
) -> Result<Stage, Stop>
    requires within { CommonWithin common.now }
    requires apart { Apart starts.items }
    ensures stage { IfOk result (IsStage (Some most) common.now (G.tree files.old) done starts.items (G.count files.old) (G.count files.new)) }
    ensures stopped { IfErr result (StopsWalk (Some most) common.now (G.tree files.old) done starts.items (G.count files.old) (G.count files.new)) }
    ensures same { G.tree files.new ≡ G.tree files.old }
    ensures area { G.area files.new ≡ G.area files.old }
    ensures count { RoseBy 0 (G.count files.old) (G.count files.new) }
{
    // The count of faults is a number of 64 bits.
    let _faults = files.faults();
    let options = Options {
        ranks: common.ranks,
        hosts: common.hosts,
        split: common.split,
        seed: common.seed,
        width: common.width,
        trace: false,
        stop_after: Some(most),
    };
    let report = match walk(rt, alloc, files, starts, &options) {
        Ok(report) => report,
        Err(why) => return Err(stop_of_walk(why)),
    };
    let stage = stage_of(alloc, done, report)?;
    Ok(stage)
}

// The stage that a walk makes, with the entries that were done before it.
fn stage_of(alloc: Global, done: FlatList, report: WalkReport) -> Result<Stage, OutOfMemory>
    requires ascend { IsStrictlySortedBy path_cmp (paths_of (found_in report.walked report.list)) }
    ensures { IfOk result (IsStageOf done report) }
{
    let WalkReport {
        list,
        walked,
        shares,
        events,
        sums,
    } = report;
    match walked {
        Walked::Whole => {
            let list = joined(alloc, done, list)?;
            let account = Account {
                events,
                shares,
                sums,
            };
            Ok(Stage::Finished { list, account })
        }
        Walked::Cut(cut) => {
            let handled = cut.done.len() as u64;
            let done = joined(alloc, done, cut.done)?;
            Ok(Stage::Cut {
                handled,
                done,
                left: cut.left,
            })
        }
    }
}

impl Stage {
    ghost use Rattle.std.specs.Prelude.{◌≡◌};
    ghost use Rattle.stage_report.specs.Private.{list_in};

    // All that is done.
    fn list(&self) -> &FlatList
        ensures { result.now ≡ list_in self.now }
    {
        match self {
            Stage::Finished { list, .. } => list,
            Stage::Cut { done, .. } => done,
        }
    }
}
