//! The work of dcmp.
ghost use Rattle.std.specs.Prelude.{◌≡◌};
ghost use Rattle.compare_report.specs.Prelude.{[], All, IfOk, IfErr, true, IsStrictlySortedBy, path_cmp, RoseBy, nothing_lent, is_shaped, paths, side_of};
ghost use Rattle.compare_report.specs.Prelude.{WithinCompare};
ghost use Rattle.compare_report.specs.Comparing.{compare_asked, ReportsCompare, StopsCompare, LeavesCompare};
ghost use Rattle.compare_report.specs.PrivateSteps.{IsPrepared};

use crate::naming::failures;
use crate::printing::compare_report;
use crate::reading::compare_sides;
use crate::selecting::outputs_of;
use outside::Ground;
use path_text::Path;
use run_entries::{Output, save_lists, walk_sides};
use run_report::{Report, Stop};
use std::alloc::Global;
use std::sync::Wait;
use std::thread::Threads;
use tool_words::{Common, Want};

/// The task of dcmp.
#[derive(Debug, Drop)]
pub struct CompareTask {
    /// The settings of each of the two walks.
    pub common: Common,
    /// The source.
    pub left: Path,
    /// The destination.
    pub right: Path,
    /// The lists to save, in order.
    pub wants: Vec<Want>,
}

/// Compares the two trees, saves the lists that are asked for, and makes the texts.
pub fn report_of_compare<T: Threads + Wait + Sync, G: Ground>(
    rt: &T,
    alloc: Global,
    task: CompareTask,
    files: &mut G,
) -> Result<Report, Stop>
where
    G::Reader: Send,
    requires lent { G.area files.old ≡ nothing_lent }
    requires within { WithinCompare (compare_asked task) }
    ensures reports { IfOk result (ReportsCompare (compare_asked task) (side_of G.Plot files.old)
        (side_of G.Plot files.new)) }
    ensures stops { IfErr result (StopsCompare (compare_asked task) (side_of G.Plot files.old)
        (side_of G.Plot files.new)) }
    ensures leaves { LeavesCompare (compare_asked task) (G.tree files.old) (G.tree files.new) }
    ensures lent { G.area files.new ≡ nothing_lent }
    ensures count { RoseBy 0 (G.count files.old) (G.count files.new) }
{
    let ready = prepare(rt, alloc, task, files)?;
    save_lists(alloc, files, &ready.outputs)?;
    Ok(ready.report)
}

// The report of a comparison, and the lists to save.
#[derive(Drop)]
pub(crate) struct Prepared {
    pub(crate) report: Report,
    pub(crate) outputs: Vec<Output>,
}

// Compares the two trees, chooses the lists to save, and makes the texts.
fn prepare<T: Threads + Wait + Sync, G: Ground>(
    rt: &T,
    alloc: Global,
    task: CompareTask,
    files: &mut G,
) -> Result<Prepared, Stop>
where
    G::Reader: Send,
    requires within { WithinCompare (compare_asked task) }
    ensures prepared { IfOk result (IsPrepared (compare_asked task) (side_of G.Plot files.old)
        (side_of G.Plot files.new)) }
    ensures ascend { IfOk result (λ ready. All (λ o. IsStrictlySortedBy path_cmp (paths o.list)) ready.outputs.items) }
    ensures shaped { IfOk result (λ ready. All (λ o. All (λ e. is_shaped e ≡ true) o.list) ready.outputs.items) }
    ensures stopped { IfErr result (StopsCompare (compare_asked task) (side_of G.Plot files.old)
        (side_of G.Plot files.new)) }
    ensures same { G.tree files.new ≡ G.tree files.old }
    ensures area { G.area files.new ≡ G.area files.old }
    ensures count { RoseBy 0 (G.count files.old) (G.count files.new) }
{
    let CompareTask {
        common,
        left,
        right,
        wants,
    } = task;
    let sides = walk_sides(rt, alloc, &common, left, right, files)?;
    let compared = compare_sides(rt, alloc, common.hosts, &sides, files)?;
    let outputs = outputs_of(alloc, &sides, &compared, wants)?;
    let notes = failures(alloc, &sides, &compared)?;
    let report = compare_report(alloc, &compared, &notes)?;
    Ok(Prepared { report, outputs })
}
