//! The removal, and its texts.
ghost use Rattle.std.specs.Prelude.{◌≡◌, ◌≤◌};
ghost use Rattle.remove_report.specs.Prelude.{[], true, IfOk, IfSome, is_some, RoseBy, nothing_lent, paths, CommonWithin, side_of, count_by, is_done};
ghost use Rattle.remove_report.specs.Prelude.{SameButChosen};
ghost use Rattle.remove_report.specs.Choosing.{Acts};
ghost use Rattle.remove_report.specs.PrivateActs.{CanBeRemoved, TellsRemovals};

use crate::naming::failures;
use crate::printing::remove_report;
use flat_list::FlatList;
use level_work::Fate;
use outside::Ground;
use path_text::{OutOfMemory, Path};
use run_report::Report;
use std::alloc::Global;
use std::thread::Threads;
use tool_text::Note;
use tool_words::Common;
use tree_remove::remove;

// The fates of chosen paths, and how many of the paths are gone.
#[derive(Drop)]
struct Removal {
    rows: Vec<(Path, Fate)>,
    removed: u64,
}

/// Removes the chosen entries, unless it is a dry run, and makes the texts. `named` has the failures before. Whatever it
/// answers, every path that was not chosen is as before.
pub(crate) fn remove_and_tell<T: Threads + Sync, G: Ground<Part: Send>>(
    rt: &T,
    alloc: Global,
    dryrun: bool,
    common: &Common,
    chosen: &FlatList,
    named: Vec<Note>,
    files: &mut G,
) -> Result<Report, OutOfMemory>
    requires within { CommonWithin common.now }
    requires can { CanBeRemoved chosen.now (G.tree files.old) }
    requires lent { G.area files.old ≡ nothing_lent }
    ensures told { IfOk result (TellsRemovals dryrun chosen.now named.items (side_of G.Plot files.old)
        (side_of G.Plot files.new)) }
    ensures rest { IfSome (G.tree files.old) (λ before. IfSome (G.tree files.new) (SameButChosen (paths chosen.now) before)) }
    ensures dry { dryrun ≡ true → G.tree files.new ≡ G.tree files.old }
    ensures tells { is_some (G.tree files.new) ≡ is_some (G.tree files.old) }
    ensures lent { G.area files.new ≡ nothing_lent }
    ensures count { RoseBy 0 (G.count files.old) (G.count files.new) }
{
    let acted = remove_unless(rt, alloc, dryrun, common, chosen, files)?;
    let notes = failures(named, &acted.rows)?;
    let report = remove_report(rt, alloc, chosen, acted.removed, &notes, common.hosts)?;
    Ok(report)
}

// Removes the chosen entries, by as many ranks and hosts as are asked for; in a dry run it removes nothing.
fn remove_unless<T: Threads + Sync, G: Ground<Part: Send>>(
    rt: &T,
    alloc: Global,
    dryrun: bool,
    common: &Common,
    chosen: &FlatList,
    files: &mut G,
) -> Result<Removal, OutOfMemory>
    requires within { CommonWithin common.now }
    requires can { CanBeRemoved chosen.now (G.tree files.old) }
    requires lent { G.area files.old ≡ nothing_lent }
    ensures acts { IfOk result (λ acted. Acts dryrun chosen.now acted.rows.items (side_of G.Plot files.old)
        (side_of G.Plot files.new)) }
    ensures gone { IfOk result (λ acted. acted.removed ≡ count_by (λ row. is_done row.1) acted.rows.items) }
    ensures rest { IfSome (G.tree files.old) (λ before. IfSome (G.tree files.new) (SameButChosen (paths chosen.now) before)) }
    ensures dry { dryrun ≡ true → G.tree files.new ≡ G.tree files.old }
    ensures tells { is_some (G.tree files.new) ≡ is_some (G.tree files.old) }
    ensures lent { G.area files.new ≡ nothing_lent }
    ensures count { RoseBy 0 (G.count files.old) (G.count files.new) }
{
    // The count of faults is a number of 64 bits.
    let _faults = files.faults();
    if dryrun {
        return Ok(Removal {
            rows: Vec::new(alloc),
            removed: 0,
        });
    }
    let report = remove(rt, alloc, chosen, files, common.ranks, common.hosts)?;
    let removed = report.removed();
    let rows = report.into_rows();
    Ok(Removal { rows, removed })
}
