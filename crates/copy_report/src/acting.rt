//! The copy of the entries of the walk, and its texts.
ghost use Rattle.std.specs.Prelude.{◌≡◌, ◌≤◌};
ghost use Rattle.copy_report.specs.Prelude.{IfOk, IfSome, is_some, count_by, RoseBy, nothing_lent, CommonWithin, side_of, is_done, SameButTargets};
ghost use Rattle.copy_report.specs.Prelude.{bytes_copied};
ghost use Rattle.copy_report.specs.Copying.{Copies};
ghost use Rattle.copy_report.specs.PrivateSteps.{CanBeCopied, TellsCopies};

use crate::naming::failures;
use crate::printing::copy_report;
use flat_list::FlatList;
use outside::Wide;
use path_text::OutOfMemory;
use range_copy::{RangeError, copy_wide};
use run_report::Report;
use std::alloc::Global;
use std::thread::Threads;
use tool_words::Common;
use tree_copy::{CopyReport, Pair, copy};

// Copies the entries to their targets, by the ranks and hosts of the words. With `range` it copies files of more bytes by ranges.
fn copy_entries<T: Threads + Sync, G: Wide<Reader: Send, Part: Send, Span: Send>>(
    rt: &T,
    alloc: Global,
    common: &Common,
    range: Option<u64>,
    list: &FlatList,
    pairs: &[Pair],
    files: &mut G,
) -> Result<CopyReport, OutOfMemory>
    requires within { CommonWithin common.now }
    requires range { IfSome range (λ n. 1 ≤ n) }
    requires lent { G.area files.old ≡ nothing_lent }
    requires can { CanBeCopied list.now pairs.now (G.tree files.old) }
    ensures copies { IfOk result (λ report. Copies pairs.now list.now report.0 (side_of G.Plot files.old)
        (side_of G.Plot files.new)) }
    ensures copied { IfOk result (λ report. report.1 ≡ count_by (λ row. is_done row.1) report.0) }
    ensures bytes { IfOk result (λ report. report.2 ≡ bytes_copied list.now report.0) }
    ensures rest { IfSome (G.tree files.old) (λ before. IfSome (G.tree files.new) (SameButTargets pairs.now list.now before)) }
    ensures tells { is_some (G.tree files.new) ≡ is_some (G.tree files.old) }
    ensures lent { G.area files.new ≡ nothing_lent }
    ensures count { RoseBy 0 (G.count files.old) (G.count files.new) }
{
    let (ranks, hosts) = (common.ranks, common.hosts);
    let Some(piece) = range else {
        return copy(rt, alloc, list, pairs, files, ranks, hosts);
    };
    match copy_wide(rt, alloc, list, pairs, piece, files, ranks, hosts) {
        Ok(report) => Ok(report),
        Err(RangeError::OutOfMemory) => Err(OutOfMemory),
    }
}

/// Copies the entries to their targets, and makes the texts. Whatever it answers, every path that is not a target is as before.
pub(crate) fn copy_and_tell<T: Threads + Sync, G: Wide<Reader: Send, Part: Send, Span: Send>>(
    rt: &T,
    alloc: Global,
    common: &Common,
    range: Option<u64>,
    list: &FlatList,
    pairs: &[Pair],
    files: &mut G,
) -> Result<Report, OutOfMemory>
    requires within { CommonWithin common.now }
    requires range { IfSome range (λ n. 1 ≤ n) }
    requires lent { G.area files.old ≡ nothing_lent }
    requires can { CanBeCopied list.now pairs.now (G.tree files.old) }
    ensures told { IfOk result (TellsCopies pairs.now list.now (side_of G.Plot files.old)
        (side_of G.Plot files.new)) }
    ensures rest { IfSome (G.tree files.old) (λ before. IfSome (G.tree files.new) (SameButTargets pairs.now list.now before)) }
    ensures tells { is_some (G.tree files.new) ≡ is_some (G.tree files.old) }
    ensures lent { G.area files.new ≡ nothing_lent }
    ensures count { RoseBy 0 (G.count files.old) (G.count files.new) }
{
    let outcome = copy_entries(rt, alloc, common, range, list, pairs, files)?;
    let copied = outcome.copied();
    let bytes = outcome.bytes();
    let rows = outcome.into_rows();
    let notes = failures(alloc, list, &rows)?;
    let report = copy_report(alloc, &rows, copied, bytes, &notes)?;
    Ok(report)
}
