//! The texts of the entries found.
ghost use Rattle.std.specs.Prelude.{◌≡◌, ◌++◌};
ghost use Rattle.list_report.specs.Prelude.{List, length, IfOk, Entry, summary_of, lines_of, InOrder, notes_text};
ghost use Rattle.list_report.specs.Lists.{summary_text};

use flat_list::{Field, Summary};
use path_text::OutOfMemory;
use run_entries::{Findings, in_asked_order, notes_text};
use run_report::Report;
use std::alloc::Global;
use std::thread::Threads;
use tool_text::{Text, list_text, put_summary};
use tool_words::Common;

/// The report of a list: a line for each chosen entry, in the order that is asked for, and the summary. Up to as many threads as
/// there are hosts make the lines.
pub fn list_report<R: Threads + Sync>(
    rt: &R,
    alloc: Global,
    found: Findings,
    common: &Common,
    order: Option<(Field, bool)>,
) -> Result<Report, OutOfMemory>
    ensures out { IfOk result (λ report. (printed : List Entry) × InOrder order found.chosen printed
        × (report.out ≡ lines_of printed ++ summary_text found.chosen (length found.notes.items))) }
    ensures notes { IfOk result (λ report. report.notes ≡ notes_text common.now found.account found.notes.items) }
    ensures failed { IfOk result (λ report. report.failed ≡ length found.notes.items) }
{
    let summary = summary_of(&found);
    let notes = notes_text(alloc, common, &found.account, &found.notes)?;
    let Findings { chosen, .. } = found;
    let printed = in_asked_order(chosen, order)?;
    let mut out = list_text(rt, alloc, &printed, common.hosts)?;
    put_summary(&mut out, &summary)?;
    Ok(Report {
        failed: summary.failed,
        out,
        notes,
    })
}

/// The report of a test: the summary alone.
pub(crate) fn test_report(
    alloc: Global,
    found: Findings,
    common: &Common,
) -> Result<Report, OutOfMemory>
    ensures out { IfOk result (λ report. report.out ≡ summary_text found.chosen (length found.notes.items)) }
    ensures notes { IfOk result (λ report. report.notes ≡ notes_text common.now found.account found.notes.items) }
    ensures failed { IfOk result (λ report. report.failed ≡ length found.notes.items) }
{
    let summary = summary_of(&found);
    let notes = notes_text(alloc, common, &found.account, &found.notes)?;
    let mut out = Text::make(alloc);
    put_summary(&mut out, &summary)?;
    Ok(Report {
        failed: summary.failed,
        out,
        notes,
    })
}

// The summary of the chosen entries, with the number of failures.
fn summary_of(found: &Findings) -> Summary
    ensures { result ≡ record (summary_of found.now.chosen) { failed = length found.now.notes.items } }
{
    Summary {
        failed: found.notes.len() as u64,
        ..found.summary
    }
}
