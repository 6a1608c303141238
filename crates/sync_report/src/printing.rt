//! The texts of a sync.
ghost use Rattle.std.specs.Prelude.{◌≡◌, ◌∷◌};
ghost use Rattle.sync_report.specs.Prelude.{[], false, length, IfOk, note_lines, synced_line};
ghost use Rattle.sync_report.specs.Syncing.{counts_of};

use path_text::{OutOfMemory, Path};
use run_entries::{look_failed, report_with};
use run_report::Report;
use std::alloc::Global;
use tool_text::{Note, SyncCounts, Text, Why, put_synced};
use tree_sync::SyncReport;

/// The report of a sync: the line with the numbers, and a line for each note.
pub(crate) fn sync_report(
    alloc: Global,
    synced: &SyncReport,
    named: &[Note],
) -> Result<Report, OutOfMemory>
    ensures out { IfOk result (λ report. report.out ≡ synced_line (counts_of synced.now (length named.now))) }
    ensures notes { IfOk result (λ report. report.notes ≡ note_lines named.now) }
    ensures failed { IfOk result (λ report. report.failed ≡ length named.now) }
{
    let counts = SyncCounts {
        copied: synced.copied(),
        removed: synced.removed(),
        kept: synced.kept(),
        failed: named.len() as u64,
    };
    report_of(alloc, &counts, named)
}

/// The report if the look at this path failed, so that nothing was kept, removed or copied.
pub(crate) fn failed_report(alloc: Global, path: Path) -> Result<Report, OutOfMemory>
    ensures out { IfOk result (λ report. report.out ≡ synced_line (record { copied = 0; removed = 0; kept = 0; failed = 1 })) }
    ensures notes { IfOk result (λ report. report.notes ≡ note_lines (record { path = path; why = Why.FailedStat; dest = false } ∷ [])) }
    ensures failed { IfOk result (λ report. report.failed ≡ 1) }
{
    let note = look_failed(path);
    let counts = SyncCounts {
        copied: 0,
        removed: 0,
        kept: 0,
        failed: 1,
    };
    report_of(alloc, &counts, &[note])
}

fn report_of(alloc: Global, counts: &SyncCounts, named: &[Note]) -> Result<Report, OutOfMemory>
    ensures out { IfOk result (λ report. report.out ≡ synced_line counts.now) }
    ensures notes { IfOk result (λ report. report.notes ≡ note_lines named.now) }
    ensures failed { IfOk result (λ report. report.failed ≡ length named.now) }
{
    let mut out = Text::make(alloc);
    put_synced(&mut out, counts)?;
    report_with(alloc, out, named)
}
