//! The texts of a comparison.
ghost use Rattle.std.specs.Prelude.{◌≡◌};
ghost use Rattle.compare_report.specs.Prelude.{length, IfOk, note_lines, rows_text};

use path_text::OutOfMemory;
use run_entries::report_with;
use run_report::Report;
use std::alloc::Global;
use tool_text::{Note, Text, put_rows};
use tree_cmp::Compared;

/// The report of a comparison: a line for each row, the line with the counts, and a line for each note.
pub(crate) fn compare_report(
    alloc: Global,
    compared: &Compared,
    named: &[Note],
) -> Result<Report, OutOfMemory>
    ensures out { IfOk result (λ report. report.out ≡ rows_text compared.now.rows (length named.now)) }
    ensures notes { IfOk result (λ report. report.notes ≡ note_lines named.now) }
    ensures failed { IfOk result (λ report. report.failed ≡ length named.now) }
{
    let mut out = Text::make(alloc);
    put_rows(&mut out, compared, named.len() as u64)?;
    report_with(alloc, out, named)
}
