//! The texts of groups.
ghost use Rattle.std.specs.Prelude.{◌≡◌, ◌<◌, ◌^◌};
ghost use Rattle.dup_report.specs.Prelude.{length, IfOk, sum_by, file_count, groups_text, note_lines};

use path_text::OutOfMemory;
use run_entries::report_with;
use run_report::Report;
use std::alloc::Global;
use tool_text::{Note, Text, put_groups};
use tree_dup::Groups;

/// The report of groups: the lines of each group, the line with the numbers, and a line for each note.
pub(crate) fn dup_report(
    alloc: Global,
    found: &Groups,
    named: &[Note],
) -> Result<Report, OutOfMemory>
    requires few { sum_by file_count found.now.groups < 2 ^ 64 }
    ensures out { IfOk result (λ report. report.out ≡ groups_text found.now.groups (length named.now)) }
    ensures notes { IfOk result (λ report. report.notes ≡ note_lines named.now) }
    ensures failed { IfOk result (λ report. report.failed ≡ length named.now) }
{
    let mut out = Text::make(alloc);
    put_groups(&mut out, found, named.len() as u64)?;
    report_with(alloc, out, named)
}
