//! The texts of a copy.
ghost use Rattle.std.specs.Prelude.{◌≡◌, ◌∷◌};
ghost use Rattle.copy_report.specs.Prelude.{[], false, length, IfOk, note_lines};
ghost use Rattle.copy_report.specs.Copying.{copied_line};

use level_work::Fate;
use path_text::{OutOfMemory, Path};
use run_entries::look_failed;
use run_report::Report;
use std::alloc::Global;
use tool_text::{Note, Text, Why, put_line, put_notes};

/// The report of a copy of so many entries and bytes: the line with the numbers, and a line for each note.
pub(crate) fn copy_report(
    alloc: Global,
    rows: &[(Path, Fate)],
    copied: u64,
    bytes: u128,
    named: &[Note],
) -> Result<Report, OutOfMemory>
    ensures out { IfOk result (λ report. report.out ≡ copied_line copied (length rows.now) bytes (length named.now)) }
    ensures notes { IfOk result (λ report. report.notes ≡ note_lines named.now) }
    ensures failed { IfOk result (λ report. report.failed ≡ length named.now) }
{
    report_of(alloc, copied, rows.len() as u64, bytes, named)
}

/// The report if the look at this path failed, so that nothing was copied.
pub(crate) fn failed_report(alloc: Global, path: Path) -> Result<Report, OutOfMemory>
    ensures out { IfOk result (λ report. report.out ≡ copied_line 0 0 0 1) }
    ensures notes { IfOk result (λ report. report.notes ≡ note_lines (record { path = path; why = Why.FailedStat; dest = false } ∷ [])) }
    ensures failed { IfOk result (λ report. report.failed ≡ 1) }
{
    let note = look_failed(path);
    report_of(alloc, 0, 0, 0, &[note])
}

fn report_of(
    alloc: Global,
    copied: u64,
    items: u64,
    bytes: u128,
    named: &[Note],
) -> Result<Report, OutOfMemory>
    ensures out { IfOk result (λ report. report.out ≡ copied_line copied items bytes (length named.now)) }
    ensures notes { IfOk result (λ report. report.notes ≡ note_lines named.now) }
    ensures failed { IfOk result (λ report. report.failed ≡ length named.now) }
{
    let failed = named.len() as u64;
    let line = format!(in alloc; "copied {copied} items {items} bytes {bytes} failed {failed}")?;
    let mut out = Text::make(alloc);
    put_line(&mut out, &line)?;
    let mut notes = Text::make(alloc);
    put_notes(&mut notes, named)?;
    Ok(Report { failed, out, notes })
}
