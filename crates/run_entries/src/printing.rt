//! The text of the notes, and a report that ends with it.
ghost use Rattle.std.specs.Prelude.{◌≡◌};
ghost use Rattle.run_entries.specs.Prelude.{IfOk, length, note_lines};
ghost use Rattle.run_entries.specs.Entries.{notes_text};

use crate::accounts::Account;
use path_text::OutOfMemory;
use run_report::Report;
use std::alloc::Global;
use tool_text::{Note, Text, put_notes};
use tool_words::Common;

/// The reports on the walk that are asked for, and a line for each failure.
pub fn notes_text(
    alloc: Global,
    common: &Common,
    account: &Account,
    named: &[Note],
) -> Result<Text, OutOfMemory>
    ensures { IfOk result (λ text. text ≡ notes_text common.now account.now named.now) }
{
    let mut notes = Text::make(alloc);
    account.put(&mut notes, common)?;
    put_notes(&mut notes, named)?;
    Ok(notes)
}

/// The report with this text, and a line for each failure that is named.
pub fn report_with(alloc: Global, out: Text, named: &[Note]) -> Result<Report, OutOfMemory>
    ensures out { IfOk result (λ report. report.out ≡ out) }
    ensures notes { IfOk result (λ report. report.notes ≡ note_lines named.now) }
    ensures failed { IfOk result (λ report. report.failed ≡ length named.now) }
{
    let failed = named.len() as u64;
    let mut notes = Text::make(alloc);
    put_notes(&mut notes, named)?;
    Ok(Report { failed, out, notes })
}
