//! The texts of a removal.
ghost use Rattle.std.specs.Prelude.{◌≡◌, ◌++◌};
ghost use Rattle.remove_report.specs.Prelude.{length, IfOk, lines_of, note_lines};
ghost use Rattle.remove_report.specs.Removing.{removed_line};

use flat_list::FlatList;
use path_text::OutOfMemory;
use run_report::Report;
use std::alloc::Global;
use std::thread::Threads;
use tool_text::{Note, Text, list_text, put_line, put_notes};

/// The report of a removal: a line for each chosen entry, the line with the counts, and a line for each note. Up to `hosts` threads make the
/// lines of the entries.
pub(crate) fn remove_report<R: Threads + Sync>(
    rt: &R,
    alloc: Global,
    chosen: &FlatList,
    removed: u64,
    named: &[Note],
    hosts: u32,
) -> Result<Report, OutOfMemory>
    ensures out { IfOk result (λ report. report.out ≡ lines_of chosen.now ++ removed_line removed (length chosen.now) (length named.now)) }
    ensures notes { IfOk result (λ report. report.notes ≡ note_lines named.now) }
    ensures failed { IfOk result (λ report. report.failed ≡ length named.now) }
{
    let failed = named.len() as u64;
    let line = format!(in alloc; "removed {removed} of {} failed {failed}", chosen.len())?;
    let mut out = list_text(rt, alloc, chosen, hosts)?;
    put_line(&mut out, &line)?;
    let mut notes = Text::make(alloc);
    put_notes(&mut notes, named)?;
    Ok(Report { failed, out, notes })
}
