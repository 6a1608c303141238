//! The rows of small entries and of large files, brought together in the order of the list.
ghost use Rattle.std.specs.Prelude.{◌≡◌, ◌+◌, ◌++◌, ◌∷◌, Bool, List, IfOk, OnOk};
ghost use Rattle.std.specs.Vec.Iter.{into_iter_items};
ghost use Rattle.range_copy.specs.PrivateParts.{merged, row_of};

use crate::cutting::RangeError;
use crate::folding::Tally;
use level_work::Fate;
use path_text::Path;
use std::alloc::Global;
use std::vec::IntoIter;
use tree_copy::CopyReport;

// The report on all entries with a stat: `marks` says which of them are large.
pub(crate) fn report_of(
    alloc: Global,
    marks: &[bool],
    small: CopyReport,
    large: Tally,
) -> Result<CopyReport, RangeError>
    ensures rows { IfOk result (λ report. report.0 ≡ merged marks.now small.0 large.rows.items) }
    ensures copied { IfOk result (λ report. report.1 ≡ small.1 + large.copied) }
    ensures bytes { IfOk result (λ report. report.2 ≡ small.2 + large.bytes) }
{
    // Entries are fewer than 2^64, and so are the bytes of each.
    let Some(copied) = small.copied().checked_add(large.copied) else {
        return Err(RangeError::OutOfMemory);
    };
    let Some(bytes) = small.bytes().checked_add(large.bytes) else {
        return Err(RangeError::OutOfMemory);
    };
    let rows = merge(alloc, marks, small.into_rows(), large.rows)?;
    Ok(CopyReport::make(rows, copied, bytes))
}

// The rows of both parts in the order of the list.
fn merge(
    alloc: Global,
    marks: &[bool],
    small: Vec<(Path, Fate)>,
    large: Vec<(Path, Fate)>,
) -> Result<Vec<(Path, Fate)>, RangeError>
    ensures { IfOk result (λ rows. rows.items ≡ merged marks.now small.items large.items) }
{
    let mut slim = small.into_iter();
    let mut wide = large.into_iter();
    let mut rows = Vec::with_capacity(alloc, marks.len())?;
    for mark in marks {
        let next = next_of(*mark, &mut slim, &mut wide);
        push(&mut rows, next)?;
    }
    Ok(rows)
}

// The next row, if its part has one more.
fn next_of(
    mark: bool,
    small: &mut IntoIter<(Path, Fate), Global>,
    large: &mut IntoIter<(Path, Fate), Global>,
) -> Option<(Path, Fate)>
    ensures { (marks : List Bool) → merged (mark ∷ marks) (into_iter_items small.old) (into_iter_items large.old)
        ≡ row_of result ++ merged marks (into_iter_items small.new) (into_iter_items large.new) }
{
    if mark {
        return large.next();
    }
    small.next()
}

// Puts a row after the others, if there is one.
fn push(rows: &mut Vec<(Path, Fate)>, next: Option<(Path, Fate)>) -> Result<(), RangeError>
    ensures { OnOk result (rows.new.items ≡ rows.old.items ++ row_of next) }
{
    let Some(row) = next else {
        return Ok(());
    };
    rows.push(row)?;
    Ok(())
}
