//! The notes of a comparison.
ghost use Rattle.std.specs.Prelude.{◌≡◌, ◌++◌};
ghost use Rattle.compare_report.specs.Prelude.{OnOk, IfOk, AreInOrder};
ghost use Rattle.compare_report.specs.Comparing.{missed_notes, compare_failures};

use path_text::OutOfMemory;
use run_entries::{Sides, name_entries};
use std::alloc::Global;
use tool_text::{Note, Why, in_order};
use tree_cmp::{Compared, Missed};

/// The notes of all failures, in order: of the files to be read, and of the entries of both sides.
pub(crate) fn failures(
    alloc: Global,
    sides: &Sides,
    compared: &Compared,
) -> Result<Vec<Note>, OutOfMemory>
    ensures { IfOk result (λ notes. AreInOrder (compare_failures sides.now.left sides.now.right compared.now) notes.items) }
{
    let mut notes = Vec::new(alloc);
    add_missed(&mut notes, compared.failed(), Why::FailedRead)?;
    add_missed(&mut notes, compared.changed(), Why::Changed)?;
    name_entries(alloc, &mut notes, &sides.left, false)?;
    name_entries(alloc, &mut notes, &sides.right, true)?;
    in_order(notes)
}

fn add_missed(notes: &mut Vec<Note>, missed: &[Missed], why: Why) -> Result<(), OutOfMemory>
    ensures { OnOk result (notes.new.items ≡ notes.old.items ++ missed_notes why missed.now) }
{
    for file in missed {
        notes.push(Note {
            path: file.path.copy()?,
            why,
            dest: file.dest,
        })?;
    }
    Ok(())
}
