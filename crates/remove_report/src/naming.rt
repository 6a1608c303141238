//! The notes of a removal.
ghost use Rattle.std.specs.Prelude.{◌++◌};
ghost use Rattle.remove_report.specs.Prelude.{IfOk, AreInOrder, removal_notes};

use level_work::Fate;
use path_text::{OutOfMemory, Path};
use run_entries::name_removals;
use tool_text::{Note, in_order};

/// The notes of earlier failures and of the removals, in order.
pub(crate) fn failures(named: Vec<Note>, rows: &[(Path, Fate)]) -> Result<Vec<Note>, OutOfMemory>
    ensures { IfOk result (λ notes. AreInOrder (named.items ++ removal_notes rows.now) notes.items) }
{
    let mut notes = named;
    name_removals(&mut notes, rows)?;
    in_order(notes)
}
