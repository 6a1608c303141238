//! The notes of a copy.
ghost use Rattle.copy_report.specs.Prelude.{IfOk, AreInOrder};
ghost use Rattle.copy_report.specs.Copying.{copy_failures};

use flat_list::FlatList;
use level_work::Fate;
use path_text::{OutOfMemory, Path};
use run_entries::{name_copies, name_entries};
use std::alloc::Global;
use tool_text::{Note, in_order};

/// The notes of the entries and of the copies, in order.
pub(crate) fn failures(
    alloc: Global,
    list: &FlatList,
    rows: &[(Path, Fate)],
) -> Result<Vec<Note>, OutOfMemory>
    ensures { IfOk result (λ notes. AreInOrder (copy_failures list.now rows.now) notes.items) }
{
    let mut notes = Vec::new(alloc);
    name_entries(alloc, &mut notes, list, false)?;
    name_copies(&mut notes, rows)?;
    in_order(notes)
}
