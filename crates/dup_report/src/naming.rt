//! The notes of the files that were to be grouped.
ghost use Rattle.dup_report.specs.Prelude.{IfOk, AreInOrder};
ghost use Rattle.dup_report.specs.Grouping.{dup_failures};

use flat_list::FlatList;
use path_text::OutOfMemory;
use run_entries::{name_entries, name_paths};
use std::alloc::Global;
use tool_text::{Note, Why, in_order};
use tree_dup::Groups;

/// The notes of all failures, in order: of the files to be read, and of the entries.
pub(crate) fn failures(
    alloc: Global,
    list: &FlatList,
    found: &Groups,
) -> Result<Vec<Note>, OutOfMemory>
    ensures { IfOk result (λ notes. AreInOrder (dup_failures list.now found.now) notes.items) }
{
    let mut notes = Vec::new(alloc);
    name_paths(&mut notes, found.failed(), Why::FailedRead)?;
    name_paths(&mut notes, found.changed(), Why::Changed)?;
    name_entries(alloc, &mut notes, list, false)?;
    in_order(notes)
}
