//! The notes of a sync.
ghost use Rattle.std.specs.Prelude.{◌≡◌, ◌++◌};
ghost use Rattle.sync_report.specs.Prelude.{OnOk, IfOk, filter, not, AreInOrder};
ghost use Rattle.sync_report.specs.Syncing.{dest_notes, says_absent, sync_failures};

use flat_list::FlatList;
use path_text::{OutOfMemory, Path};
use run_entries::{Sides, name_copies, name_entries, name_paths, name_removals};
use std::alloc::Global;
use tool_text::{Note, Why, in_order};
use tree_copy::Pair;
use tree_sync::SyncReport;

/// The notes of all failures, in order: of the entries of both sides, of the files to be read, and of the
/// copies and removals.
pub(crate) fn failures(
    alloc: Global,
    pair: &Pair,
    sides: &Sides,
    synced: &SyncReport,
) -> Result<Vec<Note>, OutOfMemory>
    ensures { IfOk result (λ notes. AreInOrder (sync_failures pair.now sides.now.left sides.now.right synced.now) notes.items) }
{
    let mut notes = Vec::new(alloc);
    name_entries(alloc, &mut notes, &sides.left, false)?;
    name_dest(alloc, &mut notes, &sides.right, &pair.target)?;
    name_paths(&mut notes, synced.failed(), Why::FailedRead)?;
    name_paths(&mut notes, synced.changed(), Why::Changed)?;
    name_copies(&mut notes, synced.copies())?;
    name_removals(&mut notes, synced.removals())?;
    in_order(notes)
}

// Adds the notes of the destination's entries, but for the one that says that nothing is there.
fn name_dest(
    alloc: Global,
    notes: &mut Vec<Note>,
    list: &FlatList,
    dest: &Path,
) -> Result<(), OutOfMemory>
    ensures { OnOk result (notes.new.items ≡ notes.old.items ++ dest_notes dest.now list.now) }
{
    let mut named = Vec::new(alloc);
    name_entries(alloc, &mut named, list, false)?;
    drop_absent(&mut named, dest);
    notes.append(&mut named)?;
    Ok(())
}

// Leaves out the notes that say that nothing is at the path.
fn drop_absent(notes: &mut Vec<Note>, path: &Path)
    ensures { notes.new.items ≡ filter (λ n. not (says_absent path.now n)) notes.old.items }
{
    notes.retain(|note| !says_absent(note, path));
}

// Whether the note says that nothing is at the path.
fn says_absent(note: &Note, path: &Path) -> bool
    ensures { result ≡ says_absent path.now note.now }
{
    note.why == Why::Gone && note.path == *path
}
