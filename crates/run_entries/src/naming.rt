//! The notes of a run.
ghost use Rattle.std.specs.Prelude.{◌≡◌, ◌++◌};
ghost use Rattle.run_entries.specs.Prelude.{[], OnOk, IfOk, option_to_list, flat_map, summary_of, AreInOrder, false};
ghost use Rattle.run_entries.specs.Naming.{copy_notes, copy_whys, failures_in, listing_notes, look_notes, look_whys, notes_by, path_notes, removal_notes};
ghost use Rattle.run_entries.specs.Naming.{removal_whys};

use flat_list::FlatList;
use level_work::Fate;
use path_looks::{Look, Seen};
use path_text::{OutOfMemory, Path};
use std::alloc::Global;
use tool_text::{Note, Why, in_order, notes_of};

/// The notes of all failures, in order: of the looks, and of the entries.
pub(crate) fn failures(
    alloc: Global,
    looks: &[Look],
    list: &FlatList,
) -> Result<Vec<Note>, OutOfMemory>
    ensures { IfOk result (λ notes. AreInOrder (failures_in looks.now list.now) notes.items) }
{
    let mut notes = Vec::new(alloc);
    add_looks(&mut notes, looks)?;
    name_entries(alloc, &mut notes, list, false)?;
    in_order(notes)
}

/// The notes of entries whose summary counts so many failures. If it counts none, the list is not read again.
pub(crate) fn counted_failures(
    alloc: Global,
    list: &FlatList,
    failed: u64,
) -> Result<Vec<Note>, OutOfMemory>
    requires failed { failed ≡ (summary_of list.now).failed }
    ensures { IfOk result (λ notes. AreInOrder (failures_in [] list.now) notes.items) }
{
    if failed == 0 {
        return Ok(Vec::new(alloc));
    }
    failures(alloc, &[], list)
}

/// Adds the notes of the entries, also those of a destination. The notes of a run are sorted at the end.
pub fn name_entries(
    alloc: Global,
    notes: &mut Vec<Note>,
    list: &FlatList,
    dest: bool,
) -> Result<(), OutOfMemory>
    ensures { OnOk result (notes.new.items ≡ notes.old.items ++ listing_notes (record { entries = list.now; dest = dest })) }
{
    for note in notes_of(alloc, list)? {
        notes.push(Note { dest, ..note })?;
    }
    Ok(())
}

/// Adds the notes of entries that were copied, by their fates. The notes of a run are sorted at the end.
pub fn name_copies(notes: &mut Vec<Note>, rows: &[(Path, Fate)]) -> Result<(), OutOfMemory>
    ensures { OnOk result (notes.new.items ≡ notes.old.items ++ copy_notes rows.now) }
{
    for row in rows {
        add_note(notes, &row.0, copy_why(row.1))?;
    }
    Ok(())
}

/// Adds the notes of paths that were removed, by their fates. The notes of a run are sorted at the end.
pub fn name_removals(notes: &mut Vec<Note>, rows: &[(Path, Fate)]) -> Result<(), OutOfMemory>
    ensures { OnOk result (notes.new.items ≡ notes.old.items ++ removal_notes rows.now) }
{
    for row in rows {
        add_note(notes, &row.0, removal_why(row.1))?;
    }
    Ok(())
}

/// Adds a note of each path, for one reason. The notes of a run are sorted at the end.
pub fn name_paths(notes: &mut Vec<Note>, paths: &[Path], why: Why) -> Result<(), OutOfMemory>
    ensures { OnOk result (notes.new.items ≡ notes.old.items ++ path_notes why paths.now) }
{
    for path in paths {
        add_note(notes, path, Some(why))?;
    }
    Ok(())
}

/// The note of a path at which the look failed.
pub fn look_failed(path: Path) -> Note
    ensures { result ≡ record { path = path; why = Why.FailedStat; dest = false } }
{
    Note {
        path,
        why: Why::FailedStat,
        dest: false,
    }
}

fn add_looks(notes: &mut Vec<Note>, looks: &[Look]) -> Result<(), OutOfMemory>
    ensures { OnOk result (notes.new.items ≡ notes.old.items ++ flat_map look_notes looks.now) }
{
    for look in looks {
        add_note(notes, &look.path, why_named(look.seen))?;
    }
    Ok(())
}

// Adds the note of this path, if there is a reason to name it.
fn add_note(notes: &mut Vec<Note>, path: &Path, why: Option<Why>) -> Result<(), OutOfMemory>
    ensures { OnOk result (notes.new.items ≡ notes.old.items ++ notes_by path.now (option_to_list why)) }
{
    let Some(why) = why else {
        return Ok(());
    };
    notes.push(Note {
        path: path.copy()?,
        why,
        dest: false,
    })?;
    Ok(())
}

fn why_named(seen: Seen) -> Option<Why>
    ensures { option_to_list result ≡ look_whys seen }
{
    match seen {
        Seen::At(_) => None,
        Seen::Absent => Some(Why::Gone),
        Seen::Failed => Some(Why::FailedNewer),
    }
}

// Why an entry that was to be copied is named, if it is.
fn copy_why(fate: Fate) -> Option<Why>
    ensures { option_to_list result ≡ copy_whys fate }
{
    match fate {
        Fate::Done => None,
        Fate::Failed => Some(Why::FailedCopy),
        Fate::Conflict => Some(Why::Conflict),
        Fate::Skipped => Some(Why::Skipped),
        Fate::ParentFailed => Some(Why::Parent),
        Fate::TooLong => Some(Why::LongTarget),
        Fate::Changed | Fate::NotEmpty => Some(Why::Changed),
    }
}

// Why a path that was to be removed is named, if it is.
fn removal_why(fate: Fate) -> Option<Why>
    ensures { option_to_list result ≡ removal_whys fate }
{
    match fate {
        Fate::Done => None,
        Fate::Failed => Some(Why::FailedRemove),
        Fate::NotEmpty => Some(Why::NotEmpty),
        Fate::Changed | Fate::Conflict | Fate::Skipped | Fate::ParentFailed | Fate::TooLong => Some(
            Why::Changed,
        ),
    }
}
