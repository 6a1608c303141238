//! Failure notes: a path, the reason, and their line.
ghost use Rattle.std.specs.Prelude.{◌≡◌, ◌++◌, ◌∷◌, [], false, length, OnOk, IfOk, codes, if◌then◌else◌};
ghost use Rattle.std.specs.Option.{option_to_list};
ghost use Rattle.std.specs.Fmt.{decimal};
ghost use Rattle.path_text.specs.Escape.{escape};
ghost use Rattle.entry_pages.specs.Entries.{summary_of};
ghost use Rattle.tool_text.specs.Notes.{mark_whys, entry_notes, notes_of, why_text, note_line, note_lines};
ghost use Rattle.tool_text.specs.PrivateDrafts.{Adds};

use crate::drafts::Draft;
use crate::numbers::put_decimal;
use flat_list::{Entry, FlatList, Mark};
use path_text::{OutOfMemory, Path};
use std::alloc::Global;

/// Why a path has a note. The notes of one path are in the order of these reasons.
#[derive(Clone, Copy, Debug, Drop, PartialEq, Eq)]
pub enum Why {
    /// It does not exist.
    Gone,
    /// It could not be looked at.
    FailedStat,
    /// It could not be looked at for the time of its last change.
    FailedNewer,
    /// It could not be listed.
    FailedList,
    /// It changed during the run: it was a directory, a link, or a file of some size, or it existed, and then this was not so; or it or its
    /// target changed while it was copied.
    Changed,
    /// So many names in it are not valid UTF-8.
    Unnamed(u64),
    /// So many of its children would have too long a path.
    TooLong(u64),
    /// It could not be read.
    FailedRead,
    /// It could not be copied.
    FailedCopy,
    /// Something of another kind is at its target.
    Conflict,
    /// It is a socket, a pipe or a device, which is not copied.
    Skipped,
    /// The directory above it was not copied, so it was not touched.
    Parent,
    /// The path of its target would be too long.
    LongTarget,
    /// It could not be deleted.
    FailedRemove,
    /// It is a directory that was chosen for deletion, and is not empty.
    NotEmpty,
}

/// A path, and the reason of its note.
#[derive(Debug, Drop)]
pub struct Note {
    /// The path.
    pub path: Path,
    /// The reason.
    pub why: Why,
    /// Whether it belongs to a destination, in a run over two sides. Its line then begins with `dest `.
    pub dest: bool,
}

/// The failure notes of the entries, in order. None of them is about a destination.
pub fn notes_of(alloc: Global, list: &FlatList) -> Result<Vec<Note>, OutOfMemory>
    ensures notes { IfOk result (λ notes. notes.items ≡ notes_of list.now) }
    ensures count { IfOk result (λ notes. length notes.items ≡ (summary_of list.now).failed) }
{
    let mut notes = Vec::new(alloc);
    if list.summary().failed == 0 {
        return Ok(notes);
    }
    let mut cursor = list.cursor()?;
    while cursor.advance()? {
        push_notes(&mut notes, cursor.entry())?;
    }
    Ok(notes)
}

fn push_notes(notes: &mut Vec<Note>, entry: &Entry) -> Result<(), OutOfMemory>
    ensures { OnOk result (notes.new.items ≡ notes.old.items ++ entry_notes entry.now) }
{
    if let Some(why) = why_by_mark(entry.mark) {
        push_note(notes, &entry.path, why)?;
    }
    if entry.unnamed > 0 {
        push_note(notes, &entry.path, Why::Unnamed(entry.unnamed))?;
    }
    if entry.far > 0 {
        push_note(notes, &entry.path, Why::TooLong(entry.far))?;
    }
    Ok(())
}

fn why_by_mark(mark: Mark) -> Option<Why>
    ensures { option_to_list result ≡ mark_whys mark }
{
    match mark {
        Mark::Fine => None,
        Mark::StatFailed => Some(Why::FailedStat),
        Mark::ListFailed => Some(Why::FailedList),
        Mark::Gone => Some(Why::Gone),
        Mark::Changed => Some(Why::Changed),
    }
}

fn push_note(notes: &mut Vec<Note>, path: &Path, why: Why) -> Result<(), OutOfMemory>
    ensures { OnOk result (notes.new.items ≡ notes.old.items ++ record { path = path.now; why = why; dest = false } ∷ []) }
{
    let note = Note {
        path: path.copy()?,
        why,
        dest: false,
    };
    notes.push(note)?;
    Ok(())
}

/// Adds a line for each note.
pub(crate) fn add_notes(draft: &mut Draft, notes: &[Note]) -> Result<(), OutOfMemory>
    ensures { Adds (note_lines notes.now) draft.old draft.new result }
{
    for note in notes {
        add_note(draft, note)?;
    }
    Ok(())
}

fn add_note(draft: &mut Draft, note: &Note) -> Result<(), OutOfMemory>
    ensures { Adds (note_line note.now) draft.old draft.new result }
{
    draft.extend(side(note.dest).as_bytes())?;
    add_why(draft, note.why, &note.path)?;
    draft.push(b'\n')
}

fn side(dest: bool) -> &'static str
    ensures { result.now ≡ (if dest then codes "dest " else []) }
{
    if dest { "dest " } else { "" }
}

fn add_why(draft: &mut Draft, why: Why, path: &Path) -> Result<(), OutOfMemory>
    ensures { Adds (why_text why path.now) draft.old draft.new result }
{
    match why {
        Why::Gone => add_named(draft, "gone ", path),
        Why::FailedStat => add_named(draft, "failed stat ", path),
        Why::FailedNewer => add_named(draft, "failed newer ", path),
        Why::FailedList => add_named(draft, "failed list ", path),
        Why::Changed => add_named(draft, "changed ", path),
        Why::Unnamed(k) => add_counted(draft, "unnamed ", path, k),
        Why::TooLong(k) => add_counted(draft, "too long ", path, k),
        Why::FailedRead => add_named(draft, "failed read ", path),
        Why::FailedCopy => add_named(draft, "failed copy ", path),
        Why::Conflict => add_named(draft, "conflict ", path),
        Why::Skipped => add_named(draft, "skipped ", path),
        Why::Parent => add_named(draft, "parent ", path),
        Why::LongTarget => add_named(draft, "long target ", path),
        Why::FailedRemove => add_named(draft, "failed remove ", path),
        Why::NotEmpty => add_named(draft, "not empty ", path),
    }
}

fn add_named(draft: &mut Draft, reason: &str, path: &Path) -> Result<(), OutOfMemory>
    ensures { Adds (reason.now ++ escape path.now) draft.old draft.new result }
{
    draft.extend(reason.as_bytes())?;
    draft.put_path(path)
}

fn add_counted(draft: &mut Draft, reason: &str, path: &Path, k: u64) -> Result<(), OutOfMemory>
    ensures { Adds (reason.now ++ escape path.now ++ 32 ∷ decimal k) draft.old draft.new result }
{
    add_named(draft, reason, path)?;
    draft.push(b' ')?;
    put_decimal(draft, k)
}
