//! Failure notes in order.
ghost use Rattle.std.specs.Prelude.{◌≡◌, IfOk};
ghost use Rattle.std.specs.Ordering.{on, bool_cmp, then_cmp, eq_by_cmp};
ghost use Rattle.tool_text.specs.NoteOrder.{why_place, why_number, why_cmp, note_cmp, AreInOrder};

use crate::noting::{Note, Why};
use path_text::OutOfMemory;
use std::cmp::Ordering;

/// The notes in order, each once: in path order; at one path those of a destination come last, and then the order of
/// [`Why`] decides, the lower number first. If they are in order already, or are two such lists one after the other, the time
/// is proportional to their number. No path is copied.
pub fn in_order(notes: Vec<Note>) -> Result<Vec<Note>, OutOfMemory>
    ensures { IfOk result (λ sorted. AreInOrder notes.items sorted.items) }
{
    let mut notes = notes;
    notes.sort_by(|a, b| compare(a, b))?;
    notes.dedup_by(|a, b| are_same(a, b));
    Ok(notes)
}

// Whether two notes are one.
fn are_same(a: &Note, b: &Note) -> bool
    ensures { result ≡ eq_by_cmp note_cmp a.now b.now }
{
    compare(a, b).is_eq()
}

// How two notes stand.
fn compare(a: &Note, b: &Note) -> Ordering
    ensures { result ≡ note_cmp a.now b.now }
{
    match a.path.cmp(&b.path) {
        Ordering::Equal => compare_in_path(a, b),
        other => other,
    }
}

// How two notes of one path stand.
fn compare_in_path(a: &Note, b: &Note) -> Ordering
    ensures { result ≡ then_cmp (on (λ n. n.dest) bool_cmp) (on (λ n. n.why) why_cmp) a.now b.now }
{
    match a.dest.cmp(&b.dest) {
        Ordering::Equal => compare_reasons(a.why, b.why),
        other => other,
    }
}

fn compare_reasons(a: Why, b: Why) -> Ordering
    ensures { result ≡ why_cmp a b }
{
    match place_of(a).cmp(&place_of(b)) {
        Ordering::Equal => number_of(a).cmp(&number_of(b)),
        other => other,
    }
}

// The place of a reason among the reasons.
fn place_of(why: Why) -> u8
    ensures { result ≡ why_place why }
{
    match why {
        Why::Gone => 0,
        Why::FailedStat => 1,
        Why::FailedNewer => 2,
        Why::FailedList => 3,
        Why::Changed => 4,
        Why::Unnamed(_) => 5,
        Why::TooLong(_) => 6,
        Why::FailedRead => 7,
        Why::FailedCopy => 8,
        Why::Conflict => 9,
        Why::Skipped => 10,
        Why::Parent => 11,
        Why::LongTarget => 12,
        Why::FailedRemove => 13,
        Why::NotEmpty => 14,
    }
}

// The number that a reason tells, or 0.
fn number_of(why: Why) -> u64
    ensures { result ≡ why_number why }
{
    match why {
        Why::Unnamed(k) | Why::TooLong(k) => k,
        _ => 0,
    }
}
