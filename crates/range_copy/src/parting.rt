//! The parts of a list: the large files, and all other entries.
ghost use Rattle.std.specs.Prelude.{◌≡◌, ◌++◌, ◌∷◌, ℕ, List, true, false, None, All, IfOk, IfSome, OnOk};
ghost use Rattle.flat_list.specs.Prelude.{refusal, Entry};
ghost use Rattle.range_copy.specs.PrivateParts.{ArePartsOf, exceeds, held_of, is_large, is_over, large_of, marks_of, small_of};

use crate::cutting::RangeError;
use flat_list::{Entry, FlatList};
use outside::Kind;
use std::alloc::Global;

// The entries of a list in two parts, and which of those with a stat are large.
#[derive(Drop)]
pub(crate) struct Parts {
    pub(crate) small: FlatList,
    pub(crate) large: Vec<Entry>,
    pub(crate) marks: Vec<bool>,
}

// The parts of a list. A file with more bytes than a piece is large, unless the next entry is under it. Each path of the list is a
// path, which the list's contract does not say.
pub(crate) fn apart(alloc: Global, list: &FlatList, piece: u64) -> Result<Parts, RangeError>
    ensures small { IfOk result (λ parts. parts.small ≡ small_of piece list.now) }
    ensures large { IfOk result (λ parts. parts.large.items ≡ large_of piece list.now) }
    ensures marks { IfOk result (λ parts. parts.marks.items ≡ marks_of piece list.now) }
    ensures paths { IfOk result (λ _. All (λ e. refusal e.path ≡ None) list.now) }
{
    let mut parts = Parts {
        small: FlatList::make(alloc),
        large: Vec::new(alloc),
        marks: Vec::with_capacity(alloc, list.len())?,
    };
    let mut held = None;
    let mut cursor = list.cursor()?;
    while cursor.advance()? {
        held = pass(&mut parts, held, cursor.entry(), piece)?;
    }
    settle(&mut parts, held, false)?;
    Ok(parts)
}

// Passes an entry: the one that was held back goes to its part. This one is held back, if it exceeds a piece.
fn pass(
    parts: &mut Parts,
    held: Option<Entry>,
    entry: &Entry,
    piece: u64,
) -> Result<Option<Entry>, RangeError>
    requires held { IfSome held (λ e. exceeds piece e ≡ true) }
    ensures parts { (rest all : List Entry) → ArePartsOf piece parts.old (held_of held ++ entry.now ∷ rest) all →
        IfOk result (λ next. ArePartsOf piece parts.new (held_of next ++ rest) all) }
    ensures held { IfOk result (λ next. IfSome next (λ e. exceeds piece e ≡ true)) }
    ensures path { refusal entry.now.path ≡ None }
{
    let _ = entry.path.text(); // shows that it is a path
    let over = stands_under(entry, &held);
    settle(parts, held, over)?;
    if exceeds(entry, piece) {
        return Ok(Some(entry.copy()?));
    }
    keep(parts, entry)?;
    Ok(None)
}

// Whether the entry is under the one that was held back.
fn stands_under(entry: &Entry, held: &Option<Entry>) -> bool
    ensures { (rest : List Entry) → result ≡ is_over held.now (entry.now ∷ rest) }
{
    match held {
        None => false,
        Some(last) => entry.path.is_under(&last.path),
    }
}

// Puts an entry that was held back into its part: with the large ones, unless the next one is under it.
fn settle(parts: &mut Parts, held: Option<Entry>, over: bool) -> Result<(), RangeError>
    ensures { (piece : ℕ) (rest all : List Entry) → IfSome held (λ e. exceeds piece e ≡ true) → over ≡ is_over held rest →
        ArePartsOf piece parts.old (held_of held ++ rest) all → OnOk result (ArePartsOf piece parts.new rest all) }
{
    let Some(last) = held else {
        return Ok(());
    };
    if over {
        return keep(parts, &last);
    }
    lead(parts, last)
}

// Puts an entry with the small ones.
fn keep(parts: &mut Parts, entry: &Entry) -> Result<(), RangeError>
    ensures { (piece : ℕ) (rest all : List Entry) → is_large piece entry.now rest ≡ false →
        ArePartsOf piece parts.old (entry.now ∷ rest) all → OnOk result (ArePartsOf piece parts.new rest all) }
{
    parts.small.add(entry)?;
    if entry.stat.is_none() {
        return Ok(());
    }
    parts.marks.push(false)?;
    Ok(())
}

// Puts an entry with the large ones.
fn lead(parts: &mut Parts, entry: Entry) -> Result<(), RangeError>
    ensures { (piece : ℕ) (rest all : List Entry) → is_large piece entry rest ≡ true →
        ArePartsOf piece parts.old (entry ∷ rest) all → OnOk result (ArePartsOf piece parts.new rest all) }
{
    parts.large.push(entry)?;
    parts.marks.push(true)?;
    Ok(())
}

// Whether it is a file with more bytes than a piece has.
fn exceeds(entry: &Entry, piece: u64) -> bool
    ensures { result ≡ exceeds piece entry.now }
{
    match &entry.stat {
        Some(stat) => stat.kind == Kind::File && piece < stat.size,
        None => false,
    }
}
