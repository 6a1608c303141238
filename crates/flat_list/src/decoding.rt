//! Reads a list file.
ghost use Rattle.std.specs.Prelude.{◌≡◌, ◌≢◌, ◌+◌, ◌<◌, ◌≤◌, ◌^◌, ◌++◌, ◌∷◌, [], length, true, false, Some, None, IfOk, IfErr, IfSome, IfNone, OnOk, OnErr};
ghost use Rattle.std.specs.List.Sorted.{IsStrictlySortedBy};
ghost use Rattle.path_text.specs.Order.{path_cmp};
ghost use Rattle.flat_list.specs.Spelling.{header_text, paths, Spells, max_entries, IsCause, IsRefused};
ghost use Rattle.whole_lines.specs.Words.{cut, end_at};
ghost use Rattle.flat_list.specs.Private.Reading.{entry_at, found_at, with_target, behind_target, line_count, IsLast, Adds, NoneFollows};
ghost use Rattle.std.specs.Option.{option_map};

use crate::errors::CacheError;
use crate::lists::FlatList;
use crate::reading::{entry_behind, target_behind};
use crate::versions::Version;
use entry_pages::Entry;
use outside::{LinkText, link_reading_undoes_writing};
use path_text::{OutOfMemory, reading_undoes_writing};
use std::alloc::Global;
use whole_lines::{cut_line, end_at};

const MAX_ENTRIES: usize = 4_194_304;

/// The list of a list file of either version.
pub(crate) fn decode(alloc: Global, bytes: &[u8]) -> Result<FlatList, CacheError>
    ensures ok { IfOk result (λ list. Spells bytes.now list) }
    ensures few { IfOk result (λ list. length list ≤ max_entries) }
    ensures refused { IfErr result (IsCause bytes.now) }
{
    // These laws say that no other text has the same entry, and none the same target.
    reading_undoes_writing();
    link_reading_undoes_writing();
    let Some((version, rest)) = behind_header(bytes) else {
        return Err(CacheError::Damaged(1));
    };
    let mut list = FlatList::make(alloc);
    let mut last = None;
    let mut rest = rest;
    let mut line = 2u64;
    while let Some((text, behind)) = cut_line(rest) {
        if is_end(text, &list) {
            return ended(list, line, behind);
        }
        let added = add_entry(alloc, version, &mut list, &mut last, text, behind)?;
        let Some(next) = added else {
            return Err(CacheError::Damaged(line));
        };
        if list.len() > MAX_ENTRIES {
            return Err(CacheError::TooMany);
        }
        line += next.lines;
        rest = next.rest;
    }
    Err(CacheError::Damaged(line))
}

// The version that the header names, and the text after the header.
fn behind_header(bytes: &[u8]) -> Option<(Version, &[u8])>
    ensures some { IfSome result (λ found. cut 10 bytes.now ≡ Some (header_text found.0, found.1.now)) }
    ensures none { IfNone result (IsRefused bytes.now 1) }
{
    let (text, rest) = cut_line(bytes)?;
    match version_of(text) {
        Some(version) => Some((version, rest)),
        None => None,
    }
}

// The version of the list files that begin with a line of this text.
fn version_of(text: &[u8]) -> Option<Version>
    ensures some { IfSome result (λ version. text.now ≡ header_text version) }
    ensures none { IfNone result ((version : Version) → text.now ≢ header_text version) }
{
    if text == b"mfu list 2".as_slice() {
        Some(Version::Two)
    } else if text == b"mfu list 1".as_slice() {
        Some(Version::One)
    } else {
        None
    }
}

// Whether this is the text of the list's end line.
fn is_end(text: &[u8], list: &FlatList) -> bool
    ensures yes { result ≡ true → end_at text.now ≡ Some (length list.now) }
    ensures no { result ≡ false → end_at text.now ≢ Some (length list.now) }
{
    match end_at(text) {
        Some(count) => count == list.len() as u64,
        None => false,
    }
}

// The text that is left after an entry, and how many lines the entry has.
#[derive(Clone, Copy, Drop)]
struct Next<'a> {
    rest: &'a [u8],
    lines: u64,
}

// Adds the entry whose text this is, with the target after it, if there is one that may come after the others. `last` is the
// last of the others.
#[tactic(auto, using(crate::proofs::Decoded::last_is))]
fn add_entry<'a>(
    alloc: Global,
    version: Version,
    list: &mut FlatList,
    last: &mut Option<Entry>,
    text: &[u8],
    behind: &'a [u8],
) -> Result<Option<Next<'a>>, OutOfMemory>
    requires ascend { IsStrictlySortedBy path_cmp (paths list.old) }
    requires last { IsLast last.old list.old }
    ensures yes { IfOk result (λ next. IfSome next (λ n. Adds (entry_at version text.now) (found_at version text.now behind.now) list.old list.new)) }
    ensures rest { IfOk result (λ next. IfSome next (λ n. n.rest.now ≡ behind_target behind.now (found_at version text.now behind.now))) }
    ensures lines { IfOk result (λ next. IfSome next (λ n. n.lines ≡ line_count (found_at version text.now behind.now))) }
    ensures last { IfOk result (λ next. IfSome next (λ n. IsLast last.new list.new)) }
    ensures no { IfOk result (λ next. IfNone next (NoneFollows (entry_at version text.now) list.old)) }
    ensures kept { IfOk result (λ next. IfNone next (list.new ≡ list.old)) }
{
    let Some(mut entry) = entry_behind(alloc, version, last.take(), text)? else {
        return Ok(None);
    };
    let found = target_behind(alloc, version, &entry, behind)?;
    let next = take_found(&mut entry, found, behind);
    list.add(&entry)?;
    *last = Some(entry);
    Ok(Some(next))
}

// Gives an entry the target that was found after it, if there was one. It answers the text after both too.
fn take_found<'a>(
    entry: &mut Entry,
    found: Option<(LinkText, &'a [u8])>,
    behind: &'a [u8],
) -> Next<'a>
    ensures entry { entry.new ≡ with_target entry.old (option_map (λ f. (f.0, f.1.now)) found.entry) }
    ensures rest { result.rest.now ≡ behind_target behind.now (option_map (λ f. (f.0, f.1.now)) found.entry) }
    ensures lines { result.lines ≡ line_count (option_map (λ f. (f.0, f.1.now)) found.entry) }
{
    match found {
        None => Next {
            rest: behind,
            lines: 1,
        },
        Some((target, rest)) => {
            entry.target = Some(target);
            Next { rest, lines: 2 }
        }
    }
}

// The list, if there is nothing after its end line, which has this number.
fn ended(list: FlatList, line: u64, behind: &[u8]) -> Result<FlatList, CacheError>
    requires { line < 2 ^ 63 }
    ensures ok { IfOk result (λ same. (same ≡ list) × (length behind.now ≡ 0)) }
    ensures damaged { IfErr result (λ e. (e ≡ CacheError.Damaged (line + 1)) × (0 < length behind.now)) }
{
    if !behind.is_empty() {
        return Err(CacheError::Damaged(line + 1));
    }
    Ok(list)
}
