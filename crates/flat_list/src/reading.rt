//! The text of a line of a list file, read word by word.
ghost use Rattle.std.specs.Prelude.{◌≡◌, IfOk, IfSome, Some};
ghost use Rattle.std.specs.Option.{option_map};
ghost use Rattle.std.specs.Str.{IsUtf8};
ghost use Rattle.outside.specs.Links.{link_reading};
ghost use Rattle.entry_pages.specs.Entries.{is_sized, is_kind, is_of, shape_by};
ghost use Rattle.flat_list.specs.Spelling.{is_marked, is_old};
ghost use Rattle.whole_lines.specs.Words.{word_at};
ghost use Rattle.flat_list.specs.Private.Reading.{time_from, kind_from, mark_from, stat_from, is_told, told_at, entry_behind};
ghost use Rattle.flat_list.specs.Private.Reading.{takes_target, target_behind, target_line, target_at, target_from, link_ok};

use crate::following::path_behind;
use crate::versions::Version;
use entry_pages::{Entry, Mark};
use outside::{Kind, LinkText, LinkTextError, Stat};
use path_text::OutOfMemory;
use std::alloc::Global;
use whole_lines::{cut, cut_line, leading_number, number_at, number_of, path_from};

/// All that a line has except the path.
#[derive(Clone, Copy, Drop)]
pub(crate) struct Told {
    stat: Option<Stat>,
    mark: Mark,
    unnamed: u64,
    far: u64,
}

#[tactic(auto, unfolding(crate::specs::Private::Reading::time_from))]
fn time_from(word: &[u8]) -> Option<Option<u64>>
    ensures { result ≡ time_from word.now }
{
    if word == b"-".as_slice() {
        return Some(None);
    }
    Some(Some(number_of(word)?))
}

#[tactic(auto, unfolding(crate::specs::Private::Reading::kind_from))]
fn kind_from(word: &[u8]) -> Option<Option<Kind>>
    ensures { result ≡ kind_from word.now }
{
    if word == b"-".as_slice() {
        Some(None)
    } else if word == b"f".as_slice() {
        Some(Some(Kind::File))
    } else if word == b"d".as_slice() {
        Some(Some(Kind::Dir))
    } else if word == b"l".as_slice() {
        Some(Some(Kind::Link))
    } else if word == b"o".as_slice() {
        Some(Some(Kind::Other))
    } else {
        None
    }
}

#[tactic(auto, unfolding(crate::specs::Private::Reading::mark_from))]
fn mark_from(word: &[u8]) -> Option<Mark>
    ensures { result ≡ mark_from word.now }
{
    if word == b"ok".as_slice() {
        Some(Mark::Fine)
    } else if word == b"stat".as_slice() {
        Some(Mark::StatFailed)
    } else if word == b"list".as_slice() {
        Some(Mark::ListFailed)
    } else if word == b"gone".as_slice() {
        Some(Mark::Gone)
    } else if word == b"changed".as_slice() {
        Some(Mark::Changed)
    } else {
        None
    }
}

#[tactic(auto, unfolding(whole_lines::specs::Words::word_at))]
fn time_at(text: &[u8]) -> Option<(Option<u64>, &[u8])>
    ensures { option_map (λ found. (found.0, found.1.now)) result ≡ word_at time_from text.now }
{
    if let Some((seconds, rest)) = leading_number(text) {
        return Some((Some(seconds), rest));
    }
    let (word, rest) = cut(text, b' ')?;
    Some((time_from(word)?, rest))
}

#[tactic(auto, unfolding(whole_lines::specs::Words::word_at))]
fn kind_at(text: &[u8]) -> Option<(Option<Kind>, &[u8])>
    ensures { option_map (λ found. (found.0, found.1.now)) result ≡ word_at kind_from text.now }
{
    let (word, rest) = cut(text, b' ')?;
    Some((kind_from(word)?, rest))
}

#[tactic(auto, unfolding(whole_lines::specs::Words::word_at))]
fn mark_at(text: &[u8]) -> Option<(Mark, &[u8])>
    ensures { option_map (λ found. (found.0, found.1.now)) result ≡ word_at mark_from text.now }
{
    let (word, rest) = cut(text, b' ')?;
    Some((mark_from(word)?, rest))
}

#[tactic(auto, unfolding(crate::specs::Private::Reading::stat_from))]
fn stat_from(kind: Option<Kind>, size: u64, mtime: Option<u64>) -> Option<Option<Stat>>
    ensures { result ≡ stat_from kind size mtime }
{
    match kind {
        Some(kind) => Some(Some(Stat { kind, size, mtime })),
        None if size == 0 && mtime.is_none() => Some(None),
        None => None,
    }
}

impl Told {
    // Whether its parts fit one another, in a list file of this version.
    fn is_told(&self, version: Version) -> bool
        ensures { result ≡ is_told version self.now }
    {
        let none = self.unnamed == 0 && self.far == 0;
        let marked = is_marked(version, self.mark, self.stat);
        marked && is_sized(self.stat) && has_shape(self.mark, self.stat, none)
    }
}

// Whether a list file of this version can have such a mark.
fn is_marked(version: Version, mark: Mark, stat: Option<Stat>) -> bool
    ensures { result ≡ is_marked version mark stat }
{
    match version {
        Version::Two => true,
        Version::One => is_old(mark, stat),
    }
}

fn is_old(mark: Mark, stat: Option<Stat>) -> bool
    ensures { result ≡ is_old mark stat }
{
    match mark {
        Mark::Changed => is_dir(stat),
        _ => true,
    }
}

fn is_sized(stat: Option<Stat>) -> bool
    ensures { result ≡ is_sized stat }
{
    match stat {
        None => true,
        Some(stat) => is_kind(Kind::File, stat.kind) || stat.size == 0,
    }
}

fn is_kind(kind: Kind, other: Kind) -> bool
    ensures { result ≡ is_kind kind other }
{
    kind == other
}

fn is_dir(stat: Option<Stat>) -> bool
    ensures { result ≡ is_of Kind.Dir stat }
{
    match stat {
        None => false,
        Some(stat) => is_kind(Kind::Dir, stat.kind),
    }
}

fn is_link(stat: Option<Stat>) -> bool
    ensures { result ≡ is_of Kind.Link stat }
{
    match stat {
        None => false,
        Some(stat) => is_kind(Kind::Link, stat.kind),
    }
}

fn has_shape(mark: Mark, stat: Option<Stat>, none: bool) -> bool
    ensures { result ≡ shape_by mark stat none }
{
    match mark {
        Mark::StatFailed | Mark::Gone => stat.is_none() && none,
        Mark::ListFailed => is_dir(stat) && none,
        Mark::Changed => (is_dir(stat) || is_link(stat)) && none,
        Mark::Fine => stat.is_some() && (is_dir(stat) || none),
    }
}

// All that a line has except the path, and the word of the path.
#[tactic(auto, unfolding(crate::specs::Private::Reading::told_at))]
fn told_at(version: Version, text: &[u8]) -> Option<(Told, &[u8])>
    ensures { option_map (λ found. (found.0, found.1.now)) result ≡ told_at version text.now }
{
    let (kind, rest) = kind_at(text)?;
    let (size, rest) = number_at(rest)?;
    let (time, rest) = time_at(rest)?;
    let (mark, rest) = mark_at(rest)?;
    let (unnamed, rest) = number_at(rest)?;
    let (far, rest) = number_at(rest)?;
    let stat = stat_from(kind, size, time)?;
    let told = Told {
        stat,
        mark,
        unnamed,
        far,
    };
    if !told.is_told(version) {
        return None;
    }
    Some((told, rest))
}

/// The entry of a line's text, if there is one and it comes after the entry before it. It takes that entry's memory for its
/// path.
#[tactic(auto, unfolding(crate::specs::Private::Reading::entry_behind))]
pub(crate) fn entry_behind(
    alloc: Global,
    version: Version,
    before: Option<Entry>,
    text: &[u8],
) -> Result<Option<Entry>, OutOfMemory>
    ensures read { IfOk result (λ found. found ≡ entry_behind version before text.now) }
    ensures utf8 { IfOk result (λ found. IfSome found (λ entry. IsUtf8 entry.path)) }
{
    let Some((told, word)) = told_at(version, text) else {
        return Ok(None);
    };
    let path = match before {
        None => path_from(alloc, word)?,
        Some(before) => path_behind(alloc, before.path, word)?,
    };
    let Some(path) = path else {
        return Ok(None);
    };
    Ok(Some(Entry {
        path,
        stat: told.stat,
        mark: told.mark,
        unnamed: told.unnamed,
        far: told.far,
        target: None,
    }))
}

/// The target that the first line of a text has, and the text after that line, if a target may follow the entry.
pub(crate) fn target_behind<'a>(
    alloc: Global,
    version: Version,
    entry: &Entry,
    rest: &'a [u8],
) -> Result<Option<(LinkText, &'a [u8])>, OutOfMemory>
    ensures read { IfOk result (λ found. option_map (λ f. (f.0, f.1.now)) found ≡ target_behind version entry.now rest.now) }
    ensures utf8 { IfOk result (λ found. IfSome found (λ f. IsUtf8 f.0)) }
{
    if !takes_target(version, entry) {
        return Ok(None);
    }
    target_line(alloc, rest)
}

fn takes_target(version: Version, entry: &Entry) -> bool
    ensures { result ≡ takes_target version entry.now }
{
    version == Version::Two && is_link(entry.stat) && entry.mark == Mark::Fine
}

#[tactic(auto, unfolding(crate::specs::Private::Reading::target_line))]
fn target_line<'a>(
    alloc: Global,
    rest: &'a [u8],
) -> Result<Option<(LinkText, &'a [u8])>, OutOfMemory>
    ensures read { IfOk result (λ found. option_map (λ f. (f.0, f.1.now)) found ≡ target_line rest.now) }
    ensures utf8 { IfOk result (λ found. IfSome found (λ f. IsUtf8 f.0)) }
{
    let Some((text, behind)) = cut_line(rest) else {
        return Ok(None);
    };
    match target_at(alloc, text)? {
        None => Ok(None),
        Some(target) => Ok(Some((target, behind))),
    }
}

// The target of a line's text.
#[tactic(auto, unfolding(crate::specs::Private::Reading::target_at))]
fn target_at(alloc: Global, text: &[u8]) -> Result<Option<LinkText>, OutOfMemory>
    ensures read { IfOk result (λ target. target ≡ target_at text.now) }
    ensures utf8 { IfOk result (λ target. IfSome target (λ t. IsUtf8 t)) }
{
    if !text.starts_with(b"> ".as_slice()) {
        return Ok(None);
    }
    target_from(alloc, &text[2..])
}

#[tactic(auto, using(crate::proofs::Targets::target_texts))]
fn target_from(alloc: Global, word: &[u8]) -> Result<Option<LinkText>, OutOfMemory>
    ensures read { IfOk result (λ target. target ≡ target_from word.now) }
    ensures utf8 { IfOk result (λ target. IfSome target (λ t. IsUtf8 t)) }
{
    match str::from_utf8(word) {
        Ok(text) => target_of(alloc, text),
        Err(_) => Ok(None),
    }
}

fn target_of(alloc: Global, text: &str) -> Result<Option<LinkText>, OutOfMemory>
    ensures read { IfOk result (λ target. target ≡ link_ok (link_reading text.now)) }
    ensures utf8 { IfOk result (λ target. IfSome target (λ t. IsUtf8 t)) }
{
    match LinkText::unescape(alloc, text) {
        Ok(target) => {
            // The text alone shows that a target is UTF-8.
            let _text = target.text();
            Ok(Some(target))
        }
        Err(LinkTextError::OutOfMemory) => Err(OutOfMemory),
        Err(LinkTextError::Empty) => Ok(None),
        Err(LinkTextError::TooLong) => Ok(None),
        Err(LinkTextError::Nul) => Ok(None),
        Err(LinkTextError::BadEscape(_)) => Ok(None),
    }
}
