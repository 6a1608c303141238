//! Writes a list file.
ghost use Rattle.std.specs.Prelude.{◌≡◌, ◌+◌, ◌<◌, ◌++◌, ◌∷◌, [], true, map, All, IfOk, OnOk, IfSome, Some, ◌^◌};
ghost use Rattle.std.specs.List.{flat_map};
ghost use Rattle.std.specs.List.Sorted.{IsStrictlySortedBy};
ghost use Rattle.std.specs.Fmt.{decimal};
ghost use Rattle.path_text.specs.Order.{path_cmp};
ghost use Rattle.entry_pages.specs.Entries.{is_shaped, size_by};
ghost use Rattle.flat_list.specs.Orders.{time_of};
ghost use Rattle.flat_list.specs.Private.Reading.{IsWritten};
ghost use Rattle.flat_list.specs.Spelling.{kind_by, kind_word, time_word, mark_word, text_of, lines_by};
ghost use Rattle.flat_list.specs.Spelling.{target_lines, target_text, header_text, IsEntry, IsTarget, paths, SpellsAs};
ghost use Rattle.whole_lines.specs.Lines.{line, end_text};

use crate::lists::FlatList;
use crate::versions::Version;
use entry_pages::{Entry, Mark};
use itoa::Buffer;
use outside::{Kind, LinkText, Stat};
use path_text::{OutOfMemory, put_escaped, put_escaped_bytes};

// The bytes of a line without its path, if it has a size of six digits and a time, and no number of names.
const LINE_LEN: usize = 28;

/// The list file of a list.
pub(crate) fn encode(list: &FlatList) -> Result<Vec<u8>, OutOfMemory>
    requires ascend { IsStrictlySortedBy path_cmp (paths list.now) }
    requires shaped { All (λ e. is_shaped e ≡ true) list.now }
    ensures { IfOk result (λ bytes. SpellsAs Version.Two bytes.items list.now) }
{
    let mut text = Vec::with_capacity(list.alloc(), expected_len(list))?;
    text.extend_from_slice(b"mfu list 2\n")?;
    let mut cursor = list.cursor()?;
    while cursor.advance()? {
        put_entry(&mut text, cursor.entry())?;
    }
    put_end(&mut text, list.len())?;
    Ok(text)
}

// The bytes of the file if no byte of a path is escaped, or somewhat fewer or more.
fn expected_len(list: &FlatList) -> usize {
    let paths = usize::try_from(list.path_bytes()).unwrap_or(0);
    paths.saturating_add(list.len().saturating_mul(LINE_LEN))
}

fn put_end(text: &mut Vec<u8>, count: usize) -> Result<(), OutOfMemory>
    ensures text { OnOk result (text.new.items ≡ text.old.items ++ line (end_text count)) }
    ensures small { count < 2 ^ 64 }
{
    text.extend_from_slice(b"end ")?;
    put_decimal(text, count as u64)?;
    text.push(b'\n')?;
    Ok(())
}

fn put_entry(text: &mut Vec<u8>, entry: &Entry) -> Result<(), OutOfMemory>
    requires { is_shaped entry.now ≡ true }
    ensures text { OnOk result (text.new.items ≡ text.old.items ++ flat_map (λ l. l) (lines_by entry.now)) }
    ensures entry { OnOk result (IsEntry entry.now) }
{
    put_line(text, entry)?;
    put_target(text, &entry.target)
}

// The line of an entry alone.
fn put_line(text: &mut Vec<u8>, entry: &Entry) -> Result<(), OutOfMemory>
    ensures text { OnOk result (text.new.items ≡ text.old.items ++ line (text_of entry.now)) }
    ensures told { OnOk result (IsWritten entry.now) }
{
    put_stat(text, entry.stat)?;
    put_notes(text, entry.mark, entry.unnamed, entry.far)?;
    put_escaped(text, &entry.path)?;
    text.push(b'\n')?;
    // The text alone shows that a path is UTF-8.
    let _text = entry.path.text();
    Ok(())
}

// The line of a target, if there is one.
fn put_target(text: &mut Vec<u8>, target: &Option<LinkText>) -> Result<(), OutOfMemory>
    ensures text { OnOk result (text.new.items ≡ text.old.items ++ flat_map (λ l. l) (target_lines target.now)) }
    ensures target { OnOk result (IfSome target.now IsTarget) }
{
    match target {
        None => Ok(()),
        Some(target) => put_target_line(text, target),
    }
}

fn put_target_line(text: &mut Vec<u8>, target: &LinkText) -> Result<(), OutOfMemory>
    ensures text { OnOk result (text.new.items ≡ text.old.items ++ line (target_text target.now)) }
    ensures target { OnOk result (IsTarget target.now) }
{
    text.extend_from_slice(b"> ")?;
    put_escaped_bytes(text, target.text().as_bytes())?;
    text.push(b'\n')?;
    Ok(())
}

// The words of a stat, each with a space after it.
fn put_stat(text: &mut Vec<u8>, stat: Option<Stat>) -> Result<(), OutOfMemory>
    ensures text { OnOk result (text.new.items ≡ text.old.items ++ (kind_word (kind_by stat) ++ 32 ∷ (decimal
        (size_by stat) ++ 32 ∷ (time_word (time_of stat) ++ 32 ∷ [])))) }
    ensures size { OnOk result (size_by stat < 2 ^ 64) }
    ensures time { OnOk result (IfSome (time_of stat) (λ seconds. seconds < 2 ^ 64)) }
{
    match stat {
        None => put_words(text, "-", 0, None),
        Some(stat) => put_words(text, kind_word(stat.kind), stat.size, stat.mtime),
    }
}

#[tactic(auto, using(crate::proofs::Encoded::told_joined))]
fn put_words(
    text: &mut Vec<u8>,
    kind: &str,
    size: u64,
    mtime: Option<u64>,
) -> Result<(), OutOfMemory>
    ensures text { OnOk result (text.new.items ≡ text.old.items ++ (kind.now ++ 32 ∷ (decimal size ++ 32 ∷ (time_word mtime ++ 32 ∷ [])))) }
    ensures size { OnOk result (size < 2 ^ 64) }
    ensures time { OnOk result (IfSome mtime (λ seconds. seconds < 2 ^ 64)) }
{
    put_word(text, kind)?;
    put_number(text, size)?;
    put_time(text, mtime)
}

// The words of a mark and of two numbers, each with a space after it. Mostly there is nothing to note.
fn put_notes(text: &mut Vec<u8>, mark: Mark, unnamed: u64, far: u64) -> Result<(), OutOfMemory>
    ensures text { OnOk result (text.new.items ≡ text.old.items ++ (mark_word mark ++ 32 ∷ (decimal unnamed ++ 32 ∷ (decimal far ++ 32 ∷ [])))) }
    ensures unnamed { OnOk result (unnamed < 2 ^ 64) }
    ensures far { OnOk result (far < 2 ^ 64) }
{
    if mark == Mark::Fine && unnamed == 0 && far == 0 {
        text.extend_from_slice(b"ok 0 0 ")?;
        return Ok(());
    }
    put_word(text, mark_word(mark))?;
    put_number(text, unnamed)?;
    put_number(text, far)
}

fn put_time(text: &mut Vec<u8>, mtime: Option<u64>) -> Result<(), OutOfMemory>
    ensures text { OnOk result (text.new.items ≡ text.old.items ++ (time_word mtime ++ 32 ∷ [])) }
    ensures small { OnOk result (IfSome mtime (λ seconds. seconds < 2 ^ 64)) }
{
    match mtime {
        Some(seconds) => put_number(text, seconds),
        None => put_word(text, "-"),
    }
}

fn kind_word(kind: Kind) -> &'static str
    ensures { result.now ≡ kind_word (Some kind) }
{
    match kind {
        Kind::File => "f",
        Kind::Dir => "d",
        Kind::Link => "l",
        Kind::Other => "o",
    }
}

fn mark_word(mark: Mark) -> &'static str
    ensures { result.now ≡ mark_word mark }
{
    match mark {
        Mark::Fine => "ok",
        Mark::StatFailed => "stat",
        Mark::ListFailed => "list",
        Mark::Gone => "gone",
        Mark::Changed => "changed",
    }
}

fn put_word(text: &mut Vec<u8>, word: &str) -> Result<(), OutOfMemory>
    ensures { OnOk result (text.new.items ≡ text.old.items ++ (word.now ++ 32 ∷ [])) }
{
    text.extend_from_slice(word.as_bytes())?;
    text.push(b' ')?;
    Ok(())
}

fn put_number(text: &mut Vec<u8>, n: u64) -> Result<(), OutOfMemory>
    ensures text { OnOk result (text.new.items ≡ text.old.items ++ (decimal n ++ 32 ∷ [])) }
    ensures small { n < 2 ^ 64 }
{
    put_decimal(text, n)?;
    text.push(b' ')?;
    Ok(())
}

fn put_decimal(text: &mut Vec<u8>, n: u64) -> Result<(), OutOfMemory>
    ensures { OnOk result (text.new.items ≡ text.old.items ++ decimal n) }
{
    text.extend_from_slice(Buffer::new().format(n).as_bytes())?;
    Ok(())
}
