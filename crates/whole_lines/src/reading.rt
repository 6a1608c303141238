//! Reads numbers, paths and the count of an end line from words.
ghost use Rattle.std.specs.Prelude.{◌≡◌, ◌+◌, ◌<◌, ◌≤◌, IfOk, IfSome, Some, None, true, false, length};
ghost use Rattle.std.specs.Option.{option_map};
ghost use Rattle.std.specs.Str.{IsUtf8};
ghost use Rattle.path_text.specs.Escape.{reading};
ghost use Rattle.whole_lines.specs.Words.{cut, number_of, word_at, ok_of, path_from, end_at};
ghost use Rattle.whole_lines.specs.Private.{LeadsNumber, IsNumberWord, AreDigits};

use crate::cutting::cut;
use path_text::{EscapeError, OutOfMemory, Path, unescape};
use std::alloc::Global;

const MAX_DIGITS: usize = 19;

/// Reads a number of 64 bits in decimal, without leading zeros.
#[tactic(auto, using(crate::proofs::Numbers::no_text))]
pub fn number_of(word: &[u8]) -> Option<u64>
    ensures { result ≡ number_of word.now }
{
    if !leads_number(word) {
        return None;
    }
    match str::from_utf8(word) {
        Ok(text) => parsed(text),
        Err(_) => None,
    }
}

#[tactic(auto, using(crate::proofs::Numbers::no_lead))]
fn leads_number(word: &[u8]) -> bool
    ensures yes { result ≡ true → LeadsNumber word.now }
    ensures no { result ≡ false → number_of word.now ≡ None }
{
    if word.is_empty() {
        return false;
    }
    if word[0] == b'+' {
        return false;
    }
    if word[0] == b'0' {
        return word.len() == 1;
    }
    true
}

fn parsed(text: &str) -> Option<u64>
    requires { LeadsNumber text.now }
    ensures { result ≡ number_of text.now }
{
    text.parse::<u64>().ok()
}

// Digits at the front of a text: their count, and the number that they write.
#[derive(Clone, Copy, Drop)]
pub(crate) struct Digits {
    value: u64,
    len: usize,
}

// The number of at most 19 digits that a space ends; `None` if the first word is not a number, or is longer.
#[tactic(auto, using(crate::proofs::Digits::ended))]
fn digits_word(text: &[u8]) -> Option<Digits>
    ensures { IfSome result (IsNumberWord text.now) }
{
    let digits = digits_of(text);
    if digits.len == 0 || digits.len >= text.len() || text[digits.len] != b' ' {
        return None;
    }
    if text[0] == b'0' && digits.len > 1 {
        return None;
    }
    Some(digits)
}

// The first digits, at most 19: this is the most that always fits in 64 bits.
fn digits_of(text: &[u8]) -> Digits
    ensures { AreDigits text.now result }
{
    let mut value = 0u64;
    let mut len = 0;
    while len < MAX_DIGITS && len < text.len() && text[len].is_ascii_digit() {
        value = value * 10 + (text[len] - b'0') as u64;
        len += 1;
    }
    Digits { value, len }
}

/// Reads the number before a space, and gives the text after the space, if the number has at most 19 digits. `None` says
/// nothing of the first word.
pub fn leading_number(text: &[u8]) -> Option<(u64, &[u8])>
    ensures { IfSome result (λ found. word_at number_of text.now ≡ Some (found.0, found.1.now)) }
{
    let digits = digits_word(text)?;
    Some((digits.value, &text[digits.len + 1..]))
}

/// Reads the number before a space, and gives the text after the space.
#[tactic(auto, unfolding(crate::specs::Words::word_at))]
pub fn number_at(text: &[u8]) -> Option<(u64, &[u8])>
    ensures { option_map (λ found. (found.0, found.1.now)) result ≡ word_at number_of text.now }
{
    if let Some(digits) = digits_word(text) {
        return Some((digits.value, &text[digits.len + 1..]));
    }
    let (word, rest) = cut(text, b' ')?;
    Some((number_of(word)?, rest))
}

/// Reads the path that a word writes; `None` if the word writes no path.
#[tactic(auto, using(crate::proofs::Numbers::path_texts))]
pub fn path_from(alloc: Global, word: &[u8]) -> Result<Option<Path>, OutOfMemory>
    ensures read { IfOk result (λ path. path ≡ path_from word.now) }
    ensures utf8 { IfOk result (λ path. IfSome path (λ p. IsUtf8 p)) }
{
    match str::from_utf8(word) {
        Ok(text) => path_of(alloc, text),
        Err(_) => Ok(None),
    }
}

fn path_of(alloc: Global, text: &str) -> Result<Option<Path>, OutOfMemory>
    ensures read { IfOk result (λ path. path ≡ ok_of (reading text.now)) }
    ensures utf8 { IfOk result (λ path. IfSome path (λ p. IsUtf8 p)) }
{
    match unescape(alloc, text) {
        Ok(path) => {
            // Only the contract of `text` says that a path is UTF-8.
            let _text = path.text();
            Ok(Some(path))
        }
        Err(EscapeError::OutOfMemory) => Err(OutOfMemory),
        Err(EscapeError::BadEscape(_)) => Ok(None),
        Err(EscapeError::Path(_)) => Ok(None),
    }
}

/// Reads the count of an end line; `None` if this is not the text of an end line.
#[tactic(auto, unfolding(crate::specs::Words::end_at))]
pub fn end_at(text: &[u8]) -> Option<u64>
    ensures { result ≡ end_at text.now }
{
    let (word, count) = cut(text, b' ')?;
    if word != b"end".as_slice() {
        return None;
    }
    number_of(count)
}
