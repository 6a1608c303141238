//! Reads a path from printable text.
ghost use Rattle.std.specs.Prelude.{◌≡◌, ◌≢◌, ◌+◌, ◌*◌, ◌&&◌, not, ◌<◌, ◌≤◌, ◌⊎◌, ◌∷◌, ◌++◌, length, take, drop, slice_index, IfOk, IfErr, IsErrOf, IsOk, Ok, Err, IsTrue, List, ℕ};
ghost use Rattle.std.specs.String.{string_bytes};
ghost use Rattle.path_text.specs.Escape.{hex_value, told_byte, is_escaped, begins_escape, good_len, unescaped, escape, reading};

use crate::errors::{EscapeError, PathError};
use crate::escaping::{escape_of, first_escaped, is_escaped};
use crate::paths::Path;
use crate::written::told_refusal;
use std::alloc::{AllocError, Global};

/// Reads the path for which [`escape`](crate::escape) writes this text. It checks the text before it takes memory. If each
/// byte of the text means itself, the text is that of the path; this test reads many bytes at a time.
#[tactic(auto, using(crate::proofs::Refused::never_memory))]
pub fn unescape(alloc: Global, text: &str) -> Result<Path, EscapeError>
    ensures ok { IfOk result (λ path. reading text.now ≡ Ok path) }
    ensures refused { IfErr result (λ e. (reading text.now ≡ Err e) ⊎ (e ≡ EscapeError.OutOfMemory)) }
    ensures fault { IfErr result (λ e. e ≢ EscapeError.Path PathError.OutOfMemory) }
    ensures memory { IsErrOf result EscapeError.OutOfMemory → IsOk (reading text.now) }
{
    if first_escaped(text.as_bytes()).is_none() {
        return plain(alloc, text);
    }
    let good = good_len(text.as_bytes());
    if good < text.len() {
        return Err(EscapeError::BadEscape(good));
    }
    if let Some(fault) = told_refusal(text.as_bytes()) {
        return Err(EscapeError::Path(fault));
    }
    let bytes = unescaped(alloc, text)?;
    Ok(Path::of_text(bytes))
}

// The path whose text is this text, in which each byte means itself.
#[tactic(auto, using(crate::proofs::Readable::reads_itself, crate::proofs::Refused::never_memory))]
fn plain(alloc: Global, text: &str) -> Result<Path, EscapeError>
    requires { escape text.now ≡ text.now }
    ensures ok { IfOk result (λ path. reading text.now ≡ Ok path) }
    ensures refused { IfErr result (λ e. (reading text.now ≡ Err e) ⊎ (e ≡ EscapeError.OutOfMemory)) }
    ensures fault { IfErr result (λ e. e ≢ EscapeError.Path PathError.OutOfMemory) }
    ensures memory { IsErrOf result EscapeError.OutOfMemory → IsOk (reading text.now) }
{
    match Path::parse(alloc, text) {
        Ok(path) => Ok(path),
        Err(PathError::OutOfMemory) => Err(EscapeError::OutOfMemory),
        Err(fault) => Err(EscapeError::Path(fault)),
    }
}

/// Counts the bytes of a printable text before the first bad one. A bad byte is raw and must be escaped, or is a backslash
/// that begins no escape.
pub fn good_len(text: &[u8]) -> usize
    ensures good { result ≡ good_len text.now }
    ensures within { result ≤ length text.now }
{
    for at in 0..text.len() {
        if is_bad(&text[at..]) {
            return at;
        }
    }
    text.len()
}

// Whether the first byte is raw and must be escaped, or is a backslash that begins no escape.
fn is_bad(text: &[u8]) -> bool
    requires { 0 < length text.now }
    ensures { result ≡ (is_escaped (slice_index text.now 0) && not (begins_escape text.now)) }
{
    is_escaped(text[0]) && !begins_escape(text)
}

fn begins_escape(text: &[u8]) -> bool
    ensures { result ≡ begins_escape text.now }
{
    if text.len() < 4 {
        return false;
    }
    let told = told_byte(text[2], text[3]);
    told < 128 && is_escaped(told as u8) && text.starts_with(&escape_of(told as u8))
}

// The byte that two digits write; a number above 255 is possible if they are not digits.
fn told_byte(high: u8, low: u8) -> u16
    ensures { result ≡ 16 * hex_value high + hex_value low }
{
    16 * hex_value(high) as u16 + hex_value(low) as u16
}

fn hex_value(digit: u8) -> u8
    ensures { result ≡ hex_value digit }
{
    if digit < 58 {
        digit.saturating_sub(b'0')
    } else {
        digit - (b'A' - 10)
    }
}

/// The text that a printable text without a bad byte means.
pub fn unescaped(alloc: Global, text: &str) -> Result<String, AllocError>
    requires { good_len text.now ≡ length text.now }
    ensures { IfOk result (λ bytes. string_bytes bytes ≡ unescaped text.now) }
{
    let mut bytes = String::with_capacity(alloc, text.len())?;
    let mut rest = text;
    while let Some((plain, behind)) = rest.split_once('\\') {
        bytes.push_str(plain)?;
        bytes.push(char::from(told(behind)))?;
        rest = &behind[3..];
    }
    bytes.push_str(rest)?;
    Ok(bytes)
}

// The byte that `x` and two digits after a backslash write.
fn told(behind: &str) -> u8
    requires { IsTrue (begins_escape (92 ∷ behind.now)) }
    ensures told { result ≡ told_byte (92 ∷ behind.now) }
    ensures ascii { result < 128 }
{
    let digits = behind.as_bytes();
    told_byte(digits[1], digits[2]) as u8
}
