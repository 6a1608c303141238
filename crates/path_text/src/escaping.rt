//! Writes a path as printable text.
ghost use Rattle.std.specs.Prelude.{◌≡◌, ◌+◌, ◌++◌, ◌∷◌, [], ◌<◌, ◌≤◌, false, true, length, take, drop, slice_index, IfOk, IfSome, IfNone, OnOk, OnErr, List, ℕ};
ghost use Rattle.std.specs.List.{list_any, position, position_or_len};
ghost use Rattle.path_text.specs.Escape.{hex_digit, is_escaped, escaped, escape};

use crate::errors::OutOfMemory;
use crate::paths::Path;
use std::alloc::{AllocError, Global};

// The number of bytes that are read together.
const BLOCK: usize = 16;

/// Writes the path in printable text. Each byte below a space, 0x7F and the backslash becomes `\x` and two upper-case
/// hexadecimal digits. Every other byte is itself.
pub fn escape(alloc: Global, path: &Path) -> Result<Vec<u8>, OutOfMemory>
    ensures { IfOk result (λ text. text.items ≡ escape path.now) }
{
    let mut text = Vec::new(alloc);
    put_escaped(&mut text, path)?;
    Ok(text)
}

/// Appends the text that [`escape`] gives, and takes no memory beside that of `text`. An error leaves `text` unchanged.
pub fn put_escaped(text: &mut Vec<u8>, path: &Path) -> Result<(), OutOfMemory>
    ensures ok { OnOk result (text.new.items ≡ text.old.items ++ escape path.now) }
    ensures err { OnErr result (text.new.items ≡ text.old.items) }
{
    put_escaped_bytes(text, path.text().as_bytes())
}

/// Appends bytes in printable text, as [`escape`] writes those of a path. An error leaves `text` unchanged.
pub fn put_escaped_bytes(text: &mut Vec<u8>, bytes: &[u8]) -> Result<(), OutOfMemory>
    ensures ok { OnOk result (text.new.items ≡ text.old.items ++ escape bytes.now) }
    ensures err { OnErr result (text.new.items ≡ text.old.items) }
{
    let len = text.len();
    let put = append_escaped(text, bytes);
    if put.is_err() {
        text.truncate(len);
    }
    put
}

// Appends each byte in printable text. After an error, the first of them may follow the old text.
fn append_escaped(text: &mut Vec<u8>, bytes: &[u8]) -> Result<(), OutOfMemory>
    ensures ok { OnOk result (text.new.items ≡ text.old.items ++ escape bytes.now) }
    ensures kept { take (length text.old.items) text.new.items ≡ text.old.items }
{
    let mut rest = bytes;
    while let Some(at) = first_escaped(rest) {
        text.extend_from_slice(&rest[..at])?;
        text.extend_from_slice(&escape_of(rest[at]))?;
        rest = &rest[at + 1..];
    }
    text.extend_from_slice(rest)?;
    Ok(())
}

/// The index of the first byte that is written as an escape.
pub(crate) fn first_escaped(bytes: &[u8]) -> Option<usize>
    ensures found { IfSome result (λ k. (k < length bytes.now) × (is_escaped (slice_index bytes.now k) ≡ true)
        × (escape bytes.now ≡ take k bytes.now ++ (escaped (slice_index bytes.now k) ++ escape (drop (k + 1) bytes.now)))) }
    ensures none { IfNone result (escape bytes.now ≡ bytes.now) }
{
    escaped_at(bytes)
}

fn escaped_at(bytes: &[u8]) -> Option<usize>
    ensures { result ≡ position is_escaped bytes.now }
{
    let plain = plain_blocks(bytes);
    match next_escaped(&bytes[plain..]) {
        Some(at) => Some(plain + at),
        None => None,
    }
}

// Counts the bytes at the front, in whole blocks, that are written as themselves.
fn plain_blocks(bytes: &[u8]) -> usize
    ensures within { result ≤ length bytes.now }
    ensures plain { result ≤ position_or_len is_escaped bytes.now }
{
    let mut at = 0;
    while bytes.len() - at >= BLOCK {
        if has_escaped(&bytes[at..at + BLOCK]) {
            return at;
        }
        at += BLOCK;
    }
    at
}

// Whether one of the bytes is written as an escape. It reads each byte, whatever the others are, so that a processor can
// read many at once.
fn has_escaped(bytes: &[u8]) -> bool
    ensures { result ≡ list_any is_escaped bytes.now }
{
    let mut found = false;
    for b in bytes {
        found |= is_escaped(*b);
    }
    found
}

fn next_escaped(bytes: &[u8]) -> Option<usize>
    ensures { result ≡ position is_escaped bytes.now }
{
    bytes.iter().position(|b| is_escaped(*b))
}

pub fn is_escaped(b: u8) -> bool
    ensures { result ≡ is_escaped b }
{
    b < b' ' || b == 0x7F || b == b'\\'
}

pub fn escape_of(b: u8) -> [u8; 4]
    requires { is_escaped b ≡ true }
    ensures { result ≡ escaped b }
{
    [b'\\', b'x', hex_digit(b / 16), hex_digit(b % 16)]
}

fn hex_digit(n: u8) -> u8
    requires { n < 16 }
    ensures { result ≡ hex_digit n }
{
    if n < 10 { b'0' + n } else { b'A' - 10 + n }
}
