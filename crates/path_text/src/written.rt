//! Says from a printable text why the bytes that it means are not a path. So a refusal takes no memory.
ghost use Rattle.std.specs.Prelude.{◌≡◌, ◌==◌, length, take, drop};
ghost use Rattle.std.specs.List.{count_by, slice_split};
ghost use Rattle.path_text.specs.Path.{is_slash, refusal};
ghost use Rattle.path_text.specs.Order.{has_zero};
ghost use Rattle.path_text.specs.Escape.{good_len, unescaped};
ghost use Rattle.path_text.specs.Written.{is_backslash, begins_nul, tells_nul, written_fault, first_written};

use crate::errors::PathError;
use crate::faults::{is_dots, name_end};
use crate::paths::MAX_PATH;

// The byte 0 in printable text.
const NUL: [u8; 4] = [b'\\', b'x', b'0', b'0'];

/// Why the bytes that a text without a bad byte means are not a path; `None` if they are one.
pub fn told_refusal(text: &[u8]) -> Option<PathError>
    requires { good_len text.now ≡ length text.now }
    ensures { result ≡ refusal (unescaped text.now) }
{
    match text.split_first() {
        None => Some(PathError::NotAbsolute),
        Some((first, bytes)) => {
            if *first != b'/' {
                return Some(PathError::NotAbsolute);
            }
            if told_len(text) > MAX_PATH {
                return Some(PathError::TooLong);
            }
            if bytes.is_empty() {
                return None;
            }
            first_written(bytes)
        }
    }
}

/// Counts the bytes that a printable text without a bad byte means.
pub fn told_len(text: &[u8]) -> usize
    requires { good_len text.now ≡ length text.now }
    ensures { result ≡ length (unescaped text.now) }
{
    text.len() - 3 * backslashes(text)
}

fn backslashes(text: &[u8]) -> usize
    ensures { result ≡ count_by is_backslash text.now }
{
    text.iter().filter(|b| **b == b'\\').count()
}

// The fault of the first bad name of `bytes`. Each `/` separates two names, which are in printable text.
fn first_written(bytes: &[u8]) -> Option<PathError>
    ensures { result ≡ first_written (slice_split is_slash bytes.now) }
{
    let mut rest = bytes;
    while let Some(end) = name_end(rest) {
        let fault = written_fault(&rest[..end]);
        if fault.is_some() {
            return fault;
        }
        rest = &rest[end + 1..];
    }
    written_fault(rest)
}

fn written_fault(name: &[u8]) -> Option<PathError>
    ensures { result ≡ written_fault name.now }
{
    if name.is_empty() {
        return Some(PathError::EmptyName);
    }
    if name.len() <= 2 && is_dots(name) {
        return Some(PathError::DotName);
    }
    if tells_nul(name) {
        return Some(PathError::Nul);
    }
    None
}

/// Whether one of the bytes that a printable text without a bad byte means is 0.
#[tactic(auto, using(crate::proofs::Told::zero_told))]
pub fn tells_zero(text: &[u8]) -> bool
    requires { good_len text.now ≡ length text.now }
    ensures { result ≡ has_zero (unescaped text.now) }
{
    tells_nul(text)
}

fn tells_nul(name: &[u8]) -> bool
    ensures { result ≡ tells_nul name.now }
{
    for at in 0..name.len() {
        if begins_nul(&name[at..]) {
            return true;
        }
    }
    false
}

fn begins_nul(text: &[u8]) -> bool
    ensures { result ≡ begins_nul text.now }
{
    text.starts_with(&NUL)
}
