//! Says why bytes are not a path.
ghost use Rattle.std.specs.Prelude.{◌≡◌, ◌==◌, ◌+◌, ◌<◌, ◌∷◌, [], length, take, drop, IfSome, IfNone};
ghost use Rattle.std.specs.List.{slice_split, list_all, position};
ghost use Rattle.path_text.specs.Path.{name_fault, first_fault, is_slash, refusal};

use crate::errors::PathError;
use crate::paths::MAX_PATH;

/// Why the bytes of a text are not a path; `None` if they are one.
pub fn refusal(text: &[u8]) -> Option<PathError>
    ensures { result ≡ refusal text.now }
{
    match text.split_first() {
        None => Some(PathError::NotAbsolute),
        Some((first, bytes)) => {
            if *first != b'/' {
                return Some(PathError::NotAbsolute);
            }
            if bytes.len() >= MAX_PATH {
                return Some(PathError::TooLong);
            }
            if bytes.is_empty() {
                return None;
            }
            first_fault(bytes)
        }
    }
}

/// Why bytes that hold no `/` are not a name; `None` if they are one.
pub fn name_fault(name: &[u8]) -> Option<PathError>
    ensures { result ≡ name_fault name.now }
{
    if name.is_empty() {
        return Some(PathError::EmptyName);
    }
    if name.len() <= 2 && is_dots(name) {
        return Some(PathError::DotName);
    }
    if name.contains(&0) {
        return Some(PathError::Nul);
    }
    None
}

pub fn is_dots(name: &[u8]) -> bool
    ensures { result ≡ list_all (λ b. b == 46) name.now }
{
    name.iter().all(|b| *b == b'.')
}

// The fault of the first bad name of `bytes`. Each `/` separates two names.
fn first_fault(bytes: &[u8]) -> Option<PathError>
    ensures { result ≡ first_fault (slice_split is_slash bytes.now) }
{
    let mut rest = bytes;
    while let Some(end) = name_end(rest) {
        let fault = name_fault(&rest[..end]);
        if fault.is_some() {
            return fault;
        }
        rest = &rest[end + 1..];
    }
    name_fault(rest)
}

/// The index at which the first name ends, if another name follows.
pub fn name_end(bytes: &[u8]) -> Option<usize>
    ensures found { IfSome result (λ k. (k < length bytes.now)
        × (slice_split is_slash bytes.now ≡ take k bytes.now ∷ slice_split is_slash (drop (k + 1) bytes.now))) }
    ensures last { IfNone result (slice_split is_slash bytes.now ≡ bytes.now ∷ []) }
{
    slash_at(bytes)
}

fn slash_at(bytes: &[u8]) -> Option<usize>
    ensures { result ≡ position is_slash bytes.now }
{
    bytes.iter().position(|b| *b == b'/')
}
