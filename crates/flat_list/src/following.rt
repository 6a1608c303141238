//! Reads the path of a line of a list file that comes after the path of the line before it.
//!
//! In a list a path mostly has all names of the one before it but the last. Suppose that it does, and that the text is
//! printable ASCII in which each byte is itself. Then only the last name is looked at, and the path before is overwritten. Our
//! own.
ghost use Rattle.std.specs.Prelude.{◌≡◌, true, IfOk, IfSome};
ghost use Rattle.std.specs.List.{list_all};
ghost use Rattle.std.specs.Str.{IsUtf8};
ghost use Rattle.flat_list.specs.Private.Reading.{path_behind, is_plain, IsFront, IsNear, IsPlainName};

use memchr::memrchr;
use path_text::{MAX_PATH, OutOfMemory, Path, common_len, compare, reading_undoes_writing};
use std::alloc::Global;
use whole_lines::path_from;

/// The path that a word has, if there is one and it comes after another path, whose memory it takes.
#[tactic(auto, unfolding(crate::specs::Private::Reading::path_behind))]
pub(crate) fn path_behind(
    alloc: Global,
    before: Path,
    word: &[u8],
) -> Result<Option<Path>, OutOfMemory>
    ensures read { IfOk result (λ found. found ≡ path_behind before word.now) }
    ensures utf8 { IfOk result (λ found. IfSome found (λ path. IsUtf8 path)) }
{
    if let Some(at) = last_name(&before, word) {
        return moved(before, word, at);
    }
    let Some(path) = path_from(alloc, word)? else {
        return Ok(None);
    };
    if !before.cmp(&path).is_lt() {
        return Ok(None);
    }
    Ok(Some(path))
}

// The path that a word has, if the path before has all of it up to a place, and if it comes after that path.
fn moved(before: Path, word: &[u8], at: usize) -> Result<Option<Path>, OutOfMemory>
    requires { IsNear before word.now at }
    ensures read { IfOk result (λ found. found ≡ path_behind before word.now) }
    ensures utf8 { IfOk result (λ found. IfSome found (λ path. IsUtf8 path)) }
{
    // This law says that each byte is itself.
    reading_undoes_writing();
    if !compare(&before.text().as_bytes()[at..], &word[at..]).is_lt() {
        return Ok(None);
    }
    let mut path = before;
    path.rewrite(at, &word[at..])?;
    Ok(Some(path))
}

// Where the last name of a word begins, with the slash before it. All before that place has to be in the path before, and each
// byte has to be printable ASCII that is itself.
fn last_name(before: &Path, word: &[u8]) -> Option<usize>
    ensures { IfSome result (IsNear before.now word.now) }
{
    let at = memrchr(b'/', word)?;
    if word.len() > MAX_PATH || !are_plain(word) || !is_plain_name(&word[at + 1..]) {
        return None;
    }
    let text = before.text();
    if !is_front(text.as_bytes(), &word[..at]) {
        return None;
    }
    Some(at)
}

// Whether each byte is printable ASCII and not a backslash. It looks at each byte, whatever the others are, so a processor may
// look at many at once.
fn are_plain(word: &[u8]) -> bool
    ensures { result ≡ list_all is_plain word.now }
{
    let mut plain = true;
    for b in word {
        plain &= is_plain(*b);
    }
    plain
}

fn is_plain(b: u8) -> bool
    ensures { result ≡ is_plain b }
{
    b' ' <= b && b < 0x7F && b != b'\\'
}

// Whether the length or the first byte of a name shows that it is neither `.` nor `..`.
fn is_plain_name(name: &[u8]) -> bool
    ensures { result ≡ true → IsPlainName name.now }
{
    name.len() > 2 || (name.len() > 0 && name[0] != b'.')
}

// Whether a path begins with one or more of another path's names.
#[tactic(auto, using(crate::proofs::Near::front))]
fn is_front(path: &[u8], names: &[u8]) -> bool
    ensures { result ≡ true → IsFront path.now names.now }
{
    let len = names.len();
    if len <= 1 || common_len(names, path) != len {
        return false;
    }
    path.len() == len || path[len] == b'/'
}
