//! Paths: making, comparing, moving and rewriting them.
ghost use Rattle.std.specs.Prelude.{◌≡◌, ◌≢◌, ◌==◌, ◌+◌, ◌++◌, ◌<◌, ◌≤◌, ◌⊎◌, if◌then◌else◌, ◌∷◌, length, take, drop, true, OnErr, IsTrue, IfOk, IfErr, OnOk, IsErrOf, Some, None};
ghost use Rattle.std.specs.List.{slice_split};
ghost use Rattle.std.specs.String.{string_bytes};
ghost use Rattle.std.specs.Str.{is_utf8};
ghost use Rattle.std.specs.Vec.{vec_len, vec_capacity};
ghost use Rattle.path_text.specs.Path.{is_slash, first_fault, refusal, is_name, joined, parent_of, base_of, level_of};
ghost use Rattle.path_text.specs.Order.{path_cmp, is_under, is_within};
ghost use Rattle.path_text.specs.Graft.{below_of, grafted};

use crate::errors::{JoinError, OutOfMemory, PathError};
use crate::faults::{name_fault, refusal};
use crate::names::{around_last_slash, behind_front, names_below, slashes};
use crate::ordering::compare;
use std::alloc::{AllocError, Global};
use std::cmp::Ordering;
use std::marker::Model;
use std::mem;

/// The most bytes that a path has.
pub const MAX_PATH: usize = 4095;

/// An absolute path. A contract sees it as the list of its bytes.
#[derive(Debug, Drop)]
pub struct Path {
    text: String,
}

impl Model for Path {
    ghost use Rattle.std.specs.Prelude.{◌≡◌, ◌+◌, List, ℕ, None};
    ghost use Rattle.std.specs.String.{string_bytes};

    ghost Value = { List ℕ };

    ghost use Rattle.path_text.specs.Path.{refusal};

    ghost view = { λ p. string_bytes p.text };

    ghost invariant = { λ p. refusal (string_bytes p.text) ≡ None };
}

impl Path {
    /// Makes the path of a text. It checks the text before it takes memory.
    pub fn parse(alloc: Global, text: &str) -> Result<Path, PathError>
        ensures ok { IfOk result (λ path. path ≡ text.now) }
        ensures valid { OnOk result (refusal text.now ≡ None) }
        ensures refused { IfErr result (λ e. (refusal text.now ≡ Some e) ⊎ ((e ≡ PathError.OutOfMemory) × (refusal text.now ≡ None))) }
    {
        if let Some(fault) = refusal(text.as_bytes()) {
            return Err(fault);
        }
        match String::from_str(alloc, text) {
            Ok(text) => Ok(Path { text }),
            Err(_) => Err(PathError::OutOfMemory),
        }
    }

    /// The text of the path, which is UTF-8.
    pub fn text(&self) -> &str
        ensures text { result.now ≡ self.now }
        ensures valid { refusal self.now ≡ None }
    {
        self.text.as_str()
    }

    /// Copies the path.
    pub fn copy(&self) -> Result<Path, OutOfMemory>
        ensures { IfOk result (λ path. path ≡ self.now) }
    {
        let text = self.text.clone()?;
        Ok(Path { text })
    }

    /// Makes the path of a child. It checks the length before it takes memory.
    #[tactic(auto, using(crate::proofs::Joined::name_alone))]
    pub fn join(&self, name: &str) -> Result<Path, JoinError>
        requires { IsTrue (is_name name.now) }
        ensures ok { IfOk result (λ path. path ≡ joined self.now name.now) }
        ensures short { OnOk result (length (joined self.now name.now) ≤ 4095) }
        ensures too_long { IsErrOf result JoinError.TooLong → 4095 < length (joined self.now name.now) }
        ensures memory { IsErrOf result JoinError.OutOfMemory → length (joined self.now name.now) ≤ 4095 }
    {
        self.extended(name)
    }

    // The path with more names, one or several with slashes between them.
    #[tactic(auto, using(crate::proofs::Joined::made))]
    fn extended(&self, names: &str) -> Result<Path, JoinError>
        requires { first_fault (slice_split is_slash names.now) ≡ None }
        ensures ok { IfOk result (λ path. path ≡ joined self.now names.now) }
        ensures short { OnOk result (length (joined self.now names.now) ≤ 4095) }
        ensures too_long { IsErrOf result JoinError.TooLong → 4095 < length (joined self.now names.now) }
        ensures memory { IsErrOf result JoinError.OutOfMemory → length (joined self.now names.now) ≤ 4095 }
    {
        let len = joined_len(self.text.as_str(), names);
        if len > MAX_PATH {
            return Err(JoinError::TooLong);
        }
        let text = joined_text(&self.text, names, len)?;
        Ok(Path { text })
    }

    /// The path of the directory that has this path; `None` for `/`.
    pub fn parent(&self) -> Result<Option<Path>, OutOfMemory>
        ensures { IfOk result (λ parent. parent ≡ (if length self.now == 1 then None else Some (parent_of self.now))) }
    {
        if self.text.len() == 1 {
            return Ok(None);
        }
        let before = before_base(self.text.as_str());
        let text = String::from_str(*self.text.allocator(), before)?;
        Ok(Some(Path { text }))
    }

    /// The last name, which is empty for `/`.
    #[tactic(auto, using(crate::proofs::Parts::base_named, crate::proofs::Parts::never_bare))]
    pub fn base(&self) -> &str
        ensures base { result.now ≡ base_of self.now }
        ensures name { length self.now ≢ 1 → IsTrue (is_name (base_of self.now)) }
    {
        match around_last_slash(self.text.as_str()) {
            Some((_, base)) => base,
            None => self.text.as_str(),
        }
    }

    /// Counts the names of the path.
    #[tactic(auto, using(crate::proofs::Parts::slashes_are_names))]
    pub fn level(&self) -> u32
        ensures { result ≡ level_of self.now }
    {
        if self.text.len() == 1 {
            0
        } else {
            slashes(self.text.as_bytes()) as u32
        }
    }

    /// Whether the path has the names of `top` and at least one more after them.
    pub fn is_under(&self, top: &Path) -> bool
        ensures { result ≡ is_under self.now top.now }
    {
        match behind_front(self.text.as_str(), top.text.as_str()) {
            Some(names) => !names.is_empty(),
            None => false,
        }
    }

    /// Whether the path is `top`, or is under it.
    pub fn is_within(&self, top: &Path) -> bool
        ensures { result ≡ is_within self.now top.now }
    {
        self == top || self.is_under(top)
    }

    /// The path that this one would be if `top` were `/`. This path is `top` or is under it.
    #[tactic(auto, using(crate::proofs::Parts::below_made))]
    pub fn below(&self, top: &Path) -> Result<Path, OutOfMemory>
        requires { IsTrue (is_within self.now top.now) }
        ensures { IfOk result (λ path. path ≡ below_of self.now top.now) }
    {
        let names = names_below(self.text.as_str(), top.text.as_str());
        let text = slash_and(*self.text.allocator(), names)?;
        Ok(Path { text })
    }

    /// Moves the path `rest` from `/` to `top`, which undoes [`Path::below`]. It checks the length before it takes memory.
    pub fn graft(top: &Path, rest: &Path) -> Result<Path, JoinError>
        ensures ok { IfOk result (λ path. path ≡ grafted top.now rest.now) }
        ensures short { OnOk result (length (grafted top.now rest.now) ≤ 4095) }
        ensures too_long { IsErrOf result JoinError.TooLong → 4095 < length (grafted top.now rest.now) }
        ensures memory { IsErrOf result JoinError.OutOfMemory → length (grafted top.now rest.now) ≤ 4095 }
    {
        if rest.text.len() == 1 {
            let text = top.text.clone()?;
            return Ok(Path { text });
        }
        top.extended(names(rest.text.as_str()))
    }

    /// Replaces all after the first `shared` bytes by `rest`; the two together must be a path. It rewrites the text in place.
    /// An error leaves the path unchanged.
    pub fn rewrite(&mut self, shared: usize, rest: &[u8]) -> Result<(), OutOfMemory>
        requires path { refusal (take shared self.old ++ rest.now) ≡ None }
        requires text { is_utf8 (take shared self.old ++ rest.now) ≡ true }
        ensures ok { OnOk result (self.new ≡ take shared self.old ++ rest.now) }
        ensures err { OnErr result (self.new ≡ self.old) }
    {
        rewrite_text(&mut self.text, shared, rest)
    }

    // Makes the path of a text. It takes the text and does not copy it.
    pub(crate) fn of_text(text: String) -> Path
        requires { refusal (string_bytes text) ≡ None }
        ensures { result ≡ string_bytes text }
    {
        Path { text }
    }
}

// Replaces all after the first `shared` bytes of a text by `rest`.
fn rewrite_text(text: &mut String, shared: usize, rest: &[u8]) -> Result<(), OutOfMemory>
    requires { is_utf8 (take shared (string_bytes text.old) ++ rest.now) ≡ true }
    ensures ok { OnOk result (string_bytes text.new ≡ take shared (string_bytes text.old) ++ rest.now) }
    ensures err { OnErr result (string_bytes text.new ≡ string_bytes text.old) }
{
    let mut bytes = bytes_out(text);
    let put = rewrite_bytes(&mut bytes, shared, rest);
    *text = unsafe { String::from_utf8_unchecked(bytes) };
    put
}

// Takes the bytes out of a text and leaves the text empty.
fn bytes_out(text: &mut String) -> Vec<u8>
    ensures bytes { result.items ≡ string_bytes text.old }
    ensures utf8 { is_utf8 result.items ≡ true }
{
    let empty = String::new(*text.allocator());
    mem::replace(text, empty).into_bytes()
}

// Replaces all after the first `shared` bytes by `rest`. An error leaves the bytes unchanged.
fn rewrite_bytes(bytes: &mut Vec<u8>, shared: usize, rest: &[u8]) -> Result<(), OutOfMemory>
    requires whole { is_utf8 bytes.old.items ≡ true }
    requires made { is_utf8 (take shared bytes.old.items ++ rest.now) ≡ true }
    ensures utf8 { is_utf8 bytes.new.items ≡ true }
    ensures ok { OnOk result (bytes.new.items ≡ take shared bytes.old.items ++ rest.now) }
    ensures err { OnErr result (bytes.new.items ≡ bytes.old.items) }
{
    bytes.reserve(rest.len())?;
    bytes.truncate(shared);
    extend_reserved(bytes, rest);
    Ok(())
}

// Appends bytes that fit in the capacity.
fn extend_reserved(bytes: &mut Vec<u8>, rest: &[u8])
    requires { vec_len bytes.old + length rest.now ≤ vec_capacity bytes.old }
    ensures { bytes.new.items ≡ bytes.old.items ++ rest.now }
{
    let Ok(()) = bytes.extend_from_slice(rest) else {
        unreachable!()
    };
}

// The names of a path other than `/`.
#[tactic(auto, using(crate::proofs::Joined::names_alone))]
fn names(path: &str) -> &str
    requires path { refusal path.now ≡ None }
    requires named { length path.now ≢ 1 }
    ensures names { result.now ≡ drop 1 path.now }
    ensures fine { first_fault (slice_split is_slash result.now) ≡ None }
{
    &path[1..]
}

#[tactic(auto, using(crate::proofs::Parts::before_made))]
fn before_base(path: &str) -> &str
    requires { refusal path.now ≡ None }
    ensures parent { result.now ≡ parent_of path.now }
    ensures path { refusal result.now ≡ None }
{
    match around_last_slash(path) {
        Some((before, _)) if !before.is_empty() => before,
        _ => "/",
    }
}

fn slash_and(alloc: Global, names: &str) -> Result<String, AllocError>
    ensures { IfOk result (λ text. string_bytes text ≡ 47 ∷ names.now) }
{
    let mut text = String::with_capacity(alloc, names.len() + 1)?;
    text.push('/')?;
    text.push_str(names)?;
    Ok(text)
}

#[tactic(auto, using(crate::proofs::Joined::joined_length))]
fn joined_len(path: &str, name: &str) -> usize
    requires { length path.now ≤ 4095 }
    ensures { result ≡ length (joined path.now name.now) }
{
    if path.len() == 1 {
        path.len() + name.len()
    } else {
        path.len() + name.len() + 1
    }
}

fn joined_text(path: &String, name: &str, len: usize) -> Result<String, AllocError>
    ensures { IfOk result (λ text. string_bytes text ≡ joined (string_bytes path.now) name.now) }
{
    let mut text = String::with_capacity(*path.allocator(), len)?;
    text.push_str(path)?;
    if path.len() != 1 {
        text.push('/')?;
    }
    text.push_str(name)?;
    Ok(text)
}

/// Whether a text can be a name of a path. A name is not empty, is neither `.` nor `..`, and holds neither `/` nor the byte 0.
pub fn valid_name(name: &str) -> bool
    ensures { result ≡ is_name name.now }
{
    let bytes = name.as_bytes();
    !bytes.contains(&b'/') && name_fault(bytes).is_none()
}

impl Clone for Path {
    ghost use Rattle.std.specs.Prelude.{◌≡◌};

    ghost is_clone = { λ p q. q ≡ p };

    fn clone(&self) -> Result<Path, AllocError> {
        Ok(Path {
            text: self.text.clone()?,
        })
    }
}

impl PartialEq for Path {
    ghost use Rattle.std.specs.Cmp.Lexicographic.{pointwise, nat_list_eq_equiv};
    ghost use Rattle.std.specs.Cmp.{partial_equiv_from_equiv};
    ghost use Rattle.std.specs.Prelude.{nat_eq};

    ghost eq = { pointwise nat_eq };

    ghost laws = { partial_equiv_from_equiv nat_list_eq_equiv };

    fn eq(&self, other: &Path) -> bool {
        self.text.as_str() == other.text.as_str()
    }
}

impl Eq for Path {
    ghost use Rattle.std.specs.Cmp.Lexicographic.{nat_list_eq_equiv};

    ghost laws = { nat_list_eq_equiv };
}

impl PartialOrd for Path {
    ghost use Rattle.std.specs.Ordering.{as_partial_cmp};
    ghost use Rattle.path_text.specs.Order.{path_cmp};
    ghost use Rattle.path_text.specs.Total.{path_cmp_po};

    ghost partial_cmp = { as_partial_cmp path_cmp };

    ghost laws = { path_cmp_po };

    fn partial_cmp(&self, other: &Path) -> Option<Ordering> {
        Some(self.cmp(other))
    }
}

impl Ord for Path {
    ghost use Rattle.path_text.specs.Order.{path_cmp};
    ghost use Rattle.path_text.specs.Total.{path_cmp_total, path_cmp_ties};
    ghost use Rattle.std.proofs.Common.{refl};

    ghost cmp = { path_cmp };

    ghost total = { path_cmp_total };

    ghost matches_partial_cmp = { λ x y. refl };

    ghost matches_eq = { path_cmp_ties };

    fn cmp(&self, other: &Path) -> Ordering {
        compare(self.text.as_bytes(), other.text.as_bytes())
    }
}
