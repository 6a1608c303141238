//! The names of the children of a path, in a map in path order.
ghost use Rattle.std.specs.Prelude.{◌≡◌, ◌⊎◌, ◌++◌, ◌∷◌, [], ◌<◌, IfOk, IfSome, IfNone, None, false, not, ◌&&◌, ◌==◌, length, nat_eq};
ghost use Rattle.std.specs.List.{starts_with, list_any, AllByRecursion};
ghost use Rattle.std.specs.String.{string_bytes};
ghost use Rattle.std.specs.BTreeMap.{IsOrdered};
ghost use Rattle.std.specs.BTreeMap.Range.{entries_between};
ghost use Rattle.std.specs.declared.ops.Bound.TheVariants.{Included, Unbounded};
ghost use Rattle.path_text.specs.Order.{path_cmp, front};
ghost use Rattle.path_text.specs.Path.{is_slash, refusal, joined};
ghost use Rattle.outside.specs.Tree.{is_one_name, names_in};
ghost use Rattle.files_mem.specs.Stored.{files_of, AllValid};

use crate::nodes::Node;
use outside::Listing;
use path_text::{JoinError, OutOfMemory, Path, PathError};
use std::alloc::{AllocError, Global};
use std::collections::BTreeMap;
use std::collections::btree_map::Range;
use std::ops::Bound;

/// The names of the children of the path, in byte order. It passes over all that is under a child at once, so it costs the
/// children and not the subtree.
pub fn list(map: &BTreeMap<Path, Node>, alloc: Global, path: &Path) -> Result<Listing, OutOfMemory>
    requires valid { AllValid map.now.entries }
    ensures { IfOk result (λ listing. (listing.0 ≡ names_in (files_of map.now.entries) path.now) × (listing.1 ≡ 0) × (listing.2 ≡ 0)) }
{
    let _ = map.len(); // gives the proof that the keys are in order
    let mut listing = Listing::make(alloc);
    let Some(least) = least_child(path)? else {
        return Ok(listing);
    };
    let front = front_of(alloc, path)?;
    let mut entries = from(map, &least);
    while let Some((key, node)) = entries.next() {
        let Some(name) = strip(key.text(), &front) else {
            return Ok(listing);
        };
        if is_one_name(name) {
            listing.add_name(name)?;
            entries = behind(map, alloc, key, node, entries)?;
        }
    }
    Ok(listing)
}

// The entries after a child, of which `rest` are the next ones: all that is under the child may be left out.
fn behind<'a>(
    map: &'a BTreeMap<Path, Node>,
    alloc: Global,
    child: &Path,
    node: &Node,
    rest: Range<'a, Path, Node>,
) -> Result<Range<'a, Path, Node>, AllocError>
    ensures { IfOk result (λ left. (left ≡ rest.entry) ⊎ (left ≡ entries_between path_cmp (Included (child.now ++ 1 ∷ [])) Unbounded map.now.entries)) }
{
    if node.is_dir() {
        if let Some(past) = past(alloc, child)? {
            return Ok(from(map, &past));
        }
    }
    Ok(rest)
}

fn strip<'a>(text: &'a str, front: &str) -> Option<&'a str>
    ensures off { IfNone result (starts_with nat_eq text.now front.now ≡ false) }
    ensures on { IfSome result (λ rest. text.now ≡ front.now ++ rest.now) }
{
    text.strip_prefix(front)
}

fn is_one_name(name: &str) -> bool
    ensures { result ≡ is_one_name name.now }
{
    !name.is_empty() && !name.as_bytes().contains(&b'/')
}

// The text that the paths of all children begin with.
fn front_of(alloc: Global, path: &Path) -> Result<String, AllocError>
    ensures { IfOk result (λ text. string_bytes text ≡ front path.now) }
{
    let mut text = String::from_str(alloc, path.text())?;
    if path.text().len() != 1 {
        text.push('/')?;
    }
    Ok(text)
}

// The least path that a child can have, if there can be one.
#[tactic(auto, using(crate::proofs::Between::joined_front))]
fn least_child(path: &Path) -> Result<Option<Path>, OutOfMemory>
    ensures found { IfOk result (λ o. IfSome o (λ least. least ≡ front path.now ++ 1 ∷ [])) }
    ensures long { IfOk result (λ o. IfNone o (4095 < length (front path.now ++ 1 ∷ []))) }
{
    match path.join("\x01") {
        Ok(least) => Ok(Some(least)),
        Err(JoinError::TooLong) => Ok(None),
        Err(JoinError::OutOfMemory) => Err(OutOfMemory),
    }
}

// The path that comes after all that is under a path, if it can be written.
fn past(alloc: Global, path: &Path) -> Result<Option<Path>, AllocError>
    ensures { IfOk result (λ o. IfSome o (λ past. past ≡ path.now ++ 1 ∷ [])) }
{
    let mut text = String::from_str(alloc, path.text())?;
    text.push('\x01')?;
    match Path::parse(alloc, &text) {
        Ok(past) => Ok(Some(past)),
        Err(PathError::OutOfMemory) => Err(AllocError),
        Err(_) => Ok(None),
    }
}

/// From this key on.
pub fn from<'a>(map: &'a BTreeMap<Path, Node>, at: &Path) -> Range<'a, Path, Node>
    ensures rest { result ≡ entries_between path_cmp (Included at.now) Unbounded map.now.entries }
    ensures ordered { IsOrdered path_cmp map.now }
{
    map.range((Bound::Included(at), Bound::Unbounded))
}
