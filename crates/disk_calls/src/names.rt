//! The names of a directory, as the system gives them, and their listing.
ghost use Rattle.std.specs.Prelude.{◌≡◌, ◌≤◌, ◌<◌, ◌++◌, ◌∷◌, [], length, IfOk, OnOk, IsTrue, nat_lt};
ghost use Rattle.std.specs.Str.{IsUtf8};
ghost use Rattle.outside.specs.Count.{capped};
ghost use Rattle.std.specs.List.Sorted.{IsStrictlySortedBy};
ghost use Rattle.std.specs.Cmp.Lexicographic.{slice_cmp};
ghost use Rattle.std.specs.Ordering.{nat_cmp};
ghost use Rattle.outside.specs.Tree.{AreNames};
ghost use Rattle.path_text.specs.Path.{joined, is_name};

use outside::Listing;
use path_text::{MAX_PATH, OutOfMemory, Path, valid_name};
use std::alloc::{AllocError, Global};
use std::marker::Model;
use std::str;

/// Names as the system gives them, in any order, maybe with repetitions. They are seen as (names, how many more are not UTF-8).
#[derive(Drop)]
pub struct FoundNames {
    alloc: Global,
    // In the order in which the system gave them.
    found: Listing,
}

impl Model for FoundNames {
    ghost use Rattle.std.specs.Prelude.{List, ℕ};

    ghost Value = { List (List ℕ) × ℕ };

    ghost view = { λ names. (names.found.0, names.found.1) };
}

impl FoundNames {
    /// No names. It takes no memory.
    pub fn make(alloc: Global) -> FoundNames
        ensures { result ≡ ([], 0) }
    {
        FoundNames {
            alloc,
            found: Listing::make(alloc),
        }
    }

    /// Adds the names in a piece that the system wrote. Each name ends with the byte 0.
    pub fn add_piece(&mut self, piece: &[u8]) -> Result<(), OutOfMemory> {
        for name in piece.split(|b| *b == 0) {
            if !is_self_or_parent(name) {
                self.add(name)?;
            }
        }
        Ok(())
    }

    // Adds a name, or counts it if it is not UTF-8.
    fn add(&mut self, name: &[u8]) -> Result<(), OutOfMemory>
        ensures text { IsUtf8 name.now → OnOk result (self.new ≡ (self.old.0 ++ name.now ∷ [], self.old.1)) }
        ensures other { ¬ (IsUtf8 name.now) → OnOk result (self.new ≡ (self.old.0, capped self.old.1 1)) }
    {
        match str::from_utf8(name) {
            Ok(text) => self.found.add_name(text)?,
            Err(_) => {
                let unnamed = self.found.unnamed().saturating_add(1);
                self.found.set_rest(unnamed, 0);
            }
        }
        Ok(())
    }

    /// The listing of a directory at the path with these names.
    pub fn listing(self, path: &Path) -> Result<Listing, OutOfMemory>
        ensures names { IfOk result (λ listing. AreNames path.now listing.0) }
        ensures unnamed { IfOk result (λ listing. self.1 ≤ listing.1) }
    {
        let names = sorted(self.alloc, &self.found)?;
        let mut listing = Listing::make(self.alloc);
        listing.reserve(names.len(), bytes_of(&names))?;
        for name in names {
            put_name(&mut listing, path, name)?;
        }
        let unnamed = listing.unnamed().saturating_add(self.found.unnamed());
        listing.set_rest(unnamed, listing.far());
        Ok(listing)
    }
}

// The names in byte order, each once.
fn sorted(alloc: Global, found: &Listing) -> Result<Vec<&str>, AllocError> {
    let mut names = Vec::with_capacity(alloc, found.len())?;
    for k in 0..found.len() {
        names.push(found.name(k))?;
    }
    names.sort_unstable();
    names.dedup();
    Ok(names)
}

// How many bytes these names have together.
fn bytes_of(names: &[&str]) -> usize {
    let mut bytes: usize = 0;
    for name in names {
        bytes = bytes.saturating_add(name.len());
    }
    bytes
}

// Whether a name is empty, or is that of the directory itself or of its parent, so that it is not a child.
fn is_self_or_parent(name: &[u8]) -> bool {
    name.is_empty() || name == b".".as_slice() || name == b"..".as_slice()
}

// Adds a name after those of the listing, or counts it as unnamed or far if the listing cannot have it.
fn put_name(listing: &mut Listing, path: &Path, name: &str) -> Result<(), OutOfMemory>
    requires { AreNames path.now listing.old.0 }
    ensures { AreNames path.now listing.new.0 }
{
    let (unnamed, far) = (listing.unnamed(), listing.far());
    if !valid_name(name) {
        listing.set_rest(unnamed.saturating_add(1), far);
    } else if is_far(path, name) {
        listing.set_rest(unnamed, far.saturating_add(1));
    } else if ascends(listing, name) {
        listing.add_name(name)?;
    }
    Ok(())
}

// Whether the path of a child has more bytes than a path may have.
fn is_far(path: &Path, name: &str) -> bool
    ensures { result ≡ nat_lt 4095 (length (joined path.now name.now)) }
{
    let both = path.text().len() + name.len();
    let slash = if path.text().len() == 1 { 0 } else { 1 };
    both + slash > MAX_PATH
}

// Whether a name may come after those of the listing.
fn ascends(listing: &Listing, name: &str) -> bool
    ensures { IsTrue result → IsStrictlySortedBy (slice_cmp nat_cmp) listing.now.0 → IsStrictlySortedBy (slice_cmp nat_cmp) (listing.now.0 ++ name.now ∷ []) }
{
    listing.len() == 0 || listing.name(listing.len() - 1) < name
}
