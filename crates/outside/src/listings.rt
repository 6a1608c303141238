//! The names in a directory.
ghost use Rattle.std.specs.Prelude.{◌≡◌, ◌<◌, ◌++◌, ◌∷◌, [], Some, length, slice_get, slice_index, OnOk, OnErr};
ghost use Rattle.std.specs.String.{string_bytes};
ghost use Rattle.outside.specs.Listed.{names_from, AreEndsFrom};

use path_text::OutOfMemory;
use std::alloc::Global;
use std::marker::Model;

/// The names in a directory. A contract sees them as (names, unnamed, far). `unnamed` is the number of names that are not
/// text, and `far` the number of children whose path would be too long.
#[derive(Debug, Drop)]
pub struct Listing {
    // All names, one after another: a name with an allocation of its own would take several times its bytes.
    text: String,
    // The index at which each name ends.
    ends: Vec<usize>,
    unnamed: u64,
    far: u64,
}

impl Model for Listing {
    ghost use Rattle.std.specs.Prelude.{List, ℕ};
    ghost use Rattle.std.specs.String.{string_bytes};
    ghost use Rattle.outside.specs.Listed.{names_from, AreEndsFrom};

    ghost Value = { List (List ℕ) × ℕ × ℕ };

    ghost view = { λ l. (names_from 0 (string_bytes l.text) l.ends.items, l.unnamed, l.far) };

    ghost invariant = { λ l. AreEndsFrom 0 (string_bytes l.text) l.ends.items };
}

impl Listing {
    /// Makes a listing without names. It takes no memory.
    pub fn make(alloc: Global) -> Listing
        ensures { result ≡ ([], 0, 0) }
    {
        Listing {
            text: String::new(alloc),
            ends: Vec::new(alloc),
            unnamed: 0,
            far: 0,
        }
    }

    /// Takes the memory for this number of further names and bytes, so that adding them takes none. The names stay, also if
    /// the call is out of memory.
    pub fn reserve(&mut self, names: usize, bytes: usize) -> Result<(), OutOfMemory>
        ensures { self.new ≡ self.old }
    {
        self.ends.reserve_exact(names)?;
        self.text.reserve_exact(bytes)?;
        Ok(())
    }

    /// Adds a name after the others. An error drops the name, and leaves the listing unchanged.
    pub fn add(&mut self, name: String) -> Result<(), OutOfMemory>
        ensures ok { OnOk result (self.new ≡ (self.old.0 ++ string_bytes name ∷ [], self.old.1, self.old.2)) }
        ensures err { OnErr result (self.new ≡ self.old) }
    {
        self.add_name(name.as_str())
    }

    /// Adds a name after the others. An error leaves the listing unchanged.
    pub fn add_name(&mut self, name: &str) -> Result<(), OutOfMemory>
        ensures ok { OnOk result (self.new ≡ (self.old.0 ++ name.now ∷ [], self.old.1, self.old.2)) }
        ensures err { OnErr result (self.new ≡ self.old) }
    {
        // The room for the end is taken first, so that no name is ever there without its end.
        self.ends.reserve(1)?;
        self.text.push_str(name)?;
        self.ends.push(self.text.len())?;
        Ok(())
    }

    /// Sets both numbers.
    pub fn set_rest(&mut self, unnamed: u64, far: u64)
        ensures { self.new ≡ (self.old.0, unnamed, far) }
    {
        self.unnamed = unnamed;
        self.far = far;
    }

    /// Counts the names.
    pub fn len(&self) -> usize
        ensures { result ≡ length self.now.0 }
    {
        self.ends.len()
    }

    /// The name at an index.
    pub fn name(&self, k: usize) -> &str
        requires { k < length self.now.0 }
        ensures { slice_get self.now.0 k ≡ Some result.now }
    {
        name_at(&self.text, &self.ends, k)
    }

    /// The number of names that are not text.
    pub fn unnamed(&self) -> u64
        ensures { result ≡ self.now.1 }
    {
        self.unnamed
    }

    /// The number of children whose path would be too long.
    pub fn far(&self) -> u64
        ensures { result ≡ self.now.2 }
    {
        self.far
    }
}

// The name at an index, in a text with these ends.
fn name_at<'a>(text: &'a str, ends: &[usize], k: usize) -> &'a str
    requires within { k < length ends.now }
    requires ends { AreEndsFrom 0 text.now ends.now }
    ensures { slice_get (names_from 0 text.now ends.now) k ≡ Some result.now }
{
    &text[start_of(ends, k)..ends[k]]
}

// The start of the name at an index: the end of the name before it.
fn start_of(ends: &[usize], k: usize) -> usize
    requires { k < length ends.now }
    ensures { result ≡ slice_index (0 ∷ ends.now) k }
{
    if k == 0 { 0 } else { ends[k - 1] }
}
