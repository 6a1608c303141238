//! Entries in slots that are used again.
ghost use Rattle.std.specs.Prelude.{◌≡◌, ◌-◌, ◌++◌, ◌∷◌, [], length, take, OnOk, OnErr, IfSome, IfNone, IfOk};
ghost use Rattle.std.specs.List.Sorted.{IsPermutation};

use entry_pages::Entry;
use path_text::{OutOfMemory, Path, compare};
use std::alloc::{AllocError, Global};
use std::cmp::Ordering;
use std::marker::Model;

/// Copies of entries, seen as their list. An entry that is taken away leaves its slot, and the next entry is written over it.
/// So few paths take memory of their own. Our own.
#[derive(Debug, Drop)]
pub(crate) struct Pile {
    slots: Vec<Entry>,
    len: usize,
}

impl Model for Pile {
    ghost use Rattle.std.specs.Prelude.{List, take, length, ◌≤◌};
    ghost use Rattle.entry_pages.specs.declared.entries.Entry.{Entry};

    ghost Value = { List Entry };

    ghost view = { λ p. take p.len p.slots.items };

    ghost invariant = { λ p. p.len ≤ length p.slots.items };
}

impl Pile {
    /// No entries. It takes no memory.
    pub fn make(alloc: Global) -> Pile
        ensures { result ≡ [] }
    {
        Pile {
            slots: Vec::new(alloc),
            len: 0,
        }
    }

    pub fn len(&self) -> usize
        ensures { result ≡ length self.now }
    {
        self.len
    }

    /// The entry that was put last.
    pub fn last(&self) -> Option<&Entry>
        ensures some { IfSome result (λ last. self.now ≡ take (length self.now - 1) self.now ++ last.now ∷ []) }
        ensures none { IfNone result (length self.now ≡ 0) }
    {
        if self.len == 0 {
            return None;
        }
        Some(&self.slots[self.len - 1])
    }

    /// Puts a copy of an entry after the others. A refusal leaves them.
    pub fn put(&mut self, entry: &Entry) -> Result<(), OutOfMemory>
        ensures ok { OnOk result (self.new ≡ self.old ++ entry.now ∷ []) }
        ensures err { OnErr result (self.new ≡ self.old) }
    {
        if self.len < self.slots.len() {
            self.slots[self.len].overwrite(entry)?;
        } else {
            self.slots.push(entry.copy()?)?;
        }
        self.len += 1;
        Ok(())
    }

    /// Takes the last entry away, if there is one.
    pub fn drop_last(&mut self)
        ensures { self.new ≡ take (length self.old - 1) self.old }
    {
        self.len = self.len.saturating_sub(1);
    }

    /// Takes all entries away.
    pub fn clear(&mut self)
        ensures { self.new ≡ [] }
    {
        self.len = 0;
    }

    /// Puts the entries in path order, if their paths share this many bytes, or more.
    pub fn sort(&mut self, shared: usize) -> Result<(), AllocError>
        ensures { IsPermutation self.old self.new }
    {
        self.slots.truncate(self.len);
        self.slots
            .sort_by(|a, b| compare_behind(&a.path, &b.path, shared))?;
        Ok(())
    }

    /// The entries.
    pub fn entries(&self) -> &[Entry]
        ensures { result.now ≡ self.now }
    {
        &self.slots[..self.len]
    }
}

// Compares two paths that share this many bytes, or more, up to the end of the shorter one: the bytes after them decide. Only
// speed depends on the answer.
pub(crate) fn compare_behind(a: &Path, b: &Path, shared: usize) -> Ordering {
    let (a, b) = (a.text().as_bytes(), b.text().as_bytes());
    let at = shared.min(a.len()).min(b.len());
    compare(&a[at..], &b[at..])
}
