//! A cursor over the entries of a list.
ghost use Rattle.std.specs.Prelude.{◌≡◌, ◌+◌, ◌-◌, ◌<◌, ◌≤◌, ◌++◌, ◌∷◌, [], false, nat_lt, if◌then◌else◌, Some, length, take, slice_get, OnErr, IfOk};
ghost use Rattle.entry_pages.specs.Pack.{RisesAt};

use entry_pages::{Entry, Reader};
use path_text::OutOfMemory;
use std::marker::Model;

/// Goes over the entries of a list in their order: seen as (the list, how many entries are passed).
#[derive(Debug, Drop)]
pub struct Cursor<'a> {
    reader: Reader<'a>,
}

impl<'a> Model for Cursor<'a> {
    ghost use Rattle.std.specs.Prelude.{◌≡◌, ◌-◌, ◌<◌, ◌≤◌, List, ℕ, length, slice_get, Some};
    ghost use Rattle.entry_pages.specs.declared.entries.Entry.{Entry};

    ghost Value = { List Entry × ℕ };

    ghost view = { λ c. (c.reader.0, c.reader.1) };

    ghost invariant = { λ c. (c.reader.1 ≤ length c.reader.0) × (0 < c.reader.1 → slice_get c.reader.0 (c.reader.1 - 1) ≡ Some c.reader.2) };
}

impl<'a> Cursor<'a> {
    // A cursor that has passed as many entries as the reader.
    pub(crate) fn at(reader: Reader<'a>) -> Cursor<'a>
        requires inside { reader.1 ≤ length reader.0 }
        requires last { 0 < reader.1 → slice_get reader.0 (reader.1 - 1) ≡ Some reader.2 }
        ensures { result ≡ (reader.entry.0, reader.entry.1) }
    {
        Cursor { reader }
    }

    /// Passes the next entry, and answers whether there was one. A refusal leaves the cursor. It takes memory if the next path
    /// is longer than all before.
    pub fn advance(&mut self) -> Result<bool, OutOfMemory>
        ensures answer { IfOk result (λ more. more ≡ nat_lt self.old.1 (length self.old.0)) }
        ensures passed { IfOk result (λ more. self.new ≡ (self.old.0, if more then self.old.1 + 1 else self.old.1)) }
        ensures err { OnErr result (self.new ≡ self.old) }
        ensures inside { self.new.1 ≤ length self.new.0 }
    {
        if self.reader.is_over() {
            return Ok(false);
        }
        self.reader.pass()?;
        Ok(true)
    }

    // Whether there is a next entry whose path comes before that of the entry passed last.
    pub(crate) fn falls(&self) -> bool
        requires { 0 < self.now.1 }
        ensures { result ≡ false → RisesAt self.now.0 (self.now.1 - 1) }
    {
        self.reader.falls()
    }

    // How many bytes the path passed last shares with the one before, or fewer. Only speed depends on the answer.
    pub(crate) fn shared(&self) -> usize {
        self.reader.shared()
    }

    /// The entry that was passed last.
    pub fn entry(&self) -> &Entry
        requires { 0 < self.now.1 }
        ensures at { slice_get self.now.0 (self.now.1 - 1) ≡ Some result.now }
        ensures last { take self.now.1 self.now.0 ≡ take (self.now.1 - 1) self.now.0 ++ result.now ∷ [] }
    {
        self.reader.entry()
    }
}
