//! Lists whose entries go one by one to the end of another list.
ghost use Rattle.std.specs.Prelude.{◌≡◌, ◌-◌, ◌<◌, ◌++◌, [], true, false, length, OnOk, IfOk};

use crate::cursors::Cursor;
use crate::lists::FlatList;
use entry_pages::Entry;
use path_text::OutOfMemory;
use std::marker::Model;

/// The rest of a list, whose next entry is at hand: seen as the entries that are left.
#[derive(Debug, Drop)]
pub(crate) struct Source<'a> {
    cursor: Cursor<'a>,
    over: bool,
}

impl<'a> Model for Source<'a> {
    ghost use Rattle.std.specs.Prelude.{◌≡◌, ◌<◌, ◌≤◌, false, List, length};
    ghost use Rattle.entry_pages.specs.declared.entries.Entry.{Entry};
    ghost use Rattle.flat_list.specs.Private.Left.{left_of};

    ghost Value = { List Entry };

    ghost view = { λ s. left_of s.over s.cursor };

    ghost invariant = { λ s. s.over ≡ false → (0 < s.cursor.1) × (s.cursor.1 ≤ length s.cursor.0) };
}

impl<'a> Source<'a> {
    /// All of a list is left. It takes the memory of one entry.
    pub fn make(list: &'a FlatList) -> Result<Source<'a>, OutOfMemory>
        ensures { IfOk result (λ source. source ≡ list.now) }
    {
        let mut cursor = list.cursor()?;
        let more = cursor.advance()?;
        Ok(Source {
            cursor,
            over: !more,
        })
    }

    /// Whether nothing is left.
    pub fn is_over(&self) -> bool
        ensures yes { result ≡ true → self.now ≡ [] }
        ensures no { result ≡ false → 0 < length self.now }
    {
        self.over
    }

    /// The next entry.
    pub fn next(&self) -> Option<&Entry> {
        if self.over {
            return None;
        }
        Some(self.cursor.entry())
    }

    /// How many bytes the next path shares with that of the entry given last, or fewer. Only speed depends on the answer.
    pub fn shared(&self) -> usize {
        self.cursor.shared()
    }

    /// Its next entry goes after others, if one is left.
    pub fn give(&mut self, all: &mut FlatList) -> Result<(), OutOfMemory>
        ensures moved { OnOk result (all.new ++ self.new ≡ all.old ++ self.old) }
        ensures fewer { OnOk result (length self.new ≡ length self.old - 1) }
    {
        if self.over {
            return Ok(());
        }
        all.add(self.cursor.entry())?;
        let more = self.cursor.advance()?;
        self.over = !more;
        Ok(())
    }

    /// All that is left goes after others.
    pub fn give_all(&mut self, all: &mut FlatList) -> Result<(), OutOfMemory>
        ensures { OnOk result (all.new ≡ all.old ++ self.old) }
    {
        while !self.is_over() {
            self.give(all)?;
        }
        Ok(())
    }
}
