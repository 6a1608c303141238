//! Lists of entries.
ghost use Rattle.std.specs.Prelude.{◌≡◌, ◌+◌, ◌*◌, ◌%◌, ◌<◌, ◌≤◌, ◌++◌, ◌∷◌, [], true, ◌==◌};
ghost use Rattle.std.specs.Prelude.{Some, None, length, map, slice_get, slice_index_or, if◌then◌else◌, OnOk, OnErr, IfOk, IfErr, All};
ghost use Rattle.std.specs.List.{flat_map, range_with_len, sum_by};
ghost use Rattle.std.specs.Fn.{CalledAt};
ghost use Rattle.std.specs.List.Retain.{IsFiltered};
ghost use Rattle.std.specs.List.Sorted.{IsPermutation, IsSorted, IsSortedByKey, IsStrictlySortedBy, IsStable, IsStableByKey};
ghost use Rattle.path_text.specs.Path.{refusal};
ghost use Rattle.path_text.specs.Order.{path_cmp};
ghost use Rattle.entry_pages.specs.Entries.{is_shaped, summary_of};
ghost use Rattle.entry_pages.specs.Pack.{page_of, place_of};
ghost use Rattle.flat_list.specs.Spelling.{paths, Spells, SpellsAs, max_entries, IsCause};
ghost use Rattle.flat_list.specs.Orders.{sort_order, level_count, places_at, dealt};

use crate::cursors::Cursor;
use crate::dealing::{levels_of, pieces_of};
use crate::decoding::decode;
use crate::encoding::encode;
use crate::errors::CacheError;
use crate::halving::runs_by;
use crate::merging::{joined, len_of};
use crate::ordering::{Field, sort_order};
use crate::runs::run_each;
use crate::sources::Source;
use crate::versions::Version;
use entry_pages::{Entry, Pages, Summary};
use path_text::{OutOfMemory, Path};
use std::alloc::Global;
use std::marker::Model;
use std::thread::Threads;

/// Entries in pages of 256, seen as their list. Of each entry it keeps a head, and the part of the path that the path before
/// does not share. The first path of a page is whole.
#[derive(Debug, Drop)]
pub struct FlatList {
    pages: Pages,
}

impl Model for FlatList {
    ghost use Rattle.std.specs.Prelude.{List};
    ghost use Rattle.entry_pages.specs.declared.entries.Entry.{Entry};

    ghost Value = { List Entry };

    ghost view = { λ l. l.pages };
}

impl FlatList {
    /// No entries. It takes no memory.
    pub fn make(alloc: Global) -> FlatList
        ensures { result ≡ [] }
    {
        FlatList {
            pages: Pages::make(alloc),
        }
    }

    // No entries, with room for the heads of a number of them and for a number of bytes of their paths.
    fn with_room(alloc: Global, count: usize, bytes: usize) -> Result<FlatList, OutOfMemory>
        ensures { IfOk result (λ list. list ≡ []) }
    {
        Ok(FlatList {
            pages: Pages::with_room(alloc, count, bytes)?,
        })
    }

    // No entries, with room for those of some lists.
    pub(crate) fn with_room_of(alloc: Global, lists: &[FlatList]) -> Result<FlatList, OutOfMemory>
        ensures { IfOk result (λ list. list ≡ []) }
    {
        FlatList::with_room(alloc, len_of(lists), rests_len(lists))
    }

    // The entries packed. Each is dropped as soon as it is packed.
    pub(crate) fn packed(alloc: Global, entries: Vec<Entry>) -> Result<FlatList, OutOfMemory>
        ensures { IfOk result (λ list. list ≡ entries.items) }
    {
        let mut list = FlatList::with_room(alloc, entries.len(), 0)?;
        for entry in entries {
            list.add(&entry)?;
        }
        Ok(list)
    }

    // Copies of the entries, packed.
    pub(crate) fn packed_from(alloc: Global, entries: &[Entry]) -> Result<FlatList, OutOfMemory>
        ensures { IfOk result (λ list. list ≡ entries.now) }
    {
        let mut list = FlatList::with_room(alloc, entries.len(), 0)?;
        for entry in entries {
            list.add(entry)?;
        }
        Ok(list)
    }

    // Copies of the entries, packed from the last one to the first.
    pub(crate) fn packed_back(alloc: Global, entries: &[Entry]) -> Result<FlatList, OutOfMemory>
        ensures { IfOk result (λ list. IsPermutation entries.now list) }
    {
        let mut list = FlatList::with_room(alloc, entries.len(), 0)?;
        let mut left = entries;
        while let Some((last, before)) = left.split_last() {
            list.add(last)?;
            left = before;
        }
        Ok(list)
    }

    // Copies of the entries.
    fn copies(&self) -> Result<Vec<Entry>, OutOfMemory>
        ensures { IfOk result (λ entries. entries.items ≡ self.now) }
    {
        let mut entries = Vec::with_capacity(self.alloc(), self.len())?;
        let mut cursor = self.cursor()?;
        while cursor.advance()? {
            entries.push(cursor.entry().copy()?)?;
        }
        Ok(entries)
    }

    pub(crate) fn alloc(&self) -> Global {
        self.pages.alloc()
    }

    /// How many entries there are.
    pub fn len(&self) -> usize
        ensures { result ≡ length self.now }
    {
        self.pages.len()
    }

    /// Whether there are none.
    pub fn is_empty(&self) -> bool
        ensures { result ≡ (length self.now == 0) }
    {
        self.pages.is_empty()
    }

    /// Recalls the law that each entry has a valid path. It takes no time.
    pub fn paths_are_valid(&self)
        ensures { All (λ e. refusal e.path ≡ None) self.now }
    {
        self.pages.paths_are_valid();
    }

    /// Adds a copy of an entry after the others. A refusal leaves the list.
    pub fn add(&mut self, entry: &Entry) -> Result<(), OutOfMemory>
        ensures ok { OnOk result (self.new ≡ self.old ++ entry.now ∷ []) }
        ensures err { OnErr result (self.new ≡ self.old) }
    {
        self.pages.add(entry)
    }

    /// Puts the entries of another list after those of this one, which ends where a page begins. It copies them as they are
    /// kept. A refusal leaves the list.
    pub(crate) fn append(&mut self, other: &FlatList) -> Result<(), OutOfMemory>
        requires { length self.old % 256 ≡ 0 }
        ensures ok { OnOk result (self.new ≡ self.old ++ other.now) }
        ensures err { OnErr result (self.new ≡ self.old) }
    {
        self.pages.append(&other.pages)
    }

    // Puts the entries of another list after those of this one: as they are kept, if this one ends where a page does.
    pub(crate) fn put_behind(&mut self, other: &FlatList) -> Result<(), OutOfMemory>
        ensures { OnOk result (self.new ≡ self.old ++ other.now) }
    {
        if self.len() % 256 == 0 {
            return self.append(other);
        }
        Source::make(other)?.give_all(self)
    }

    // Whether the last path comes before the first one of another list. Only speed depends on the answer.
    pub(crate) fn is_before(&self, other: &FlatList) -> bool {
        self.pages.is_before(&other.pages)
    }

    /// Keeps the entries for which `keep` answers `true`, in their order, and drops the others. A refusal leaves the list. It
    /// packs the kept entries beside the list before it drops the list.
    pub fn retain<F: FnMut(&Entry) -> bool>(&mut self, keep: F) -> Result<(), OutOfMemory>
        requires { F.IsAlwaysCallable keep }
        ensures ok { OnOk result (IsFiltered (CalledAt F.FnMut) keep self.old self.new) }
        ensures err { OnErr result (self.new ≡ self.old) }
    {
        *self = self.kept(keep)?;
        Ok(())
    }

    // The entries for which `keep` answers `true`, in their order.
    fn kept<F: FnMut(&Entry) -> bool>(&self, keep: F) -> Result<FlatList, OutOfMemory>
        requires { F.IsAlwaysCallable keep }
        ensures { IfOk result (λ kept. IsFiltered (CalledAt F.FnMut) keep self.now kept) }
    {
        let mut test = keep;
        let mut kept = FlatList::make(self.alloc());
        let mut cursor = self.cursor()?;
        while cursor.advance()? {
            let entry = cursor.entry();
            let wanted = test(entry);
            kept.add_if(wanted, entry)?;
        }
        Ok(kept)
    }

    // Adds a copy of an entry after the others, if `wanted`.
    fn add_if(&mut self, wanted: bool, entry: &Entry) -> Result<(), OutOfMemory>
        ensures { OnOk result (self.new ≡ self.old ++ (if wanted then entry.now ∷ [] else [])) }
    {
        if !wanted {
            return Ok(());
        }
        self.add(entry)
    }

    /// All entries of the logs, in path order. It is fastest if ranks of a walk made the logs.
    pub fn from_jobs(alloc: Global, logs: Vec<Vec<Entry>>) -> Result<FlatList, OutOfMemory>
        ensures all { IfOk result (λ list. IsPermutation (flat_map (λ log. log.items) logs.items) list) }
        ensures sorted { IfOk result (λ list. IsSortedByKey (λ e. e.path) path_cmp list) }
    {
        let runs = run_each(alloc, logs)?;
        let list = FlatList::from_lists(alloc, runs)?;
        Ok(list)
    }

    /// All entries of the logs, in path order. It is fastest if ranks of a walk made the logs. Up to `hosts` threads read the
    /// logs, and put them in order a piece at a time; then the pieces are joined. It drops a log as soon as it has read it, and
    /// a piece as soon as it has joined it. So it takes room for all entries, packed, once more.
    pub fn from_logs<R: Threads + Sync>(
        rt: &R,
        alloc: Global,
        logs: Vec<FlatList>,
        hosts: u32,
    ) -> Result<FlatList, OutOfMemory>
        requires { 1 ≤ hosts }
        ensures all { IfOk result (λ list. IsPermutation (flat_map (λ log. log) logs.items) list) }
        ensures sorted { IfOk result (λ list. IsSortedByKey (λ e. e.path) path_cmp list) }
    {
        let runs = runs_by(rt, alloc, logs, hosts)?;
        let list = FlatList::from_lists(alloc, runs)?;
        Ok(list)
    }

    /// All entries of some lists, in path order. It is fastest if each list is in path order already, since it merges such
    /// lists. It drops the lists as it merges them, so it takes room for all entries, packed, once more.
    pub fn from_lists(alloc: Global, runs: Vec<FlatList>) -> Result<FlatList, OutOfMemory>
        ensures all { IfOk result (λ list. IsPermutation (flat_map (λ run. run) runs.items) list) }
        ensures sorted { IfOk result (λ list. IsSortedByKey (λ e. e.path) path_cmp list) }
    {
        let mut list = joined(alloc, runs)?;
        list.sort_path()?;
        Ok(list)
    }

    /// A copy of the entry at a place. It goes over the entries of its page up to that place. To go over all entries take a
    /// [`FlatList::cursor`], which copies nothing.
    pub fn entry(&self, k: usize) -> Result<Entry, OutOfMemory>
        requires { k < length self.now }
        ensures { IfOk result (λ entry. slice_get self.now k ≡ Some entry) }
    {
        self.pages.entry(k)
    }

    /// The rests of the entries of a page, joined. The first path is whole, and each later rest is the part that the path before
    /// does not share. It takes no memory.
    pub fn page(&self, k: usize) -> &[u8]
        requires { 256 * k < length self.now }
        ensures { result.now ≡ page_of k self.now }
    {
        self.pages.page(k)
    }

    // Whether the entries are in path order. It takes the memory of one entry.
    fn ascends(&self) -> Result<bool, OutOfMemory>
        ensures { IfOk result (λ yes. yes ≡ true → IsSortedByKey (λ e. e.path) path_cmp self.now) }
    {
        let mut cursor = self.cursor()?;
        while cursor.advance()? {
            if cursor.falls() {
                return Ok(false);
            }
        }
        Ok(true)
    }

    /// Puts the entries in path order. Entries of one path stay in their order. A list that is in path order already takes one
    /// pass and room for one path. Any other list is unpacked while it is sorted. A refusal leaves the list.
    pub fn sort_path(&mut self) -> Result<(), OutOfMemory>
        ensures all { IsPermutation self.old self.new }
        ensures sorted { OnOk result (IsSortedByKey (λ e. e.path) path_cmp self.new) }
        ensures stable { IsStableByKey (λ e. e.path) path_cmp self.old self.new }
        ensures err { OnErr result (self.new ≡ self.old) }
    {
        if self.ascends()? {
            return Ok(());
        }
        let mut entries = self.copies()?;
        entries.sort_by(|a, b| a.path.cmp(&b.path))?;
        *self = FlatList::packed(self.alloc(), entries)?;
        Ok(())
    }

    /// The first place of a path. It looks at the entries one by one, since a list may have any order, and takes no memory.
    pub fn place_of(&self, path: &Path) -> Option<usize>
        ensures { result ≡ place_of path.now self.now }
    {
        self.pages.place_of(path)
    }

    /// Puts the entries in the order of a field, with `down` from the greatest to the least. A missing size, time or kind is
    /// less than every other. Entries that tie come in path order, upwards in both cases. A refusal leaves the list. It takes
    /// memory for all entries while it sorts.
    pub fn sort_by(&mut self, field: Field, down: bool) -> Result<(), OutOfMemory>
        ensures all { IsPermutation self.old self.new }
        ensures sorted { OnOk result (IsSorted (sort_order field down) self.new) }
        ensures stable { IsStable (sort_order field down) self.old self.new }
        ensures err { OnErr result (self.new ≡ self.old) }
    {
        let mut entries = self.copies()?;
        entries.sort_by(|a, b| sort_order(field, down, a, b))?;
        *self = FlatList::packed(self.alloc(), entries)?;
        Ok(())
    }

    /// The places of the entries of each level, from level 0 to the level of the deepest entry.
    pub fn levels(&self) -> Result<Vec<Vec<usize>>, OutOfMemory>
        ensures { IfOk result (λ levels. map (λ places. places.items) levels.items ≡ map (λ k. places_at k self.now)
            (range_with_len 0 (level_count self.now))) }
    {
        levels_of(self)
    }

    /// Copies of the entries in `n` pieces, as cards are dealt: the entry at place `k` goes to piece `k % n`.
    pub fn spread(&self, n: u32) -> Result<Vec<FlatList>, OutOfMemory>
        requires { 1 ≤ n }
        ensures { IfOk result (λ pieces. pieces.items ≡ map (λ j. dealt n j self.now) (range_with_len 0 n)) }
    {
        pieces_of(self, n)
    }

    /// The list file, version 2. It takes time in proportion to its text. Its lines are:
    /// - `mfu list 2`;
    /// - for each entry `KIND SIZE MTIME MARK UNNAMED FAR PATH`, the path as [`escape`](path_text::escape) writes it;
    /// - after an entry that has a target `> TARGET`, escaped too;
    /// - `end COUNT`.
    pub fn encode(&self) -> Result<Vec<u8>, OutOfMemory>
        requires ascend { IsStrictlySortedBy path_cmp (paths self.now) }
        requires shaped { All (λ e. is_shaped e ≡ true) self.now }
        ensures { IfOk result (λ bytes. SpellsAs Version.Two bytes.items self.now) }
    {
        encode(self)
    }

    /// The list of a list file of either version, or why the bytes are not a list file. It takes time in proportion to the
    /// bytes.
    pub fn decode(alloc: Global, bytes: &[u8]) -> Result<FlatList, CacheError>
        ensures ok { IfOk result (λ list. Spells bytes.now list) }
        ensures few { IfOk result (λ list. length list ≤ max_entries) }
        ensures refused { IfErr result (IsCause bytes.now) }
    {
        decode(alloc, bytes)
    }

    /// The counts of the list. It takes no memory.
    pub fn summary(&self) -> Summary
        ensures { result ≡ summary_of self.now }
    {
        self.pages.summary()
    }

    /// How many bytes the paths of all entries have. It takes no memory, and makes no path.
    pub fn path_bytes(&self) -> u128
        ensures { result ≡ sum_by (λ e. length e.path) self.now }
    {
        self.pages.path_bytes()
    }

    /// A cursor before the first entry. It takes the memory of one entry.
    pub fn cursor(&self) -> Result<Cursor<'_>, OutOfMemory>
        ensures { IfOk result (λ cursor. cursor ≡ (self.now, 0)) }
    {
        Ok(Cursor::at(self.pages.reader()?))
    }

    /// A cursor that has passed this many entries. It goes over those of one page, and takes the memory of one entry.
    pub fn cursor_at(&self, k: usize) -> Result<Cursor<'_>, OutOfMemory>
        requires { k ≤ length self.now }
        ensures { IfOk result (λ cursor. cursor ≡ (self.now, k)) }
    {
        Ok(Cursor::at(self.pages.reader_at(k)?))
    }
}

// How many bytes the rests of some lists have.
fn rests_len(lists: &[FlatList]) -> usize {
    let mut len = 0usize;
    for list in lists {
        len = len.saturating_add(list.pages.rests_len());
    }
    len
}
