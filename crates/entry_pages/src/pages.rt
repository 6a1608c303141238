//! Entries packed in pages.
ghost use Rattle.std.specs.Prelude.{◌≡◌, ◌+◌, ◌-◌, ◌*◌, ◌%◌, ◌<◌, ◌≤◌, ◌++◌, ◌∷◌, []};
ghost use Rattle.std.specs.Prelude.{◌==◌, Some, None, All, length, slice_get, slice_index_or, OnOk, OnErr, IfOk};
ghost use Rattle.std.specs.List.{sum_by};
ghost use Rattle.path_text.specs.Path.{refusal};
ghost use Rattle.entry_pages.specs.Entries.{summary_of};
ghost use Rattle.entry_pages.specs.Pack.{page_of, place_of};

use crate::appending::{extend_reserved, put_shifted};
use crate::entries::Entry;
use crate::heads::Heads;
use crate::packing::{cut_back, head_of, put, shared_of};
use crate::passing::Reader;
use crate::seeking::place_in;
use crate::summaries::{Summary, path_bytes, summary_of};
use path_text::{OutOfMemory, Path, compare};
use std::alloc::Global;
use std::marker::Model;

/// Entries in pages of 256, seen as their list. Of each entry it keeps a head, and the part of the path that the path before
/// does not share. The first path of a page is whole.
#[derive(Debug, Drop)]
pub struct Pages {
    heads: Heads,
    // Where the rests of each page begin.
    starts: Vec<usize>,
    rests: Vec<u8>,
    // The last path.
    last: Vec<u8>,
}

impl Model for Pages {
    ghost use Rattle.std.specs.Prelude.{List, []};
    ghost use Rattle.entry_pages.specs.declared.entries.Entry.{Entry};
    ghost use Rattle.entry_pages.specs.Pack.{unpacked};
    ghost use Rattle.entry_pages.specs.Private.Kept.{IsKept};

    ghost Value = { List Entry };

    ghost view = { λ l. unpacked [] l.heads l.rests.items };

    ghost invariant = { λ l. IsKept l.heads l.starts.items l.rests.items l.last.items (unpacked [] l.heads l.rests.items) };
}

impl Pages {
    /// No entries. It takes no memory.
    pub fn make(alloc: Global) -> Pages
        ensures { result ≡ [] }
    {
        Pages {
            heads: Heads::make(alloc),
            starts: Vec::new(alloc),
            rests: Vec::new(alloc),
            last: Vec::new(alloc),
        }
    }

    /// No entries, with room for the heads of a number of entries and for a number of bytes of their paths.
    pub fn with_room(alloc: Global, count: usize, bytes: usize) -> Result<Pages, OutOfMemory>
        ensures { IfOk result (λ list. list ≡ []) }
    {
        Ok(Pages {
            heads: Heads::with_room(alloc, count)?,
            starts: Vec::with_capacity(alloc, count / 256 + 1)?,
            rests: Vec::with_capacity(alloc, bytes)?,
            last: Vec::new(alloc),
        })
    }

    /// The allocator of the pages.
    pub fn alloc(&self) -> Global {
        *self.rests.allocator()
    }

    /// How many bytes of paths the pages keep.
    pub fn rests_len(&self) -> usize {
        self.rests.len()
    }

    /// How many entries there are.
    pub fn len(&self) -> usize
        ensures { result ≡ length self.now }
    {
        self.heads.len()
    }

    /// Whether there are none.
    pub fn is_empty(&self) -> bool
        ensures { result ≡ (length self.now == 0) }
    {
        self.len() == 0
    }

    /// Recalls the law that each entry has a valid path. It takes no time.
    pub fn paths_are_valid(&self)
        ensures { All (λ e. refusal e.path ≡ None) self.now }
    {
        // A proof knows the invariant of pages whose fields are looked at.
        let _ = self.rests.len();
    }

    /// Adds a copy of an entry after the others. A refusal leaves the list.
    pub fn add(&mut self, entry: &Entry) -> Result<(), OutOfMemory>
        ensures ok { OnOk result (self.new ≡ self.old ++ entry.now ∷ []) }
        ensures err { OnErr result (self.new ≡ self.old) }
    {
        let path = entry.path.text();
        let shared = shared_of(self.heads.len(), &self.last, path.as_bytes());
        let head = head_of(entry, path, shared);
        put(
            &mut self.heads,
            &mut self.starts,
            &mut self.rests,
            &mut self.last,
            head,
            &entry.target,
            path.as_bytes(),
        )
    }

    /// Puts the entries of another list after those of this one, which ends where a page begins. It copies them as they are
    /// kept. A refusal leaves the list.
    pub fn append(&mut self, other: &Pages) -> Result<(), OutOfMemory>
        requires { length self.old % 256 ≡ 0 }
        ensures ok { OnOk result (self.new ≡ self.old ++ other.now) }
        ensures err { OnErr result (self.new ≡ self.old) }
    {
        if other.is_empty() {
            return Ok(());
        }
        let base = self.rests.len();
        self.starts.reserve(other.starts.len())?;
        self.rests.reserve(other.rests.len())?;
        self.last.reserve(other.last.len())?;
        self.heads.append(&other.heads)?;
        put_shifted(&mut self.starts, base, &other.starts);
        extend_reserved(&mut self.rests, &other.rests);
        cut_back(&mut self.last, 0, &other.last);
        Ok(())
    }

    /// Whether the last path comes before the first one of another list. Only speed depends on the answer.
    pub fn is_before(&self, other: &Pages) -> bool {
        let heads = other.heads.leads();
        if heads.is_over() {
            return true;
        }
        let (head, _text) = heads.next();
        match other.rests.get(..head.rest as usize) {
            Some(first) => compare(&self.last, first).is_lt(),
            None => false,
        }
    }

    /// A copy of the entry at a place. It goes over the entries of its page up to that place. To go over all entries take a
    /// [`Pages::reader`], which copies nothing.
    pub fn entry(&self, k: usize) -> Result<Entry, OutOfMemory>
        requires { k < length self.now }
        ensures { IfOk result (λ entry. slice_get self.now k ≡ Some entry) }
    {
        let reader = self.reader_behind(k)?;
        Ok(reader.into_entry())
    }

    /// The rests of the entries of a page, joined. The first path is whole, and each later rest is the part that the path before
    /// does not share. It takes no memory.
    pub fn page(&self, k: usize) -> &[u8]
        requires { 256 * k < length self.now }
        ensures { result.now ≡ page_of k self.now }
    {
        let start = self.starts[k];
        let end = begin_of(&self.starts, k + 1, self.rests.len());
        &self.rests[start..end]
    }

    /// The first place of a path. It looks at the entries one by one, since a list may have any order, and takes no memory.
    pub fn place_of(&self, path: &Path) -> Option<usize>
        ensures { result ≡ place_of path.now self.now }
    {
        place_in(&self.heads, &self.rests, path.text().as_bytes())
    }

    /// The counts of the list. It takes no memory.
    pub fn summary(&self) -> Summary
        ensures { result ≡ summary_of self.now }
    {
        summary_of(self.heads.leads(), self.heads.len())
    }

    /// How many bytes the paths of all entries have. It takes no memory, and makes no path.
    pub fn path_bytes(&self) -> u128
        ensures { result ≡ sum_by (λ e. length e.path) self.now }
    {
        path_bytes(self.heads.leads(), self.heads.len())
    }

    /// A reader before the first entry. It takes the memory of one entry.
    pub fn reader(&self) -> Result<Reader<'_>, OutOfMemory>
        ensures list { IfOk result (λ reader. reader.0 ≡ self.now) }
        ensures passed { IfOk result (λ reader. reader.1 ≡ 0) }
    {
        Reader::make(self.alloc(), self.heads.leads(), &self.rests, 0)
    }

    /// A reader that has passed this many entries. It goes over those of one page, and takes the memory of one entry.
    pub fn reader_at(&self, k: usize) -> Result<Reader<'_>, OutOfMemory>
        requires { k ≤ length self.now }
        ensures list { IfOk result (λ reader. reader.0 ≡ self.now) }
        ensures passed { IfOk result (λ reader. reader.1 ≡ k) }
        ensures last { IfOk result (λ reader. 0 < k → slice_get self.now (k - 1) ≡ Some reader.2) }
    {
        if k == 0 {
            return self.reader();
        }
        self.reader_behind(k - 1)
    }

    // A reader that passed the entry at a place last.
    fn reader_behind(&self, k: usize) -> Result<Reader<'_>, OutOfMemory>
        requires { k < length self.now }
        ensures list { IfOk result (λ reader. reader.0 ≡ self.now) }
        ensures passed { IfOk result (λ reader. reader.1 ≡ k + 1) }
        ensures last { IfOk result (λ reader. slice_get self.now k ≡ Some reader.2) }
    {
        let page = k / 256;
        let heads = self.heads.leads_at(page);
        let mut reader = Reader::make(self.alloc(), heads, &self.rests, self.starts[page])?;
        for _ in 0..k % 256 + 1 {
            reader.pass()?;
        }
        Ok(reader)
    }
}

// Where the rests of a page begin; if there is no such page, how many bytes there are.
fn begin_of(starts: &[usize], page: usize, count: usize) -> usize
    ensures { result ≡ slice_index_or starts.now page count }
{
    if page < starts.len() {
        return starts[page];
    }
    count
}
