//! Logs of a walk, cut into runs: short lists, each in path order.
//!
//! A rank handles its newest string first. So its log has each directory before the entries below it, and siblings in falling
//! order. If a directory waits until the entries below it are passed, the entries come in falling path order. So a piece of
//! them that is turned around is in path order, and comes before the piece that was made before it.
//!
//! Strings that a rank got on the way start a new order in its log. There a piece of many entries ends; one of few goes on, and
//! is sorted. A log is read an entry at a time, and its entries wait in slots that are used again. The log has how many bytes a
//! path shares with the one before it, so only the bytes after them are compared.
ghost use Rattle.std.specs.Prelude.{◌≡◌, ◌+◌, ◌<◌, ◌≤◌, ◌++◌, ◌∷◌, [], true, length, OnOk, IfOk};
ghost use Rattle.std.specs.List.{flat_map};
ghost use Rattle.std.specs.List.Sorted.{IsPermutation};
ghost use Rattle.flat_list.specs.Private.Cut.{all_of, held_by};

use crate::lists::FlatList;
use crate::piles::{Pile, compare_behind};
use entry_pages::Entry;
use outside::Kind;
use path_text::OutOfMemory;
use std::alloc::Global;

// A run has this many entries of a log. It is a multiple of a page, so that runs can be joined page by page.
const PIECE: usize = 8192;

// At a new order of a log, a piece of fewer entries goes on.
const SHORT: usize = 64;

// So does a piece of fewer than this part of its log, so that the merge does not have a great number of runs.
const PARTS: usize = 64;

/// All entries of the logs as runs.
pub(crate) fn runs_of(alloc: Global, logs: Vec<FlatList>) -> Result<Vec<FlatList>, OutOfMemory>
    ensures { IfOk result (λ runs. IsPermutation (flat_map (λ log. log) logs.items) (flat_map (λ run. run) runs.items)) }
{
    let cut = cut_of(alloc, logs)?;
    let runs = cut.into_runs()?;
    Ok(runs)
}

/// The entries of each log as runs.
pub(crate) fn run_each(alloc: Global, logs: Vec<Vec<Entry>>) -> Result<Vec<FlatList>, OutOfMemory>
    ensures { IfOk result (λ runs. IsPermutation (flat_map (λ log. log.items) logs.items) (flat_map (λ run. run) runs.items)) }
{
    let cut = cut_each(alloc, logs)?;
    let runs = cut.into_runs()?;
    Ok(runs)
}

// The logs, read. Each is dropped as soon as it is read.
fn cut_of(alloc: Global, logs: Vec<FlatList>) -> Result<Cut, OutOfMemory>
    ensures { IfOk result (λ cut. IsPermutation (flat_map (λ log. log) logs.items) (all_of cut)) }
{
    let mut cut = Cut::make(alloc);
    for log in logs {
        cut.read(&log)?;
    }
    Ok(cut)
}

// The same of logs that are not packed.
fn cut_each(alloc: Global, logs: Vec<Vec<Entry>>) -> Result<Cut, OutOfMemory>
    ensures { IfOk result (λ cut. IsPermutation (flat_map (λ log. log.items) logs.items) (all_of cut)) }
{
    let mut cut = Cut::make(alloc);
    for log in logs {
        cut.take_all(&log)?;
    }
    Ok(cut)
}

/// The runs, and the piece that becomes the next one.
#[derive(Debug, Drop)]
struct Pieces {
    runs: Vec<FlatList>,
    piece: Pile,
    // Whether each entry of the piece comes before the one that was put before it.
    falls: bool,
    // All paths of the piece share this many bytes, or more.
    shared: usize,
    // The next run has this many entries.
    room: usize,
    // This many entries make a run at a new order of the log.
    many: usize,
}

impl Pieces {
    fn make(alloc: Global) -> Pieces
        ensures { held_by result ≡ [] }
    {
        Pieces {
            runs: Vec::new(alloc),
            piece: Pile::make(alloc),
            falls: true,
            shared: usize::MAX,
            room: PIECE,
            many: SHORT,
        }
    }

    // A log of this many entries begins. Its first run is the short one, so that the others end where a page does.
    fn begin(&mut self, len: usize)
        ensures { held_by self.new ≡ held_by self.old }
    {
        let short = len % PIECE;
        self.room = if short == 0 { PIECE } else { short };
        self.many = SHORT.max(len / PARTS);
    }

    // An entry goes into the piece, or begins the next one. Its path shares this many bytes with the one put last, or more, up
    // to the end of the shorter one.
    fn put(&mut self, entry: &Entry, shared: usize) -> Result<(), OutOfMemory>
        ensures { OnOk result (IsPermutation (held_by self.old ++ entry.now ∷ []) (held_by self.new)) }
    {
        self.end_long(entry, shared)?;
        self.share(entry, shared);
        self.piece.put(entry)?;
        self.end_full()?;
        Ok(())
    }

    // Whether an entry comes before the last one of the piece.
    fn comes_first(&self, entry: &Entry, shared: usize) -> bool {
        match self.piece.last() {
            Some(last) => compare_behind(&entry.path, &last.path, shared).is_lt(),
            None => true,
        }
    }

    // Counts the bytes that all paths of the piece share, if an entry is put after the last one.
    fn share(&mut self, entry: &Entry, shared: usize)
        ensures { held_by self.new ≡ held_by self.old }
    {
        let shared = if self.piece.len() == 0 {
            usize::MAX
        } else {
            shared
        };
        self.shared = self.shared.min(shared).min(entry.path.text().len());
    }

    // If the log starts a new order with an entry, a piece of many entries becomes a run, and one of few stops falling.
    fn end_long(&mut self, entry: &Entry, shared: usize) -> Result<(), OutOfMemory>
        ensures { OnOk result (IsPermutation (held_by self.old) (held_by self.new)) }
    {
        if self.comes_first(entry, shared) {
            return Ok(());
        }
        if self.piece.len() < self.many {
            self.falls = false;
            return Ok(());
        }
        self.end()?;
        Ok(())
    }

    // A piece that is full becomes a run.
    fn end_full(&mut self) -> Result<(), OutOfMemory>
        ensures { OnOk result (IsPermutation (held_by self.old) (held_by self.new)) }
    {
        if self.piece.len() < self.room {
            return Ok(());
        }
        self.end()?;
        Ok(())
    }

    // The piece becomes a run, if it has an entry.
    fn end(&mut self) -> Result<(), OutOfMemory>
        ensures moved { OnOk result (IsPermutation (held_by self.old) (held_by self.new)) }
        ensures empty { OnOk result (self.new.piece ≡ []) }
    {
        if self.piece.len() == 0 {
            return Ok(());
        }
        let run = self.run()?;
        self.runs.push(run)?;
        self.piece.clear();
        self.falls = true;
        self.shared = usize::MAX;
        self.room = PIECE;
        Ok(())
    }

    // The entries of the piece in path order, packed: turned around if they fall, and else sorted.
    fn run(&mut self) -> Result<FlatList, OutOfMemory>
        ensures run { IfOk result (IsPermutation self.old.piece) }
        ensures runs { self.new.runs ≡ self.old.runs }
    {
        let alloc = *self.runs.allocator();
        if self.falls {
            return FlatList::packed_back(alloc, self.piece.entries());
        }
        self.piece.sort(self.shared)?;
        FlatList::packed_from(alloc, self.piece.entries())
    }
}

/// Logs that are read: their runs, and the directories that wait until the entries below them are passed.
#[derive(Debug, Drop)]
struct Cut {
    pieces: Pieces,
    waiting: Pile,
    // All paths read since one went into the piece share this many bytes with it, or more, up to its end.
    shared: usize,
}

impl Cut {
    fn make(alloc: Global) -> Cut
        ensures { all_of result ≡ [] }
    {
        Cut {
            pieces: Pieces::make(alloc),
            waiting: Pile::make(alloc),
            shared: 0,
        }
    }

    // The entries of a log go after others.
    fn read(&mut self, log: &FlatList) -> Result<(), OutOfMemory>
        ensures { OnOk result (IsPermutation (all_of self.old ++ log.now) (all_of self.new)) }
    {
        self.pieces.begin(log.len());
        let mut cursor = log.cursor()?;
        while cursor.advance()? {
            self.put(cursor.entry(), cursor.shared())?;
        }
        self.end()?;
        Ok(())
    }

    // The same of a log that is not packed.
    fn take_all(&mut self, log: &[Entry]) -> Result<(), OutOfMemory>
        ensures { OnOk result (IsPermutation (all_of self.old ++ log.now) (all_of self.new)) }
    {
        self.pieces.begin(log.len());
        for entry in log {
            self.put(entry, 0)?;
        }
        self.end()?;
        Ok(())
    }

    // The next entry of a log, whose path shares this many bytes with the one before; 0 if that is not known. Directories that
    // it is not below stop waiting.
    fn put(&mut self, entry: &Entry, shared: usize) -> Result<(), OutOfMemory>
        ensures { OnOk result (IsPermutation (all_of self.old ++ entry.now ∷ []) (all_of self.new)) }
    {
        while self.leaves(entry, shared) {
            self.pass_last()?;
        }
        self.shared = self.shared.min(shared);
        if is_dir(entry) {
            self.waiting.put(entry)?;
            return Ok(());
        }
        self.pieces.put(entry, self.shared)?;
        self.shared = usize::MAX;
        Ok(())
    }

    // Whether a directory waits that the entry is not below. The one that waits last is the path before in the log, or above
    // it. So the entry is below it if its path shares all of it with that one, and a slash follows.
    fn leaves(&self, entry: &Entry, shared: usize) -> bool
        ensures { result ≡ true → 0 < length self.now.waiting }
    {
        let Some(last) = self.waiting.last() else {
            return false;
        };
        let len = last.path.text().len();
        if shared == 0 || len == 1 {
            return !entry.path.is_under(&last.path);
        }
        shared < len || entry.path.text().as_bytes().get(len) != Some(&b'/')
    }

    // The directory that waits last goes into the piece.
    fn pass_last(&mut self) -> Result<(), OutOfMemory>
        requires { 0 < length self.old.waiting }
        ensures moved { OnOk result (IsPermutation (all_of self.old) (all_of self.new)) }
        ensures fewer { OnOk result (length self.new.waiting + 1 ≡ length self.old.waiting) }
    {
        let Some(last) = self.waiting.last() else {
            return Ok(());
        };
        self.pieces.put(last, self.shared)?;
        self.waiting.drop_last();
        self.shared = usize::MAX;
        Ok(())
    }

    // All entries that wait become runs.
    fn end(&mut self) -> Result<(), OutOfMemory>
        ensures moved { OnOk result (IsPermutation (all_of self.old) (all_of self.new)) }
        ensures all { OnOk result (all_of self.new ≡ flat_map (λ run. run) self.new.pieces.runs.items) }
    {
        while self.waiting.len() > 0 {
            self.pass_last()?;
        }
        self.pieces.end()?;
        Ok(())
    }

    // All as runs.
    fn into_runs(self) -> Result<Vec<FlatList>, OutOfMemory>
        ensures { IfOk result (λ runs. IsPermutation (all_of self) (flat_map (λ run. run) runs.items)) }
    {
        let mut cut = self;
        cut.end()?;
        Ok(cut.pieces.runs)
    }
}

// Whether a directory is there, as far as is known.
pub(crate) fn is_dir(entry: &Entry) -> bool {
    match entry.stat {
        Some(stat) => stat.kind == Kind::Dir,
        None => false,
    }
}
