//! Files of the system that are lent in spans.
ghost use Rattle.std.specs.Prelude.{◌≡◌, ◌++◌, ◌∷◌, [], ℕ, List, Some, true, length, map, nat_eq};
ghost use Rattle.std.specs.Prelude.{All, IfOk, OnOk, OnErr, IsTrue, is_some};
ghost use Rattle.std.specs.List.{sum_by, position};
ghost use Rattle.std.specs.Cmp.Lexicographic.{pointwise};
ghost use Rattle.outside.specs.Count.{RoseBy, capped};
ghost use Rattle.outside.specs.Spans.{Piece, are_cuts, ascends_above, cuts_at, pieces, pieces_from, without_cut};
ghost use Rattle.real_disk.specs.Spans.{blank, count_of, piece_of, untold};

use disk_calls::{Watch, wrote};
use outside::{Span, SpanError, WriteError};
use path_text::{OutOfMemory, Path};
use std::alloc::Global;
use std::fs::Files;
use std::marker::Model;
use std::os::unix::fs::FileExt;
use std::sync::Arc;

/// A range of a file of the system, which is written by itself. It is seen as the path, the start of the range, its number of bytes,
/// and its count of faults. It tells no bytes. All spans of a file write through one open file.
#[derive(Drop)]
pub struct RealSpan<R: Files> {
    system: R,
    // None if the file could not be opened. Then each write is a fault.
    file: Option<Arc<R::File>>,
    path: Path,
    start: u64,
    size: u64,
    count: u64,
}

impl<R: Files> Model for RealSpan<R> {
    ghost use Rattle.std.specs.Prelude.{List, ℕ};

    ghost Value = { List ℕ × ℕ × ℕ × ℕ };

    ghost view = { λ span. (span.path, span.start, span.size, span.count) };
}

impl<R: Files> RealSpan<R> {
    fn failed(&self) -> u64
        ensures { result ≡ count_of self.now }
    {
        self.count
    }

    // Counts a fault.
    fn fault(&mut self) -> SpanError
        ensures refused { result ≡ SpanError.Failed }
        ensures piece { piece_of self.new ≡ piece_of self.old }
        ensures count { RoseBy 1 (count_of self.old) (count_of self.new) }
    {
        self.count = self.count.saturating_add(1);
        SpanError::Failed
    }
}

impl<R: Files + Watch> RealSpan<R>
where
    R::File: FileExt,
{
    // Writes the bytes, and answers as the system does. A place above the largest `u64` is refused.
    fn put(&self, at: u64, bytes: &[u8]) -> Result<(), WriteError> {
        let Some(file) = &self.file else {
            return Err(WriteError::Failed);
        };
        let Some(place) = self.start.checked_add(at) else {
            return Err(WriteError::Failed);
        };
        let told = file.write_at(bytes, place);
        wrote(&self.system, &self.path, told, bytes.len())
    }
}

impl<R: Files + Watch> Span for RealSpan<R>
where
    R::File: FileExt,
{
    ghost piece = { λ span. piece_of span };

    ghost holds = { λ span. untold span };

    ghost count = { λ span. count_of span };

    fn faults(&self) -> u64 {
        self.failed()
    }

    /// Each refusal other than out of memory is a fault, also if the file could not be opened.
    fn write(&mut self, at: u64, bytes: &[u8]) -> Result<(), SpanError> {
        match self.put(at, bytes) {
            Ok(()) => Ok(()),
            Err(WriteError::OutOfMemory) => Err(SpanError::OutOfMemory),
            Err(_) => Err(self.fault()),
        }
    }
}

/// A span from each cut to the next. All spans share the open file.
pub fn spans_of<R: Files + Watch + Copy>(
    alloc: Global,
    system: &R,
    file: Option<Arc<R::File>>,
    path: &Path,
    cuts: &[u64],
) -> Result<Vec<RealSpan<R>>, OutOfMemory>
    requires { IsTrue (are_cuts cuts.now) }
    ensures { IfOk result (λ spans. spans.items ≡ map blank (pieces path.now cuts.now)) }
{
    match cuts {
        [] => Ok(Vec::new(alloc)),
        [first, rest @ ..] => spans_behind(alloc, system, &file, path, *first, rest),
    }
}

// A span from each place to the next. The first place is this one.
fn spans_behind<R: Files + Watch + Copy>(
    alloc: Global,
    system: &R,
    file: &Option<Arc<R::File>>,
    path: &Path,
    first: u64,
    rest: &[u64],
) -> Result<Vec<RealSpan<R>>, OutOfMemory>
    requires { IsTrue (ascends_above first rest.now) }
    ensures { IfOk result (λ spans. spans.items ≡ map blank (pieces_from path.now first rest.now)) }
{
    let mut spans = Vec::with_capacity(alloc, rest.len())?;
    let mut at = first;
    for cut in rest {
        spans.push(span_at(system, file, path, at, *cut - at)?)?;
        at = *cut;
    }
    Ok(spans)
}

fn span_at<R: Files + Watch + Copy>(
    system: &R,
    file: &Option<Arc<R::File>>,
    path: &Path,
    start: u64,
    size: u64,
) -> Result<RealSpan<R>, OutOfMemory>
    ensures { IfOk result (λ span. span ≡ blank (record { path = path.now; start = start; size = size })) }
{
    let file = match file {
        Some(file) => Some(Arc::try_clone(file)?),
        None => None,
    };
    Ok(RealSpan {
        system: system.apart(),
        file,
        path: path.copy()?,
        start,
        size,
        count: 0,
    })
}

/// How often the spans have failed, all together.
pub fn faults_of<R: Files>(spans: &[RealSpan<R>]) -> u64
    ensures { result ≡ capped 0 (sum_by count_of spans.now) }
{
    let mut count = 0u64;
    for span in spans {
        count = count.saturating_add(span.failed());
    }
    count
}

/// A file that is lent in spans, seen as its path and its cuts.
#[derive(Drop)]
struct Cutting {
    path: Path,
    cuts: Vec<u64>,
}

impl Model for Cutting {
    ghost use Rattle.outside.specs.Writes.{Cut};
    ghost use Rattle.outside.specs.Codes.{cut_code};

    ghost Value = { Cut };

    ghost coded = { cut_code };

    ghost view = { λ c. record { path = c.path; cuts = c.cuts.items } };
}

/// All files that are lent in spans, in the order in which they were lent.
#[derive(Drop)]
pub struct Cuttings {
    out: Vec<Cutting>,
}

impl Model for Cuttings {
    ghost use Rattle.std.specs.Prelude.{List};
    ghost use Rattle.std.specs.Coded.{coded_list};
    ghost use Rattle.outside.specs.Writes.{Cut};
    ghost use Rattle.outside.specs.Codes.{cut_code};

    ghost Value = { List Cut };

    ghost coded = { coded_list cut_code };

    ghost view = { λ c. c.out.items };
}

impl Cutting {
    fn path(&self) -> &Path
        ensures { result.now ≡ self.now.path }
    {
        &self.path
    }
}

impl Cuttings {
    /// No file.
    pub fn make(alloc: Global) -> Cuttings
        ensures { result ≡ [] }
    {
        Cuttings {
            out: Vec::new(alloc),
        }
    }

    /// Adds a file after those that are lent. A refusal changes nothing.
    pub fn lend(&mut self, alloc: Global, path: &Path, cuts: &[u64]) -> Result<(), OutOfMemory>
        ensures ok { OnOk result (self.new ≡ self.old ++ record { path = path.now; cuts = cuts.now } ∷ []) }
        ensures err { OnErr result (self.new ≡ self.old) }
    {
        let path = path.copy()?;
        let cuts = Vec::from_slice(alloc, cuts)?;
        self.out.push(Cutting { path, cuts })?;
        Ok(())
    }

    // The place of the first lease of the file at the path.
    fn place_of(&self, path: &Path) -> Option<usize>
        ensures { result ≡ position (λ one. pointwise nat_eq one.path path.now) self.now }
    {
        self.out.iter().position(|one| one.path() == path)
    }

    /// Ends the first lease of the file at the path. It takes no memory.
    pub fn end(&mut self, path: &Path)
        requires { is_some (cuts_at path.now self.old) ≡ true }
        ensures { self.new ≡ without_cut path.now self.old }
    {
        let place = self.place_of(path).unwrap();
        self.out.remove(place);
    }
}
