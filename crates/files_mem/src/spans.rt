//! Spans of files in memory.
ghost use Rattle.std.specs.Prelude.{◌≡◌, ◌+◌, ◌≤◌, ◌↔◌, [], ◌∷◌, ◌++◌, ℕ, List, Some, true, length, map, replicate, IfOk, OnOk, OnErr, IsErr, IsErrOf, IsTrue};
ghost use Rattle.std.specs.List.{sum_by};
ghost use Rattle.std.specs.Vec.{vec_capacity};
ghost use Rattle.outside.specs.Count.{RoseBy, capped};
ghost use Rattle.outside.specs.Spans.{are_cuts, ascends_above, pieces, pieces_from};
ghost use Rattle.outside.specs.Writes.{spliced};
ghost use Rattle.files_mem.specs.Spanned.{Spanned, piece_of, blank};

use outside::{Span, SpanError};
use path_text::{OutOfMemory, Path};
use std::alloc::Global;
use std::marker::Model;

/// A span of a file in memory. It is seen as its file's path, its start there, its bytes, whether it tells them, whether its
/// writes fail, and its count of faults. It tells its bytes where its ground tells its tree.
#[derive(Drop)]
pub struct MemSpan {
    path: Path,
    start: u64,
    bytes: Vec<u8>,
    tells: bool,
    fails: bool,
    count: u64,
}

impl Model for MemSpan {
    ghost use Rattle.files_mem.specs.Spanned.{Spanned};

    ghost Value = { Spanned };

    ghost view = { λ s. record { path = s.path; start = s.start; bytes = s.bytes.items; tells = s.tells; fails = s.fails; count = s.count } };
}

impl MemSpan {
    /// A span of so many zeros.
    pub(crate) fn make(
        alloc: Global,
        path: &Path,
        start: u64,
        size: u64,
        tells: bool,
        fails: bool,
    ) -> Result<MemSpan, OutOfMemory>
        ensures { IfOk result (λ span. span ≡ blank tells fails (record { path = path.now; start = start; size = size })) }
    {
        Ok(MemSpan {
            path: path.copy()?,
            start,
            bytes: vec![in alloc; 0u8; size as usize]?,
            tells,
            fails,
            count: 0,
        })
    }

    /// Its bytes.
    pub(crate) fn bytes(&self) -> &[u8]
        ensures { result.now ≡ self.now.bytes }
    {
        &self.bytes
    }
}

impl Span for MemSpan {
    ghost use Rattle.files_mem.specs.Spanned.{piece_of, held_by};

    ghost piece = { λ s. piece_of s };

    ghost holds = { λ s. held_by s };

    ghost count = { λ s. s.count };

    fn faults(&self) -> u64 {
        self.count
    }

    /// It fails exactly if that is planned, and changes nothing then.
    fn write(&mut self, at: u64, bytes: &[u8]) -> Result<(), SpanError>
        requires { at + length bytes.now ≤ length self.old.bytes }
        ensures ok { OnOk result (self.new ≡ record self.old { bytes = spliced self.old.bytes at bytes.now }) }
        ensures len { length self.new.bytes ≡ length self.old.bytes }
        ensures fails { IsErrOf result SpanError.Failed ↔ (self.old.fails ≡ true) }
        ensures failed { OnErr result (self.new ≡ record self.old { count = capped self.old.count 1 }) }
        ensures count { RoseBy 0 self.old.count self.new.count }
        ensures cause { IsErrOf result SpanError.Failed → RoseBy 1 self.old.count self.new.count }
    {
        if self.fails {
            self.count = self.count.saturating_add(1);
            return Err(SpanError::Failed);
        }
        put_over(&mut self.bytes, at as usize, bytes);
        Ok(())
    }
}

// Puts bytes over others, within them.
fn put_over(old: &mut Vec<u8>, at: usize, bytes: &[u8])
    requires { at + length bytes.now ≤ length old.old.items }
    ensures put { old.new.items ≡ spliced old.old.items at bytes.now }
    ensures len { length old.new.items ≡ length old.old.items }
{
    old[at..at + bytes.len()].copy_from_slice(bytes);
}

/// Makes a span for each two neighbouring cuts.
pub(crate) fn spans_of(
    alloc: Global,
    path: &Path,
    cuts: &[u64],
    tells: bool,
    fails: bool,
) -> Result<Vec<MemSpan>, OutOfMemory>
    requires { IsTrue (are_cuts cuts.now) }
    ensures { IfOk result (λ spans. spans.items ≡ map (blank tells fails) (pieces path.now cuts.now)) }
{
    match cuts {
        [] => Ok(Vec::new(alloc)),
        [first, rest @ ..] => spans_behind(alloc, path, *first, rest, tells, fails),
    }
}

// A span from each place on to the next, the first place being this one.
fn spans_behind(
    alloc: Global,
    path: &Path,
    first: u64,
    rest: &[u64],
    tells: bool,
    fails: bool,
) -> Result<Vec<MemSpan>, OutOfMemory>
    requires { IsTrue (ascends_above first rest.now) }
    ensures { IfOk result (λ spans. spans.items ≡ map (blank tells fails) (pieces_from path.now first rest.now)) }
{
    let mut spans = Vec::with_capacity(alloc, rest.len())?;
    let mut at = first;
    for cut in rest {
        spans.push(MemSpan::make(alloc, path, at, *cut - at, tells, fails)?)?;
        at = *cut;
    }
    Ok(spans)
}

/// Room for the bytes of all the spans.
pub(crate) fn room_for(alloc: Global, spans: &[MemSpan]) -> Result<Vec<u8>, OutOfMemory>
    ensures empty { IfOk result (λ room. room.items ≡ []) }
    ensures room { IfOk result (λ room. sum_by (λ span. length span.bytes) spans.now ≤ vec_capacity room) }
{
    let mut whole = 0usize;
    for span in spans {
        let Some(more) = whole.checked_add(span.bytes.len()) else {
            return Err(OutOfMemory);
        };
        whole = more;
    }
    Ok(Vec::with_capacity(alloc, whole)?)
}

/// How often the spans have failed, all together.
pub(crate) fn faults_of(spans: &[MemSpan]) -> u64
    ensures { result ≡ capped 0 (sum_by (λ span. span.count) spans.now) }
{
    let mut count = 0u64;
    for span in spans {
        count = count.saturating_add(span.count);
    }
    count
}
