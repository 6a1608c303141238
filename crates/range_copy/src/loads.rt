//! Spans with their places in the file.
ghost use Rattle.std.specs.Prelude.{◌≡◌, ◌+◌, ◌<◌, ◌≤◌, ◌++◌, ℕ, List, [], Some, length, map, slice_get, IsTrue};
ghost use Rattle.std.specs.Vec.{vec_len, vec_capacity};
ghost use Rattle.outside.specs.Spans.{are_cuts, pieces};
ghost use Rattle.range_copy.specs.PrivateFilling.{AreLoads, spans_left};
ghost use Rattle.range_copy.specs.Ranges.{end_of};

use outside::Span;

// A span of a file, where it begins there, and how many bytes it has.
#[derive(Drop)]
pub(crate) struct Load<S> {
    pub(crate) span: S,
    pub(crate) start: u64,
    pub(crate) size: u64,
}

// Puts the spans with their places into a list with room for them. The first span comes last, so that loads are taken from the end.
pub(crate) fn load_all<S: Span + Drop>(mut spans: Vec<S>, cuts: &[u64], loads: &mut Vec<Load<S>>)
    requires empty { loads.old.items ≡ [] }
    requires room { vec_len spans ≤ vec_capacity loads.old }
    requires cuts { IsTrue (are_cuts cuts.now) }
    requires number { length spans.items + 1 ≡ length cuts.now }
    ensures spans { spans_left loads.new.items ≡ spans.items }
    ensures loads { (path : List ℕ) → map S.piece spans.items ≡ pieces path cuts.now → AreLoads S.piece (end_of cuts.now) loads.new.items }
{
    while let Some(span) = spans.pop() {
        let load = load_at(span, cuts, spans.len());
        let Ok(()) = loads.push(load) else {
            unreachable!()
        };
    }
}

// The span of this number, with its place between two cuts.
fn load_at<S>(span: S, cuts: &[u64], k: usize) -> Load<S>
    requires cuts { IsTrue (are_cuts cuts.now) }
    requires inside { k + 1 < length cuts.now }
    ensures span { result.span ≡ span }
    ensures start { slice_get cuts.now k ≡ Some result.start }
    ensures end { slice_get cuts.now (k + 1) ≡ Some (result.start + result.size) }
{
    let start = cuts[k];
    let end = cuts[k + 1];
    Load {
        span,
        start,
        size: end - start,
    }
}
