//! Writes the bytes of a file by spans.
ghost use Rattle.std.specs.Prelude.{◌≡◌, ◌⊎◌, ◌+◌, ◌<◌, ◌≤◌, List, [], Option, Some, false, length, map, IfOk, IfSome, IsTrue, is_some};
ghost use Rattle.std.specs.FinMap.{get};
ghost use Rattle.std.specs.List.{sum_by};
ghost use Rattle.std.specs.Vec.{vec_capacity};
ghost use Rattle.outside.specs.Asked as asked;
ghost use Rattle.flat_list.specs.Prelude.{RoseBy, Files, content, is_root, nothing_lent, SameBut};
ghost use Rattle.outside.specs.Spans.{are_cuts, pieces};
ghost use Rattle.outside.specs.Writes.{new_file};
ghost use Rattle.tree_copy.specs.Causes.{IsWritten, ShowsSpans};
ghost use Rattle.range_copy.specs.Large.{IsSource};
ghost use Rattle.range_copy.specs.PrivateLarge.{fate_of};
ghost use Rattle.range_copy.specs.PrivateShowing.{AreFilledBy, AreRead};
ghost use Rattle.range_copy.specs.PrivateTurns.{AllSee, AreBlamed, AreDone, AreFilled, AreIdle, FilledAs, came_of, faults_of, outcome_of, reader_faults};
ghost use Rattle.range_copy.specs.Ranges.{end_of};

use crate::came::Came;
use crate::cutting::RangeError;
use crate::filled::Filled;
use crate::fillers::Filler;
use crate::loads::{Load, load_all};
use crate::turns::fill_all;
use outside::{Plot, Span, SpanError, Tree, Wide, nodes_are_under_directories};
use path_text::Path;
use std::alloc::Global;
use std::thread::Threads;

// Fills the empty file at the target with the bytes of the source, by spans that the fillers fill. All spans are back then.
pub(crate) fn spanned<R: Threads + Sync, G: Wide>(
    rt: &R,
    alloc: Global,
    ground: &mut G,
    fillers: &mut [Filler<G::Reader, G::Span>],
    source: &Path,
    target: &Path,
    cuts: &[u64],
    size: u64,
    hosts: u32,
) -> Result<Came, RangeError>
where
    G::Reader: Send,
    G::Span: Send,
    requires cuts { IsTrue (are_cuts cuts.now) }
    requires whole { end_of cuts.now ≡ size }
    requires hosts { 1 ≤ hosts }
    requires lent { G.area ground.old ≡ nothing_lent }
    requires root { is_root target.now ≡ false }
    requires some { 0 < length fillers.old }
    requires idle { AreIdle fillers.old }
    requires fine { AreDone fillers.old }
    requires empty { IfSome (G.tree ground.old) (λ files. get files target.now ≡ Some (new_file [])) }
    requires made { IsWritten G.gives target.now asked.make_file ground.old }
    ensures told { (seen : Option Files) → AllSee G.Reader.tree seen fillers.old → IfSome seen (IsSource source.now size) →
        IfOk result (λ came. IfSome seen (λ files. IfSome (G.tree ground.new) (λ after.
        FilledAs (content (get files source.now)) (get after target.now) came))) }
    ensures cause { IfOk result (λ came. came ≡ Came.Failed →
        (RoseBy 1 (G.count ground.old) (G.count ground.new)) ⊎ (1 ≤ reader_faults G.Reader.count fillers.new)) }
    ensures shown { IfOk result (λ came. ShowsSpans G.Reader.gives G.gives G.area G.count source.now target.now size (fate_of came)) }
    ensures others { IfSome (G.tree ground.old) (λ before. IfSome (G.tree ground.new) (SameBut target.now before)) }
    ensures tells { is_some (G.tree ground.new) ≡ is_some (G.tree ground.old) }
    ensures lent { G.area ground.new ≡ nothing_lent }
    ensures count { RoseBy 0 (G.count ground.old) (G.count ground.new) }
{
    nodes_are_under_directories();
    let _ = target.text(); // shows that it is a path
    let _faults = ground.faults(); // shows that the nodes are a tree
    let loads = Vec::with_capacity(alloc, cuts.len())?;
    let done = Vec::with_capacity(alloc, cuts.len())?;
    let spans = match ground.lease_spans(alloc, target, cuts) {
        Ok(spans) => spans,
        Err(SpanError::Failed) => return Ok(Came::Failed),
        Err(SpanError::OutOfMemory) => return Err(RangeError::OutOfMemory),
    };
    let filled = fill_spans(
        rt, fillers, spans, cuts, loads, done, source, target, size, hosts,
    );
    ground.give_back_spans(target, filled);
    let _faults = ground.faults();
    came_of(outcome(fillers))
}

// The spans of a file, filled. There is room for them twice, so that all come back.
fn fill_spans<R: Threads + Sync, T: Tree + Send + Drop, S: Span + Send + Drop>(
    rt: &R,
    fillers: &mut [Filler<T, S>],
    spans: Vec<S>,
    cuts: &[u64],
    loads: Vec<Load<S>>,
    done: Vec<S>,
    source: &Path,
    target: &Path,
    total: u64,
    hosts: u32,
) -> Vec<S>
    requires hosts { 1 ≤ hosts }
    requires some { 0 < length fillers.old }
    requires idle { AreIdle fillers.old }
    requires fine { AreDone fillers.old }
    requires pieces { map S.piece spans.items ≡ pieces target.now cuts.now }
    requires cuts { IsTrue (are_cuts cuts.now) }
    requires whole { end_of cuts.now ≡ total }
    requires no_loads { loads.items ≡ [] }
    requires none_done { done.items ≡ [] }
    requires room { length cuts.now ≤ vec_capacity loads }
    requires done_room { length cuts.now ≤ vec_capacity done }
    ensures filled { AreFilled T.tree S.piece S.holds source.now total fillers.old spans.items fillers.new result.items }
    ensures blamed { AreBlamed (faults_of T.count S.count fillers.new result.items) fillers.new }
    ensures read { AreDone fillers.new → AreRead T.gives S.piece source.now result.items }
    ensures shown { AreFilledBy T.gives source.now (sum_by S.count result.items) fillers.new }
{
    let mut loads = loads;
    let mut done = done;
    load_all(spans, cuts, &mut loads);
    fill_all(rt, fillers, loads, &mut done, source, total, hosts);
    done
}

// The outcome of the work of all: the first that is not `Done`.
pub(crate) fn outcome<T, S>(fillers: &[Filler<T, S>]) -> Filled
    ensures { result ≡ outcome_of fillers.now }
{
    for one in fillers {
        if one.filled != Filled::Done {
            return one.filled;
        }
    }
    Filled::Done
}

// The outcome of the file.
fn came_of(filled: Filled) -> Result<Came, RangeError>
    ensures { result ≡ came_of filled }
{
    match filled {
        Filled::Done => Ok(Came::Done),
        Filled::Failed => Ok(Came::Failed),
        Filled::Changed => Ok(Came::Changed),
        Filled::Lost => Err(RangeError::OutOfMemory),
    }
}
