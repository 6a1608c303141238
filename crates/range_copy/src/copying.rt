//! Copies one large file by ranges.
ghost use Rattle.std.specs.Prelude.{◌≡◌, ◌⊎◌, ◌+◌, ◌-◌, ◌^◌, ◌<◌, ◌≤◌, true, false, length, min, IfOk, IfSome, IsTrue, is_some};
ghost use Rattle.std.specs.FinMap.{get};
ghost use Rattle.flat_list.specs.Prelude.{parent_of, RoseBy, content, is_dir, is_root, nothing_lent, SameBut};
ghost use Rattle.outside.specs.Spans.{are_cuts};
ghost use Rattle.tree_copy.specs.Causes.{ShowsSpans};
ghost use Rattle.range_copy.specs.Large.{IsLeft, IsSource};
ghost use Rattle.range_copy.specs.PrivateLarge.{fate_of};
ghost use Rattle.range_copy.specs.PrivateShowing.{AreFreshBy};
ghost use Rattle.range_copy.specs.PrivateTurns.{AllSee, AreFresh, AreIdle, reader_faults};
ghost use Rattle.range_copy.specs.Ranges.{end_of};

use crate::came::Came;
use crate::cutting::{RangeError, ranges};
use crate::filled::Filled;
use crate::fillers::Filler;
use crate::placing::placed;
use crate::spanning::{outcome, spanned};
use outside::{Ground, Plot, Wide};
use path_text::Path;
use std::alloc::Global;
use std::thread::Threads;

// Copies one file to a target whose parent is a directory. It removes an old file there; a node that is not a file stays. It writes
// the bytes by the spans of `ranges`. The reader `k` mod `ranks` fills span `k`, in up to `hosts` threads.
pub(crate) fn copy_file<R: Threads + Sync, G: Wide>(
    rt: &R,
    alloc: Global,
    source: &Path,
    target: &Path,
    size: u64,
    piece: u64,
    ground: &mut G,
    ranks: u32,
    hosts: u32,
) -> Result<Came, RangeError>
where
    G::Reader: Send,
    G::Span: Send,
    requires piece { 1 ≤ piece }
    requires larger { piece < size }
    requires ranks { 1 ≤ ranks }
    requires hosts { 1 ≤ hosts }
    requires lent { G.area ground.old ≡ nothing_lent }
    requires root { is_root target.now ≡ false }
    requires source { IfSome (G.tree ground.old) (IsSource source.now size) }
    requires stand { IfSome (G.tree ground.old) (λ before. is_dir (get before (parent_of target.now)) ≡ true) }
    ensures told { IfOk result (λ came. IfSome (G.tree ground.old) (λ before. IfSome (G.tree ground.new) (λ after.
        IsLeft (content (get before source.now)) (get before target.now) (get after target.now) came))) }
    ensures cause { IfOk result (λ came. came ≡ Came.Failed → RoseBy 1 (G.count ground.old) (G.count ground.new)) }
    ensures shown { IfOk result (λ came. ShowsSpans G.Reader.gives G.gives G.area G.count source.now target.now size (fate_of came)) }
    ensures others { IfSome (G.tree ground.old) (λ before. IfSome (G.tree ground.new) (SameBut target.now before)) }
    ensures tells { is_some (G.tree ground.new) ≡ is_some (G.tree ground.old) }
    ensures lent { G.area ground.new ≡ nothing_lent }
    ensures count { RoseBy 0 (G.count ground.old) (G.count ground.new) }
{
    let cuts = ranges(alloc, size, piece)?;
    let number = number_of_fillers(ranks, &cuts);
    let mut fillers = hired(alloc, ground, number, source)?;
    let came = copied(
        rt,
        alloc,
        ground,
        source,
        target,
        size,
        &cuts,
        &mut fillers,
        hosts,
    );
    // The count of faults is a number of 64 bits.
    let _faults = ground.faults();
    take_back(ground, fillers);
    came
}

// How many fillers work: no more than there are ranges.
fn number_of_fillers(ranks: u32, cuts: &[u64]) -> usize
    requires ranks { 1 ≤ ranks }
    requires cuts { IsTrue (are_cuts cuts.now) }
    ensures { 1 ≤ result }
{
    let ranges = cuts.len() - 1;
    if ranges < ranks as usize {
        ranges
    } else {
        ranks as usize
    }
}

// So many fillers, each with a reader of the files as they are, which has opened the source.
fn hired<G: Wide>(
    alloc: Global,
    ground: &mut G,
    number: usize,
    source: &Path,
) -> Result<Vec<Filler<G::Reader, G::Span>>, RangeError>
    ensures number { IfOk result (λ fillers. length fillers.items ≡ number) }
    ensures see { IfOk result (λ fillers. AllSee G.Reader.tree (G.tree ground.old) fillers.items) }
    ensures idle { IfOk result (λ fillers. AreIdle fillers.items) }
    ensures fresh { IfOk result (λ fillers. AreFresh G.Reader.count fillers.items) }
    ensures shown { IfOk result (λ fillers. AreFreshBy G.Reader.gives source.now fillers.items) }
    ensures same { G.tree ground.new ≡ G.tree ground.old }
    ensures area { G.area ground.new ≡ G.area ground.old }
    ensures count { G.count ground.new ≡ G.count ground.old }
{
    let mut fillers = Vec::with_capacity(alloc, number)?;
    while fillers.len() < number {
        fillers.push(Filler::make(alloc, ground.reader(alloc)?, source)?)?;
    }
    Ok(fillers)
}

// Makes the target and fills it. If a reader can't read the source, nothing is touched.
fn copied<R: Threads + Sync, G: Wide>(
    rt: &R,
    alloc: Global,
    ground: &mut G,
    source: &Path,
    target: &Path,
    size: u64,
    cuts: &[u64],
    fillers: &mut [Filler<G::Reader, G::Span>],
    hosts: u32,
) -> Result<Came, RangeError>
where
    G::Reader: Send,
    G::Span: Send,
    requires source { IfSome (G.tree ground.old) (IsSource source.now size) }
    requires stand { IfSome (G.tree ground.old) (λ before. is_dir (get before (parent_of target.now)) ≡ true) }
    requires root { is_root target.now ≡ false }
    requires lent { G.area ground.old ≡ nothing_lent }
    requires cuts { IsTrue (are_cuts cuts.now) }
    requires whole { end_of cuts.now ≡ size }
    requires hosts { 1 ≤ hosts }
    requires some { 0 < length fillers.old }
    requires see { AllSee G.Reader.tree (G.tree ground.old) fillers.old }
    requires idle { AreIdle fillers.old }
    requires fresh { AreFresh G.Reader.count fillers.old }
    requires shown { AreFreshBy G.Reader.gives source.now fillers.old }
    ensures lent { G.area ground.new ≡ nothing_lent }
    ensures count { RoseBy 0 (G.count ground.old) (G.count ground.new) }
    ensures tells { is_some (G.tree ground.new) ≡ is_some (G.tree ground.old) }
    ensures others { IfSome (G.tree ground.old) (λ before. IfSome (G.tree ground.new) (SameBut target.now before)) }
    ensures shown { IfOk result (λ came. ShowsSpans G.Reader.gives G.gives G.area G.count source.now target.now size (fate_of came)) }
    ensures told { IfOk result (λ came. IfSome (G.tree ground.old) (λ before. IfSome (G.tree ground.new) (λ after.
        IsLeft (content (get before source.now)) (get before target.now) (get after target.now) came))) }
    ensures cause { IfOk result (λ came. came ≡ Came.Failed →
        (RoseBy 1 (G.count ground.old) (G.count ground.new)) ⊎ (1 ≤ reader_faults G.Reader.count fillers.new)) }
{
    let Filled::Done = outcome(fillers) else {
        return Ok(Came::Failed);
    };
    match placed(alloc, ground, target)? {
        Came::Done => spanned(
            rt, alloc, ground, fillers, source, target, cuts, size, hosts,
        ),
        Came::Failed => Ok(Came::Failed),
        Came::Conflict => Ok(Came::Conflict),
        Came::Changed => Ok(Came::Changed),
    }
}

// Takes all readers back, which adds their counts.
fn take_back<G: Wide>(ground: &mut G, fillers: Vec<Filler<G::Reader, G::Span>>)
    ensures same { G.tree ground.new ≡ G.tree ground.old }
    ensures area { G.area ground.new ≡ G.area ground.old }
    ensures kept { G.count ground.old ≤ G.count ground.new }
    ensures count { G.count ground.old < 2 ^ 64 → G.count ground.new ≡ min (G.count ground.old + reader_faults G.Reader.count fillers.items) (2 ^ 64 - 1) }
{
    for one in fillers {
        ground.take_reader(one.into_reader());
    }
}
