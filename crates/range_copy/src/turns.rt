//! The spans of a file in turns: in each turn every filler has one span, so span `k` goes to filler `k` mod their number.
ghost use Rattle.std.specs.Prelude.{◌≡◌, ◌+◌, ◌<◌, ◌≤◌, ◌++◌, ℕ, [], None, length, slice_index_or, All};
ghost use Rattle.std.specs.List.{sum_by};
ghost use Rattle.std.specs.Vec.{vec_capacity};
ghost use Rattle.range_copy.specs.PrivateFilling.{AreLoads, HasCounted, HasWorked, IsReady, loads_of, span_of, spans_left, spans_of};
ghost use Rattle.range_copy.specs.PrivateTurns.{AreBlamed, AreDone, AreFilled, AreIdle, IsTurn, faults_of};
ghost use Rattle.range_copy.specs.PrivateShowing.{AreFilledBy, AreRead, HasShown};

use crate::fillers::Filler;
use crate::loads::Load;
use outside::{Span, Tree};
use path_text::Path;
use std::thread::Threads;
use std::{mem, thread};

// Fills all spans with the bytes of a file of so many bytes, in up to `hosts` threads. Puts them into `done`, which has room for them,
// in their order.
pub(crate) fn fill_all<R: Threads + Sync, T: Tree + Send + Drop, S: Span + Send + Drop>(
    rt: &R,
    fillers: &mut [Filler<T, S>],
    mut loads: Vec<Load<S>>,
    done: &mut Vec<S>,
    source: &Path,
    total: u64,
    hosts: u32,
)
    requires hosts { 1 ≤ hosts }
    requires some { 0 < length fillers.old }
    requires idle { AreIdle fillers.old }
    requires fine { AreDone fillers.old }
    requires empty { done.old.items ≡ [] }
    requires loads { AreLoads S.piece total loads.items }
    requires room { length loads.items ≤ vec_capacity done.old }
    ensures filled { AreFilled T.tree S.piece S.holds source.now total fillers.old (spans_left loads.items) fillers.new done.new.items }
    ensures blamed { AreBlamed (faults_of T.count S.count fillers.new done.new.items) fillers.new }
    ensures read { AreDone fillers.new → AreRead T.gives S.piece source.now done.new.items }
    ensures shown { AreFilledBy T.gives source.now (sum_by S.count done.new.items) fillers.new }
{
    let count = loads.len();
    while done.len() < count {
        turn(fillers, &mut loads, done);
        work_all(rt, fillers, source, total, hosts);
    }
}

// Each filler fills its span.
fn work_all<R: Threads + Sync, T: Tree + Send, S: Span + Send>(
    rt: &R,
    fillers: &mut [Filler<T, S>],
    source: &Path,
    total: u64,
    hosts: u32,
)
    requires hosts { 1 ≤ hosts }
    requires ready { All (IsReady S.piece total) fillers.old }
    ensures worked { (k : ℕ) (d : Filler T S) → k < length fillers.old →
        HasWorked T.tree S.piece S.holds source.now total (slice_index_or fillers.old k d) (slice_index_or fillers.new k d) }
    ensures counted { (k : ℕ) (d : Filler T S) → k < length fillers.old →
        HasCounted T.count S.count (slice_index_or fillers.old k d) (slice_index_or fillers.new k d) }
    ensures shown { (k : ℕ) (d : Filler T S) → k < length fillers.old →
        HasShown T.gives S.piece S.count source.now (slice_index_or fillers.old k d) (slice_index_or fillers.new k d) }
{
    thread::for_each_mut(
        rt,
        fillers,
        hosts as usize,
        &|_, one| one.work(source, total),
    );
}

// Takes the span of each filler back, and deals it the next one that is left.
fn turn<T, S: Span + Drop>(
    fillers: &mut [Filler<T, S>],
    loads: &mut Vec<Load<S>>,
    done: &mut Vec<S>,
)
    requires some { 0 < length fillers.old }
    requires room { length done.old.items + length (spans_of fillers.old) ≤ vec_capacity done.old }
    ensures turn { (total : ℕ) → AreLoads S.piece total loads.old.items →
        IsTurn S.piece total fillers.old loads.old.items done.old.items fillers.new loads.new.items done.new.items }
    ensures room { vec_capacity done.old ≤ vec_capacity done.new }
{
    for i in 0..fillers.len() {
        let next = next_of(loads);
        let last = hand(&mut fillers[i], next);
        put(last, done);
    }
}

// The next load, if one is left.
fn next_of<S>(loads: &mut Vec<Load<S>>) -> Option<Load<S>>
    ensures last { loads.old.items ≡ loads.new.items ++ loads_of result }
    ensures none { result ≡ None → loads.old.items ≡ [] }
{
    match loads.pop() {
        Some(load) => Some(load),
        None => None,
    }
}

// Hands a filler a span, if there is one, and takes the one that it has.
fn hand<T, S>(one: &mut Filler<T, S>, next: Option<Load<S>>) -> Option<Load<S>>
    ensures last { result ≡ one.old.load }
    ensures next { one.new.load ≡ next }
    ensures reader { one.new.reader ≡ one.old.reader }
    ensures filled { one.new.filled ≡ one.old.filled }
{
    mem::replace(&mut one.load, next)
}

// Puts the span of a load into a list with room for it.
fn put<S: Drop>(last: Option<Load<S>>, done: &mut Vec<S>)
    requires room { length done.old.items + length (span_of last) ≤ vec_capacity done.old }
    ensures items { done.new.items ≡ done.old.items ++ span_of last }
    ensures room { vec_capacity done.old ≤ vec_capacity done.new }
{
    if let Some(load) = last {
        let Ok(()) = done.push(load.span) else {
            unreachable!()
        };
    }
}
