//! Joins runs to one list.
//!
//! Runs of which each comes before the one before it, as those of one rank do, are joined as they are kept, the last first.
//! Others are merged: the run whose next entry comes first gives its entries until that of another comes first. The others are
//! kept in falling order of their next entries, and the next run is found among them by halving. So even of many runs few paths
//! are compared. Nothing is promised of the order: a caller that needs a list in order goes over it once more.
ghost use Rattle.std.specs.Prelude.{◌≡◌, ◌++◌, ◌≤◌, length, OnOk, IfOk};
ghost use Rattle.std.specs.List.{flat_map};
ghost use Rattle.std.specs.List.Sorted.{IsPermutation};

use crate::lists::FlatList;
use crate::sources::Source;
use path_text::{OutOfMemory, common_len};
use std::alloc::Global;

/// All entries of the runs. If each run is in path order, so are they. Runs that come in falling order, as one rank's do, are
/// joined as they are kept.
pub(crate) fn joined(alloc: Global, runs: Vec<FlatList>) -> Result<FlatList, OutOfMemory>
    ensures { IfOk result (λ all. IsPermutation (flat_map (λ run. run) runs.items) all) }
{
    if fall(&runs) {
        return turned(alloc, runs);
    }
    merged(alloc, &runs)
}

// Whether each run comes before the one before it.
fn fall(runs: &[FlatList]) -> bool {
    for at in 1..runs.len() {
        if !runs[at].is_before(&runs[at - 1]) {
            return false;
        }
    }
    true
}

// All entries of the runs, those of the last one first. It drops each run as soon as it has joined it.
fn turned(alloc: Global, runs: Vec<FlatList>) -> Result<FlatList, OutOfMemory>
    ensures { IfOk result (λ all. IsPermutation (flat_map (λ run. run) runs.items) all) }
{
    let mut all = FlatList::with_room_of(alloc, &runs)?;
    let mut runs = runs;
    while let Some(run) = runs.pop() {
        all.put_behind(&run)?;
    }
    Ok(all)
}

// All entries of the runs, merged.
fn merged(alloc: Global, runs: &[FlatList]) -> Result<FlatList, OutOfMemory>
    ensures { IfOk result (λ all. IsPermutation (flat_map (λ run. run) runs.now) all) }
{
    let mut all = FlatList::with_room_of(alloc, runs)?;
    let mut sources = sources_of(alloc, runs)?;
    let mut waiting = waiting_of(alloc, &sources)?;
    give_in_turn(&mut all, &mut sources, &mut waiting, len_of(runs))?;
    give_rest(&mut all, sources)?;
    Ok(all)
}

// How many entries the lists have.
pub(crate) fn len_of(lists: &[FlatList]) -> usize {
    let mut len = 0usize;
    for list in lists {
        len = len.saturating_add(list.len());
    }
    len
}

fn sources_of<'a>(alloc: Global, runs: &'a [FlatList]) -> Result<Vec<Source<'a>>, OutOfMemory>
    ensures { IfOk result (λ sources. sources.items ≡ runs.now) }
{
    let mut sources = Vec::with_capacity(alloc, runs.len())?;
    for run in runs {
        sources.push(Source::make(run)?)?;
    }
    Ok(sources)
}

// Each source that is not over, those whose next entry comes first at the end.
fn waiting_of(alloc: Global, sources: &[Source<'_>]) -> Result<Vec<usize>, OutOfMemory> {
    let mut waiting = Vec::with_capacity(alloc, sources.len())?;
    for at in 0..sources.len() {
        if !is_over(sources, at) {
            wait(sources, &mut waiting, at);
        }
    }
    Ok(waiting)
}

// The sources give this many entries, each time the one that comes first.
fn give_in_turn(
    all: &mut FlatList,
    sources: &mut Vec<Source<'_>>,
    waiting: &mut Vec<usize>,
    count: usize,
) -> Result<(), OutOfMemory>
    ensures { OnOk result (IsPermutation (all.old ++ flat_map (λ s. s) sources.old.items) (all.new ++ flat_map (λ s. s) sources.new.items)) }
{
    let mut turn = first_turn(sources, waiting);
    for _ in 0..count {
        if turn.at >= sources.len() {
            return Ok(());
        }
        sources[turn.at].give(all)?;
        turn = next_turn(sources, waiting, turn);
    }
    Ok(())
}

// All that is left in the sources goes after the others.
fn give_rest(all: &mut FlatList, sources: Vec<Source<'_>>) -> Result<(), OutOfMemory>
    ensures { OnOk result (all.new ≡ all.old ++ flat_map (λ s. s) sources.entry.items) }
{
    for source in sources {
        let mut source = source;
        source.give_all(all)?;
    }
    Ok(())
}

// Which source gives, and how many bytes its next path shares with that of the source that waits at the end. If that is not
// known, the number is higher than the length of any path.
#[derive(Clone, Copy, Drop)]
struct Turn {
    at: usize,
    same: usize,
}

// The source that waits at the end is next.
fn first_turn(sources: &[Source<'_>], waiting: &mut Vec<usize>) -> Turn {
    Turn {
        at: waiting.pop().unwrap_or(sources.len()),
        same: usize::MAX,
    }
}

// Which source is next, after one that just gave an entry. Suppose that its next path shares more with the one it gave than
// that one did with the one that waits. Then it comes first as that one did, and no paths are compared.
fn next_turn(sources: &[Source<'_>], waiting: &mut Vec<usize>, turn: Turn) -> Turn {
    if is_over(sources, turn.at) {
        return first_turn(sources, waiting);
    }
    let Some(next) = waiting.last().copied() else {
        return turn;
    };
    if shared(sources, turn.at) > turn.same {
        return turn;
    }
    if !comes_before(sources, next, turn.at) {
        return Turn {
            at: turn.at,
            same: same_len(sources, turn.at, next),
        };
    }
    let first = first_turn(sources, waiting);
    wait(sources, waiting, turn.at);
    first
}

// A source waits among the others, before those that come no later.
fn wait(sources: &[Source<'_>], waiting: &mut Vec<usize>, at: usize) {
    let place = waiting.partition_point(|other| comes_before(sources, at, *other));
    let _ = waiting.insert(place, at);
}

fn is_over(sources: &[Source<'_>], at: usize) -> bool {
    match sources.get(at) {
        Some(source) => source.is_over(),
        None => true,
    }
}

// Whether the next entry of one source comes before that of another.
fn comes_before(sources: &[Source<'_>], one: usize, other: usize) -> bool {
    let (Some(one), Some(other)) = (sources.get(one), sources.get(other)) else {
        return false;
    };
    match (one.next(), other.next()) {
        (Some(one), Some(other)) => one.path.cmp(&other.path).is_lt(),
        _ => false,
    }
}

// How many bytes the next path of a source shares with the one that it gave last, or fewer.
fn shared(sources: &[Source<'_>], at: usize) -> usize {
    match sources.get(at) {
        Some(source) => source.shared(),
        None => 0,
    }
}

// How many bytes the next paths of two sources share.
fn same_len(sources: &[Source<'_>], one: usize, other: usize) -> usize {
    let (Some(one), Some(other)) = (sources.get(one), sources.get(other)) else {
        return usize::MAX;
    };
    match (one.next(), other.next()) {
        (Some(one), Some(other)) => common_len(
            one.path.text().as_bytes(),
            other.path.text().as_bytes(),
        ),
        _ => usize::MAX,
    }
}
