//! The left strings that are misplaced.
ghost use Rattle.std.specs.Prelude.{◌≡◌, ◌≤◌, ◌<◌, ◌+◌, ◌++◌, ◌||◌};
ghost use Rattle.checkpoints.specs.Prelude.{List, length, map, drop, IfOk, IfSome, OnOk, Some, None, flat_map, enumerate_from, IsPermutation, IsSorted};
ghost use Rattle.checkpoints.specs.Prelude.{IsSortedByKey, IsStrictlySortedBy, option_copied, path_cmp, paths};
ghost use Rattle.checkpoints.specs.Placing.{is_misplaced, ArePlaced, IsFirstMisplaced};
ghost use Rattle.checkpoints.specs.Passing.{covered, top_with, starts_at, paths_in, lower_of, lowest_with, IsLowest, IsPlace};
ghost use Rattle.checkpoints.specs.Lefts.{numbered};

use crate::passing::{Ahead, covers, is_clash, pass_before};
use flat_list::FlatList;
use path_text::{OutOfMemory, Path};
use std::alloc::Global;

/// A left string, and its number in all lists.
#[derive(Clone, Copy, Debug, Drop)]
struct Left<'a> {
    path: &'a Path,
    number: usize,
}

/// The first left string that is misplaced: its rank, and its place in the list of that rank, both from 0. It takes a
/// sort of the left strings and one pass over the entries.
pub fn first_misplaced(
    alloc: Global,
    done: &FlatList,
    lists: &[Vec<Path>],
) -> Result<Option<(usize, usize)>, OutOfMemory>
    requires ascend { IsStrictlySortedBy path_cmp (paths done.now) }
    ensures none { IfOk result (λ r. r ≡ None → ArePlaced done.now (flat_map (λ l. l) (map (λ list. list.items) lists.now))) }
    ensures first { IfOk result (λ r. IfSome r (λ at. IsFirstMisplaced done.now (map (λ list. list.items) lists.now) at.0 at.1)) }
{
    let Some(number) = first_number(alloc, done, lists)? else {
        return Ok(None);
    };
    Ok(place_of(lists, number))
}

// The number in all lists of the first left string that is misplaced.
fn first_number(
    alloc: Global,
    done: &FlatList,
    lists: &[Vec<Path>],
) -> Result<Option<usize>, OutOfMemory>
    requires ascend { IsStrictlySortedBy path_cmp (paths done.now) }
    ensures { let flat = flat_map (λ l. l) (map (λ list. list.items) lists.now) in IfOk result (IsLowest (is_misplaced done.now flat) (enumerate_from 0 flat)) }
{
    let lefts = in_order(alloc, lists)?;
    let lowest = lowest_misplaced(done, &lefts)?;
    Ok(lowest)
}

// All left strings in path order, with their numbers.
fn in_order<'a>(alloc: Global, lists: &'a [Vec<Path>]) -> Result<Vec<Left<'a>>, OutOfMemory>
    ensures all { IfOk result (λ lefts. IsPermutation (enumerate_from 0 (flat_map (λ l. l) (map (λ list. list.items) lists.now))) (numbered lefts.items)) }
    ensures sorted { IfOk result (λ lefts. IsSortedByKey (λ l. l.1) path_cmp (numbered lefts.items)) }
{
    let mut lefts = Vec::new(alloc);
    for list in lists {
        put_all(&mut lefts, list)?;
    }
    lefts.sort_by(|a, b| a.path.cmp(b.path))?;
    Ok(lefts)
}

// Puts the strings of a list behind the others, with the numbers that come next.
fn put_all<'a>(lefts: &mut Vec<Left<'a>>, list: &'a [Path]) -> Result<(), OutOfMemory>
    ensures { OnOk result (numbered lefts.new.items ≡ numbered lefts.old.items ++ enumerate_from (length lefts.old.items) list.now) }
{
    for path in list {
        let number = lefts.len();
        lefts.push(Left { path, number })?;
    }
    Ok(())
}

// The lowest number of a left string that is misplaced.
fn lowest_misplaced(done: &FlatList, lefts: &[Left<'_>]) -> Result<Option<usize>, OutOfMemory>
    requires ascend { IsStrictlySortedBy path_cmp (paths done.now) }
    requires sorted { IsSortedByKey (λ l. l.1) path_cmp (numbered lefts.now) }
    ensures { let lefts = numbered lefts.now in IfOk result (λ lowest. IsLowest (is_misplaced done.now (paths_in lefts)) lefts lowest) }
{
    let mut ahead = Ahead::make(done)?;
    let mut closed = None;
    let mut above = None;
    let mut lowest = None;
    for at in 0..lefts.len() {
        let left = lefts[at];
        pass_before(&mut ahead, &mut closed, left.path)?;
        let clash = is_clash(&ahead, &closed, left.path);
        let again = is_again(above, lefts, at + 1, left.path);
        lowest = lowest_with(clash || again, lowest, left.number);
        above = top_with(above, left.path);
    }
    Ok(lowest)
}

// Whether the top of the left strings before a place covers a path, or the one at the place is equal to it.
fn is_again(above: Option<&Path>, lefts: &[Left<'_>], next: usize, path: &Path) -> bool
    ensures { result ≡ (covered (option_copied above.entry) path.now || starts_at path.now (drop next (paths_in (numbered lefts.now)))) }
{
    covers(above, path) || starts_at(lefts, next, path)
}

// Whether this path stands at a place of the left strings.
fn starts_at(lefts: &[Left<'_>], at: usize, path: &Path) -> bool
    ensures { result ≡ starts_at path.now (drop at (paths_in (numbered lefts.now))) }
{
    at < lefts.len() && *lefts[at].path == *path
}

// The lowest number, with one more where it is wanted.
fn lowest_with(wanted: bool, lowest: Option<usize>, number: usize) -> Option<usize>
    ensures { result ≡ lowest_with wanted lowest number }
{
    if !wanted {
        return lowest;
    }
    match lowest {
        None => Some(number),
        Some(other) => Some(other.min(number)),
    }
}

// The top of the left strings that were looked at, with one more. A string that it covers is not the top of any later string.
fn top_with<'a>(top: Option<&'a Path>, path: &'a Path) -> Option<&'a Path>
    ensures { option_copied result ≡ top_with (option_copied top.entry) path.now }
{
    if covers(top, path) { top } else { Some(path) }
}

// Where the string stands that has this number among those of all lists.
fn place_of(lists: &[Vec<Path>], number: usize) -> Option<(usize, usize)>
    ensures none { result ≡ None → length (flat_map (λ l. l) (map (λ list. list.items) lists.now)) ≤ number }
    ensures place { IfSome result (λ at. IsPlace (map (λ list. list.items) lists.now) number at.0 at.1) }
{
    let mut left = number;
    for (rank, list) in lists.iter().enumerate() {
        if left < list.len() {
            return Some((rank, left));
        }
        left -= list.len();
    }
    None
}
