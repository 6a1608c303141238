//! The entries of a list that meet tests.
ghost use Rattle.std.specs.Prelude.{◌≡◌, ◌==◌, filter, is_some, length, IfOk};
ghost use Rattle.std.specs.List.{count_by, list_all};
ghost use Rattle.find_tests.specs.Tests.{holds, is_selected};

use crate::testing::Test;
use flat_list::{Entry, FlatList};
use outside::Stat;
use path_text::{OutOfMemory, Path};
use std::alloc::Global;

/// Copies of the entries that have a stat and meet every test, in their order. `now` is the time in seconds since 1970.
pub fn select(
    alloc: Global,
    list: &FlatList,
    tests: &[Test],
    now: u64,
) -> Result<FlatList, OutOfMemory>
    ensures { IfOk result (λ selected. selected ≡ filter (is_selected tests.now now) list.now) }
{
    let mut selected = FlatList::make(alloc);
    let mut cursor = list.cursor()?;
    while cursor.advance()? {
        let entry = cursor.entry();
        if is_selected(entry, tests, now) {
            selected.add(entry)?;
        }
    }
    Ok(selected)
}

/// The entries of a list that have a stat and meet every test, in their order, as [`select`] has them. The call moves them. Without
/// a test it counts the stats, and gives the list back if no entry lacks one.
pub fn select_from(list: FlatList, tests: &[Test], now: u64) -> Result<FlatList, OutOfMemory>
    ensures { IfOk result (λ selected. selected ≡ filter (is_selected tests.now now) list) }
{
    if tests.is_empty() && have_stats(&list) {
        return Ok(list);
    }
    let mut list = list;
    list.retain(|entry| is_selected(entry, tests, now))?;
    Ok(list)
}

// Whether each entry has a stat.
fn have_stats(list: &FlatList) -> bool
    ensures { result ≡ (count_by (λ e. is_some e.stat) list.now == length list.now) }
{
    list.summary().items == list.len() as u64
}

fn is_selected(entry: &Entry, tests: &[Test], now: u64) -> bool
    ensures { result ≡ is_selected tests.now now entry.now }
{
    match &entry.stat {
        Some(stat) => meets_all(&entry.path, stat, tests, now),
        None => false,
    }
}

fn meets_all(path: &Path, stat: &Stat, tests: &[Test], now: u64) -> bool
    ensures { result ≡ list_all (λ test. holds test path.now stat.now now) tests.now }
{
    tests.iter().all(|test| test.holds(path, stat, now))
}
