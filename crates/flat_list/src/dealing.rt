//! The places of a list by level, and its entries in pieces.
ghost use Rattle.std.specs.Prelude.{◌≡◌, ◌<◌, ◌≤◌, length, map, max, IfOk, []};
ghost use Rattle.std.specs.List.{range_with_len};
ghost use Rattle.path_text.specs.Path.{level_of};
ghost use Rattle.flat_list.specs.Orders.{level_count, places_at, dealt};

use crate::lists::FlatList;
use path_text::OutOfMemory;
use std::alloc::Global;

// The places of each level.
pub(crate) fn levels_of(list: &FlatList) -> Result<Vec<Vec<usize>>, OutOfMemory>
    ensures { IfOk result (λ levels. map (λ places. places.items) levels.items ≡ map (λ k. places_at k list.now) (range_with_len 0 (level_count list.now))) }
{
    let mut levels = no_places(list.alloc(), level_count(list)?)?;
    let mut cursor = list.cursor()?;
    for at in 0..list.len() {
        cursor.advance()?;
        levels[cursor.entry().path.level() as usize].push(at)?;
    }
    Ok(levels)
}

fn no_places(alloc: Global, count: usize) -> Result<Vec<Vec<usize>>, OutOfMemory>
    ensures { IfOk result (λ levels. map (λ places. places.items) levels.items ≡ map (λ k. places_at k []) (range_with_len 0 count)) }
{
    let mut levels = Vec::with_capacity(alloc, count)?;
    for _ in 0..count {
        levels.push(Vec::new(alloc))?;
    }
    Ok(levels)
}

// How many levels there are, down to the deepest entry.
#[tactic(auto, using(crate::proofs::Dealt::count_step, crate::proofs::Dealt::count_all))]
fn level_count(list: &FlatList) -> Result<usize, OutOfMemory>
    ensures { IfOk result (λ count. count ≡ level_count list.now) }
{
    let mut count = 0;
    let mut cursor = list.cursor()?;
    while cursor.advance()? {
        count = greater(count, cursor.entry().path.level() as usize + 1);
    }
    Ok(count)
}

fn greater(a: usize, b: usize) -> usize
    ensures { result ≡ max a b }
{
    if a < b { b } else { a }
}

// Copies of the entries in n pieces: an entry goes to the piece whose number is the rest of its place divided by n.
pub(crate) fn pieces_of(list: &FlatList, n: u32) -> Result<Vec<FlatList>, OutOfMemory>
    requires { 1 ≤ n }
    ensures { IfOk result (λ pieces. pieces.items ≡ map (λ j. dealt n j list.now) (range_with_len 0 n)) }
{
    let mut pieces = no_entries(list.alloc(), n)?;
    let mut cursor = list.cursor()?;
    for at in 0..list.len() {
        cursor.advance()?;
        pieces[at % n as usize].add(cursor.entry())?;
    }
    Ok(pieces)
}

fn no_entries(alloc: Global, n: u32) -> Result<Vec<FlatList>, OutOfMemory>
    ensures { IfOk result (λ pieces. pieces.items ≡ map (λ j. dealt n j []) (range_with_len 0 n)) }
{
    let mut pieces = Vec::with_capacity(alloc, n as usize)?;
    for _ in 0..n {
        pieces.push(FlatList::make(alloc))?;
    }
    Ok(pieces)
}
