//! Entries as items of work, each at its target.
ghost use Rattle.std.specs.Prelude.{◌≡◌, ◌<◌, ◌++◌, ◌∷◌, [], None, Some, All, length};
ghost use Rattle.std.specs.Prelude.{map, slice_get, true, false, nat_le, if◌then◌else◌, IfOk, OnOk, IfSome, is_some};
ghost use Rattle.std.specs.List.{list_any};
ghost use Rattle.flat_list.specs.Prelude.{refusal, is_within, grafted, below_of};
ghost use Rattle.tree_copy.specs.Copying.{CanCopy, ends_of, target_of, treated};
ghost use Rattle.tree_copy.specs.Placing.{IsPair, overlap};
ghost use Rattle.tree_copy.specs.PrivateSettling.{has_room, item_of, items_of};

use crate::pairs::Pair;
use flat_list::{Entry, FlatList};
use level_work::Item;
use path_text::{JoinError, OutOfMemory, Path};
use std::alloc::Global;

// The items, and which of the entries with a stat have one. These are the entries whose target is not too long.
#[derive(Drop)]
pub(crate) struct Placed {
    pub(crate) items: Vec<Item>,
    pub(crate) fits: Vec<bool>,
}

/// The item of each entry with a stat, at its target, in the order of the list. Each path of the list and of a pair is a path,
/// which the contracts of their types do not say.
pub(crate) fn place_all(
    alloc: Global,
    list: &FlatList,
    pairs: &[Pair],
) -> Result<Placed, OutOfMemory>
    requires list { CanCopy list.now pairs.now }
    ensures items { IfOk result (λ placed. placed.items.items ≡ items_of pairs.now list.now) }
    ensures fits { IfOk result (λ placed. placed.fits.items ≡ map (has_room pairs.now) (treated list.now)) }
    ensures pairs { IfOk result (λ placed. All IsPair pairs.now) }
    ensures valid { IfOk result (λ placed. All (λ e. refusal e.path ≡ None) list.now) }
    ensures paths { IfOk result (λ placed. All (λ x. refusal x.path ≡ None) placed.items.items) }
{
    see_pairs(pairs);
    list.paths_are_valid();
    let mut placed = Placed {
        items: Vec::with_capacity(alloc, list.len())?,
        fits: Vec::with_capacity(alloc, list.len())?,
    };
    let mut last = 0;
    let mut cursor = list.cursor()?;
    while cursor.advance()? {
        last = add(&mut placed, cursor.entry(), pairs, last)?;
    }
    Ok(placed)
}

// Each source and each target is a path.
fn see_pairs(pairs: &[Pair])
    ensures { All IsPair pairs.now }
{
    for pair in pairs {
        let _ = pair.source.text();
        let _ = pair.target.text();
    }
}

// Adds an entry, if it has a stat. It tries the pair of the entry before first, since all entries under one source follow each
// other. It answers the place of the entry's own pair.
fn add(
    placed: &mut Placed,
    entry: &Entry,
    pairs: &[Pair],
    last: usize,
) -> Result<usize, OutOfMemory>
    requires source { list_any (λ pair. is_within entry.now.path pair.source) pairs.now ≡ true }
    requires apart { overlap (ends_of pairs.now) ≡ false }
    requires pairs { All IsPair pairs.now }
    requires paths { All (λ x. refusal x.path ≡ None) placed.old.items.items }
    ensures items { OnOk result (placed.new.items.items ≡ placed.old.items.items ++ items_of pairs.now (entry.now ∷ [])) }
    ensures fits { OnOk result (placed.new.fits.items ≡ placed.old.fits.items ++ map (has_room pairs.now) (treated (entry.now ∷ []))) }
    ensures paths { OnOk result (All (λ x. refusal x.path ≡ None) placed.new.items.items) }
{
    if entry.stat.is_none() {
        return Ok(last);
    }
    let k = pair_of(&entry.path, pairs, last);
    let target = target_of(&entry.path, &pairs[k])?;
    placed.fits.push(target.is_some())?;
    if let Some(path) = target {
        placed.items.push(item_at(path, entry)?)?;
    }
    Ok(k)
}

// The place of the pair whose source the path is within. It tries `last` first.
fn pair_of(path: &Path, pairs: &[Pair], last: usize) -> usize
    requires { list_any (λ pair. is_within path.now pair.source) pairs.now ≡ true }
    ensures inside { result < length pairs.now }
    ensures within { IfSome (slice_get pairs.now result) (λ pair. is_within path.now pair.source ≡ true) }
{
    if last < pairs.len() && path.is_within(&pairs[last].source) {
        return last;
    }
    for k in 0..pairs.len() {
        if path.is_within(&pairs[k].source) {
            return k;
        }
    }
    unreachable!()
}

// The target of a path by the pair, unless that is too long.
fn target_of(path: &Path, pair: &Pair) -> Result<Option<Path>, OutOfMemory>
    requires { is_within path.now pair.now.source ≡ true }
    ensures told { IfOk result (λ target. target ≡ (if nat_le (length (grafted pair.now.target
        (below_of path.now pair.now.source))) 4095 then Some (grafted pair.now.target
        (below_of path.now pair.now.source)) else None)) }
    ensures path { IfOk result (λ target. IfSome target (λ p. refusal p ≡ None)) }
{
    let below = path.below(&pair.source)?;
    match Path::graft(&pair.target, &below) {
        Ok(target) => {
            let _ = target.text();
            Ok(Some(target))
        }
        Err(JoinError::TooLong) => Ok(None),
        Err(JoinError::OutOfMemory) => Err(OutOfMemory),
    }
}

// The entry at a path, with a copy of it.
fn item_at(path: Path, entry: &Entry) -> Result<Item, OutOfMemory>
    ensures { IfOk result (λ item. item ≡ record { path = path; entry = entry.now }) }
{
    Ok(Item {
        path,
        entry: entry.copy()?,
    })
}
