//! The places of the items by level, and how those of a level are dealt.
ghost use Rattle.std.specs.Prelude.{◌≡◌, ◌<◌, ◌++◌, ◌∷◌, ℕ, [], Vec, true, false, length, map, IfOk, OnOk, Some, slice_get};
ghost use Rattle.flat_list.specs.Prelude.{refusal, level_of, is_root};
ghost use Rattle.level_work.specs.Levels.{AreItems, FailsWith};
ghost use Rattle.level_work.specs.Chain.{AllBelow};
ghost use Rattle.level_work.specs.Private.Crews.{AreShares, SameSeats};
ghost use Rattle.level_work.specs.Private.Dealing.{AreByLevel, AreInTurn, AreOnLevel, DealsOne, Knows};

use crate::failures::Paths;
use crate::items::{Fate, Item, Order};
use crate::lots::Lot;
use path_text::{OutOfMemory, tops_are_nested};
use std::alloc::Global;

// The places of the items of each level, down to the deepest item.
pub(crate) fn places_by_level(alloc: Global, items: &[Item]) -> Result<Vec<Vec<usize>>, OutOfMemory>
    ensures below { IfOk result (λ levels. AllBelow (length levels.items) items.now) }
    ensures places { IfOk result (λ levels. AreByLevel (length items.now) items.now (map (λ places. places.items) levels.items)) }
{
    let mut levels = no_places(alloc, level_count(items))?;
    for k in 0..items.len() {
        levels[items[k].path.level() as usize].push(k)?;
    }
    Ok(levels)
}

// The number of levels down to the deepest item.
fn level_count(items: &[Item]) -> usize
    ensures { AllBelow result items.now }
{
    let mut count = 0;
    for item in items {
        let level = item.path.level() as usize;
        if count <= level {
            count = level + 1;
        }
    }
    count
}

fn no_places(alloc: Global, count: usize) -> Result<Vec<Vec<usize>>, OutOfMemory>
    ensures len { IfOk result (λ levels. length levels.items ≡ count) }
    ensures none { IfOk result (λ levels. (i : ℕ) (places : Vec ℕ _) → slice_get levels.items i ≡ Some places → places.items ≡ []) }
{
    let mut levels = Vec::with_capacity(alloc, count)?;
    for _ in 0..count {
        levels.push(Vec::new(alloc))?;
    }
    Ok(levels)
}

// Deals the items of a level whose parent did not fail: item k of them goes to the lot k mod the number of lots.
pub(crate) fn deal<A, P>(
    items: &[Item],
    fates: &[Fate],
    failed: &Paths,
    order: Order,
    level: usize,
    places: &[usize],
    lots: &mut [Lot<A, P>],
) -> Result<(), OutOfMemory>
    requires items { AreItems items.now }
    requires some { 0 < length lots.old }
    requires places { AreOnLevel (length items.now) level items.now places.now }
    requires knows { Knows order items.now fates.now failed.now.set.keys }
    ensures seats { SameSeats lots.old lots.new }
    ensures shares { OnOk result (AreShares order level items.now fates.now lots.new) }
    ensures turn { OnOk result (AreInTurn places.now lots.new) }
    ensures fresh { OnOk result ((i : ℕ) (lot : Lot A P) → slice_get lots.new i ≡ Some lot → (lot.fates.items ≡ []) × (lot.lost ≡ false)) }
{
    tops_are_nested();
    clear(lots);
    for t in 0..places.len() {
        let lot = t % lots.len();
        deal_one(items, fates, failed, order, places[t], lot, lots)?;
    }
    Ok(())
}

// Deals the item at place k to the lot at place i, unless its parent failed.
fn deal_one<A, P>(
    items: &[Item],
    fates: &[Fate],
    failed: &Paths,
    order: Order,
    k: usize,
    i: usize,
    lots: &mut [Lot<A, P>],
) -> Result<(), OutOfMemory>
    requires inside { k < length items.now }
    requires lot { i < length lots.old }
    requires items { AreItems items.now }
    requires knows { Knows order items.now fates.now failed.now.set.keys }
    ensures seats { SameSeats lots.old lots.new }
    ensures dealt { OnOk result (DealsOne order items.now fates.now k i lots.old lots.new) }
{
    if is_left_out(items, fates, failed, order, k)? {
        return Ok(());
    }
    take(&mut lots[i], k)
}

// Empties all shares.
fn clear<A, P>(lots: &mut [Lot<A, P>])
    ensures seats { SameSeats lots.old lots.new }
    ensures empty { (i : ℕ) (lot : Lot A P) → slice_get lots.new i ≡ Some lot → (lot.places.items ≡ []) × (lot.fates.items ≡ []) × (lot.lost ≡ false) }
{
    for i in 0..lots.len() {
        empty(&mut lots[i]);
    }
}

fn empty<A, P>(lot: &mut Lot<A, P>)
    ensures places { lot.new.places.items ≡ [] }
    ensures fates { lot.new.fates.items ≡ [] }
    ensures lost { lot.new.lost ≡ false }
    ensures actor { lot.new.actor ≡ lot.old.actor }
    ensures part { lot.new.part ≡ lot.old.part }
{
    lot.places.clear();
    lot.fates.clear();
    lot.lost = false;
}

// Puts a place into the share of a lot.
fn take<A, P>(lot: &mut Lot<A, P>, k: usize) -> Result<(), OutOfMemory>
    ensures places { OnOk result (lot.new.places.items ≡ lot.old.places.items ++ k ∷ []) }
    ensures fates { lot.new.fates ≡ lot.old.fates }
    ensures lost { lot.new.lost ≡ lot.old.lost }
    ensures actor { lot.new.actor ≡ lot.old.actor }
    ensures part { lot.new.part ≡ lot.old.part }
{
    lot.places.push(k)?;
    Ok(())
}

// Whether the item at a place is under one that did not come to `Done`.
fn is_left_out(
    items: &[Item],
    fates: &[Fate],
    failed: &Paths,
    order: Order,
    k: usize,
) -> Result<bool, OutOfMemory>
    requires inside { k < length items.now }
    requires items { AreItems items.now }
    requires knows { Knows order items.now fates.now failed.now.set.keys }
    ensures out { IfOk result (λ out. out ≡ true → (x : _) → slice_get items.now k ≡ Some x → FailsWith order items.now fates.now x) }
    ensures dealt { IfOk result (λ out. out ≡ false → (x : _) → slice_get items.now k ≡ Some x → FailsWith order items.now fates.now x → ⊥) }
{
    match order {
        Order::BottomUp => Ok(false),
        Order::TopDown => failed.has_parent_of(&items[k].path),
    }
}
