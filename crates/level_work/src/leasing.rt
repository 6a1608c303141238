//! Shares leased, and given back.
ghost use Rattle.std.specs.Prelude.{◌≡◌, ◌<◌, ◌≤◌, ◌+◌, ◌^◌, ◌-◌, ℕ, [], length, map, false, None, Some, OnOk, IfOk, IfSome, IsTrue, is_some, slice_get};
ghost use Rattle.std.specs.List.{sum_by};
ghost use Rattle.flat_list.specs.Prelude.{capped, nothing_lent, all_but};
ghost use Rattle.outside.specs.Lease.{Joins, area_with, is_out, tops_of};
ghost use Rattle.level_work.specs.Levels.{AreItems};
ghost use Rattle.level_work.specs.Private.Steps.{CanStep};
ghost use Rattle.level_work.specs.Private.Lots.{IsAt, part_tree, part_area, part_count};
ghost use Rattle.level_work.specs.Private.Shares.{ArePaths};
ghost use Rattle.level_work.specs.Private.Crews.{AllBack, AllReady, AllTell, AreOut, AreShares, AreUnder, AtHome, SameShares, tops_out};

use crate::items::{Fate, Item, Order};
use crate::lots::Lot;
use outside::{Ground, Plot};
use path_text::{OutOfMemory, Path};
use std::alloc::Global;

// Leases each share.
pub(crate) fn lease_all<G: Ground, A>(
    alloc: Global,
    ground: &mut G,
    items: &[Item],
    order: Order,
    level: usize,
    fates: &[Fate],
    lots: &mut [Lot<A, G::Part>],
) -> Result<(), OutOfMemory>
    requires area { G.area ground.old ≡ nothing_lent }
    requires items { AreItems items.now }
    requires home { AtHome lots.old }
    requires shares { AreShares order level items.now fates.now lots.old }
    requires fresh { (i : ℕ) (lot : Lot A G.Part) → slice_get lots.old i ≡ Some lot → (lot.fates.items ≡ []) × (lot.lost ≡ false) }
    requires parents { IfSome (G.tree ground.old) (CanStep order level items.now fates.now) }
    ensures shares { SameShares lots.old lots.new }
    ensures area { G.area ground.new ≡ all_but (tops_out (part_area G.Part.area) lots.new) [] }
    ensures under { AreUnder (part_area G.Part.area) lots.new }
    ensures told { IfSome (G.tree ground.old) (λ before. IfSome (G.tree ground.new) (AreOut (part_tree G.Part.tree) (part_area G.Part.area) lots.new before)) }
    ensures tells { is_some (G.tree ground.new) ≡ is_some (G.tree ground.old) }
    ensures parts_tell { AllTell (part_tree G.Part.tree) (G.tree ground.old) lots.new }
    ensures count { G.count ground.new ≡ G.count ground.old }
    ensures counts { map (λ lot. part_count G.Part.count lot.part) lots.new ≡ map (λ _. 0) lots.new }
    ensures ready { OnOk result (AllReady (part_area G.Part.area) items.now lots.new) }
{
    for i in 0..lots.len() {
        let tops = paths_of(alloc, items, &lots[i])?;
        let part = ground.lease(alloc, &tops)?;
        hand(&mut lots[i], part);
    }
    Ok(())
}

fn hand<A, P: Drop>(lot: &mut Lot<A, P>, part: P)
    ensures { lot.new ≡ record lot.old { part = Some part } }
{
    lot.part = Some(part);
}

// The paths of the items of a share.
fn paths_of<A, P>(alloc: Global, items: &[Item], lot: &Lot<A, P>) -> Result<Vec<Path>, OutOfMemory>
    requires { (j k : ℕ) → slice_get lot.now.places.items j ≡ Some k → k < length items.now }
    ensures { IfOk result (λ paths. ArePaths items.now lot.now.places.items paths.items) }
{
    paths_at(alloc, items, &lot.places)
}

// The paths of the items at these places.
fn paths_at(alloc: Global, items: &[Item], places: &[usize]) -> Result<Vec<Path>, OutOfMemory>
    requires { (j k : ℕ) → slice_get places.now j ≡ Some k → k < length items.now }
    ensures { IfOk result (λ paths. ArePaths items.now places.now paths.items) }
{
    let mut paths = Vec::with_capacity(alloc, places.len())?;
    for j in 0..places.len() {
        paths.push(path_at(items, places, j)?)?;
    }
    Ok(paths)
}

// The path of the item at place j of these.
fn path_at(items: &[Item], places: &[usize], j: usize) -> Result<Path, OutOfMemory>
    requires place { j < length places.now }
    requires inside { (j k : ℕ) → slice_get places.now j ≡ Some k → k < length items.now }
    ensures { IfOk result (λ path. (x : _) → IsAt items.now places.now j x → path ≡ x.path) }
{
    items[places[j]].path.copy()
}

// Takes all parts back.
pub(crate) fn give_all<G: Ground, A>(ground: &mut G, lots: &mut [Lot<A, G::Part>])
    requires area { G.area ground.old ≡ all_but (tops_out (part_area G.Part.area) lots.old) [] }
    requires under { AreUnder (part_area G.Part.area) lots.old }
    requires tells { AllTell (part_tree G.Part.tree) (G.tree ground.old) lots.old }
    ensures area { G.area ground.new ≡ nothing_lent }
    ensures home { AtHome lots.new }
    ensures shares { SameShares lots.old lots.new }
    ensures tells { is_some (G.tree ground.new) ≡ is_some (G.tree ground.old) }
    ensures told { IfSome (G.tree ground.old) (λ rest. IfSome (G.tree ground.new) (AllBack (part_tree G.Part.tree) (part_area G.Part.area) lots.old rest)) }
    ensures count { G.count ground.old ≤ G.count ground.new }
    ensures counts { G.count ground.new < 2 ^ 64 - 1 → G.count ground.old + sum_by (λ lot. part_count G.Part.count lot.part) lots.old ≤ G.count ground.new }
    ensures none_at_end { G.count ground.new < 2 ^ 64 - 1 → (i : ℕ) (lot : Lot A G.Part) → slice_get lots.old i ≡ Some lot
        → part_count G.Part.count lot.part < 2 ^ 64 - 1 }
{
    for i in 0..lots.len() {
        give_one(ground, &mut lots[i]);
    }
}

// Takes the part of a lot back, if it is out.
fn give_one<G: Ground, A>(ground: &mut G, lot: &mut Lot<A, G::Part>)
    requires out { (p : G.Part) → lot.old.part ≡ Some p → IsTrue (is_out (G.Part.area p) (G.area ground.old)) }
    requires tells { (p : G.Part) → lot.old.part ≡ Some p → is_some (G.Part.tree p) ≡ is_some (G.tree ground.old) }
    ensures none { lot.new.part ≡ None }
    ensures lot { lot.new ≡ record lot.old { part = None } }
    ensures same { lot.old.part ≡ None → (G.tree ground.new ≡ G.tree ground.old) × (G.area ground.new ≡ G.area ground.old)
        × (G.count ground.new ≡ G.count ground.old) }
    ensures tree { (p : G.Part) → lot.old.part ≡ Some p → IfSome (G.tree ground.old) (λ rest. IfSome
        (G.Part.tree p) (λ own. IfSome (G.tree ground.new) (Joins (tops_of (G.Part.area p)) own rest))) }
    ensures area { (p : G.Part) → lot.old.part ≡ Some p → G.area ground.new ≡ area_with (tops_of (G.Part.area p)) (G.area ground.old) }
    ensures count { (p : G.Part) → lot.old.part ≡ Some p → G.count ground.new ≡ capped (G.count ground.old) (G.Part.count p) }
    ensures kept { G.count ground.old ≤ G.count ground.new }
    ensures tells { is_some (G.tree ground.new) ≡ is_some (G.tree ground.old) }
{
    if let Some(part) = lot.part.take() {
        ground.give_back(part);
    }
}
