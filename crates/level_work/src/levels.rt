//! Work level by level.
ghost use Rattle.std.specs.Prelude.{◌≡◌, ◌<◌, ◌≤◌, [], ℕ, Some, slice_get, length, map, IfOk, IfSome, OnOk, OnErr, is_some};
ghost use Rattle.std.specs.Vec.{vec_len, vec_capacity};
ghost use Rattle.std.specs.List.{count_by};
ghost use Rattle.outside.specs.Writes.{nothing_lent};
ghost use Rattle.level_work.specs.Acts.{Alike, AllShow, MakesDirs};
ghost use Rattle.level_work.specs.Counts.{BlamedAll, NoneFell, is_failed};
ghost use Rattle.level_work.specs.Fates.{EachMayCome};
ghost use Rattle.level_work.specs.Levels.{Acted, AreItems, ParentsFail, SameButItems, StandIn};
ghost use Rattle.level_work.specs.Chain.{AllBelow, level_at};
ghost use Rattle.level_work.specs.Private.Crews.{AtHome, BlamedMore, SameActors};
ghost use Rattle.level_work.specs.Private.Dealing.{AreByLevel};

use crate::acts::Act;
use crate::crews::one_level;
use crate::dealing::places_by_level;
use crate::failures::Paths;
use crate::hiring::{dismissed, hired};
use crate::hosts::Hosts;
use crate::items::{Fate, Item, Order};
use crate::lots::Lot;
use crate::outcomes::Outcome;
use crate::storing::note;
use outside::{Ground, Plot};
use path_text::OutOfMemory;
use std::alloc::Global;
use std::thread::Threads;

/// Acts at each item, level by level. It deals the items of a level to the actors in turn and leases each actor's share. Up to
/// `hosts.most` threads work on the shares. Then it gives all parts back, also if it is out of memory. From the top down an item
/// under one that did not come to `Done` is not touched. Afterwards all actors are there again, in their order.
pub fn on_levels<R: Threads + Sync, G: Ground, A: Act<G::Part> + Send + Drop>(
    rt: &R,
    alloc: Global,
    items: &[Item],
    order: Order,
    ground: &mut G,
    actors: &mut Vec<A>,
    hosts: Hosts,
) -> Result<Outcome, OutOfMemory>
where
    G::Part: Send,
    requires hosts { 1 ≤ hosts.most }
    requires home { G.area ground.old ≡ nothing_lent }
    requires some { 0 < length actors.old.items }
    requires alike { Alike (map A.plain actors.old.items) }
    requires items { AreItems items.now }
    requires stand { IfSome (G.tree ground.old) (StandIn order items.now) }
    requires dirs { (d : A.Plain) → AllShow d (map A.plain actors.old.items) → IfSome (G.tree ground.old) (MakesDirs order (A.deed d) items.now) }
    ensures home { G.area ground.new ≡ nothing_lent }
    ensures tells { is_some (G.tree ground.new) ≡ is_some (G.tree ground.old) }
    ensures plain { map A.plain actors.new.items ≡ map A.plain actors.old.items }
    ensures who { map A.who actors.new.items ≡ map A.who actors.old.items }
    ensures kept { G.count ground.old ≤ G.count ground.new }
    ensures none_fell { NoneFell (map A.count actors.old.items) (map A.count actors.new.items) }
    ensures len { IfOk result (λ fates. length fates ≡ length items.now) }
    ensures failed { IfOk result (ParentsFail order items.now) }
    ensures told { IfOk result (λ fates. (d : A.Plain) → AllShow d (map A.plain actors.old.items)
        → IfSome (G.tree ground.old) (λ before. IfSome (G.tree ground.new) (Acted
        (A.deed d) order items.now fates before))) }
    ensures blamed { IfOk result (λ fates. BlamedAll (count_by is_failed fates) (G.count ground.old)
        (map A.count actors.old.items) (G.count ground.new) (map A.count actors.new.items)) }
    ensures each_may_come { IfOk result (EachMayCome A.may_come (map A.who actors.old.items) items.now) }
    ensures rest { OnErr result (IfSome (G.tree ground.old) (λ before. IfSome (G.tree ground.new) (SameButItems items.now before))) }
{
    let levels = places_by_level(alloc, items)?;
    let mut lots = hired(alloc, actors)?;
    let outcome = all_levels(rt, alloc, ground, &mut lots, items, order, &levels, hosts);
    dismissed(lots, actors);
    outcome
}

// All levels by all lots.
fn all_levels<R: Threads + Sync, G: Ground, A: Act<G::Part> + Send + Drop>(
    rt: &R,
    alloc: Global,
    ground: &mut G,
    lots: &mut [Lot<A, G::Part>],
    items: &[Item],
    order: Order,
    levels: &[Vec<usize>],
    hosts: Hosts,
) -> Result<Outcome, OutOfMemory>
where
    G::Part: Send,
    requires hosts { 1 ≤ hosts.most }
    requires area { G.area ground.old ≡ nothing_lent }
    requires some { 0 < length lots.old }
    requires home { AtHome lots.old }
    requires alike { Alike (map (λ lot. A.plain lot.actor) lots.old) }
    requires items { AreItems items.now }
    requires below { AllBelow (length levels.now) items.now }
    requires places { AreByLevel (length items.now) items.now (map (λ places. places.items) levels.now) }
    requires stand { IfSome (G.tree ground.old) (StandIn order items.now) }
    requires dirs { (d : A.Plain) → AllShow d (map (λ lot. A.plain lot.actor) lots.old) → IfSome (G.tree ground.old) (MakesDirs order (A.deed d) items.now) }
    ensures area { G.area ground.new ≡ nothing_lent }
    ensures tells { is_some (G.tree ground.new) ≡ is_some (G.tree ground.old) }
    ensures actors { SameActors A.plain A.count lots.old lots.new }
    ensures count { G.count ground.old ≤ G.count ground.new }
    ensures len { IfOk result (λ fates. length fates ≡ length items.now) }
    ensures failed { IfOk result (ParentsFail order items.now) }
    ensures told { IfOk result (λ fates. (d : A.Plain) → AllShow d (map (λ lot. A.plain lot.actor) lots.old)
        → IfSome (G.tree ground.old) (λ before. IfSome (G.tree ground.new) (Acted
        (A.deed d) order items.now fates before))) }
    ensures blamed { IfOk result (λ fates. BlamedMore 0 (count_by is_failed fates) (G.count ground.old)
        (map (λ lot. A.count lot.actor) lots.old) (G.count ground.new) (map (λ lot. A.count lot.actor) lots.new)) }
    ensures who { map (λ lot. A.who lot.actor) lots.new ≡ map (λ lot. A.who lot.actor) lots.old }
    ensures each_may_come { IfOk result (EachMayCome A.may_come (map (λ lot. A.who lot.actor) lots.old) items.now) }
    ensures rest { OnErr result (IfSome (G.tree ground.old) (λ before. IfSome (G.tree ground.new) (SameButItems items.now before))) }
{
    let mut fates = no_fates(alloc, items.len())?;
    run_levels(
        rt, alloc, ground, lots, items, order, levels, &mut fates, hosts,
    )?;
    Ok(Outcome { fates })
}

// Works on all levels, with the fates in a list that has room for all.
fn run_levels<R: Threads + Sync, G: Ground, A: Act<G::Part> + Send + Drop>(
    rt: &R,
    alloc: Global,
    ground: &mut G,
    lots: &mut [Lot<A, G::Part>],
    items: &[Item],
    order: Order,
    levels: &[Vec<usize>],
    fates: &mut [Fate],
    hosts: Hosts,
) -> Result<(), OutOfMemory>
where
    G::Part: Send,
    requires hosts { 1 ≤ hosts.most }
    requires area { G.area ground.old ≡ nothing_lent }
    requires some { 0 < length lots.old }
    requires home { AtHome lots.old }
    requires alike { Alike (map (λ lot. A.plain lot.actor) lots.old) }
    requires items { AreItems items.now }
    requires below { AllBelow (length levels.now) items.now }
    requires places { AreByLevel (length items.now) items.now (map (λ places. places.items) levels.now) }
    requires len { length fates.old ≡ length items.now }
    requires fresh { (k : ℕ) (f : Fate) → slice_get fates.old k ≡ Some f → f ≡ Fate.Done }
    requires stand { IfSome (G.tree ground.old) (StandIn order items.now) }
    requires dirs { (d : A.Plain) → AllShow d (map (λ lot. A.plain lot.actor) lots.old) → IfSome (G.tree ground.old) (MakesDirs order (A.deed d) items.now) }
    ensures area { G.area ground.new ≡ nothing_lent }
    ensures tells { is_some (G.tree ground.new) ≡ is_some (G.tree ground.old) }
    ensures actors { SameActors A.plain A.count lots.old lots.new }
    ensures count { G.count ground.old ≤ G.count ground.new }
    ensures len { OnOk result (length fates.new ≡ length items.now) }
    ensures failed { OnOk result (ParentsFail order items.now fates.new) }
    ensures told { OnOk result ((d : A.Plain) → AllShow d (map (λ lot. A.plain lot.actor) lots.old)
        → IfSome (G.tree ground.old) (λ before. IfSome (G.tree ground.new) (Acted
        (A.deed d) order items.now fates.new before))) }
    ensures blamed { OnOk result (BlamedMore 0 (count_by is_failed fates.new) (G.count ground.old)
        (map (λ lot. A.count lot.actor) lots.old) (G.count ground.new) (map (λ lot. A.count lot.actor) lots.new)) }
    ensures who { map (λ lot. A.who lot.actor) lots.new ≡ map (λ lot. A.who lot.actor) lots.old }
    ensures each_may_come { OnOk result (EachMayCome A.may_come (map (λ lot. A.who lot.actor) lots.old) items.now fates.new) }
    ensures rest { OnErr result (IfSome (G.tree ground.old) (λ before. IfSome (G.tree ground.new) (SameButItems items.now before))) }
{
    let mut failed = Paths::none(alloc);
    for turn in 0..levels.len() {
        let level = level_of_turn(order, levels.len(), turn);
        let places: &[usize] = &levels[level];
        one_level(
            rt, alloc, ground, lots, items, fates, &failed, order, level, places, hosts,
        )?;
        note(items, order, places, fates, &mut failed)?;
    }
    Ok(())
}

// As many fates as there are items, none of them failed.
fn no_fates(alloc: Global, count: usize) -> Result<Vec<Fate>, OutOfMemory>
    ensures len { IfOk result (λ fates. length fates.items ≡ count) }
    ensures done { IfOk result (λ fates. (k : ℕ) (f : Fate) → slice_get fates.items k ≡ Some f → f ≡ Fate.Done) }
{
    let mut fates = Vec::with_capacity(alloc, count)?;
    for _ in 0..count {
        fates.push(Fate::Done)?;
    }
    Ok(fates)
}

fn level_of_turn(order: Order, top: usize, turn: usize) -> usize
    requires { turn < top }
    ensures { result ≡ level_at order top turn }
{
    match order {
        Order::TopDown => turn,
        Order::BottomUp => top - 1 - turn,
    }
}
