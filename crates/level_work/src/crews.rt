//! One level by several actors.
ghost use Rattle.std.specs.Prelude.{◌≡◌, ◌<◌, ◌≤◌, ℕ, [], false, length, map, OnOk, OnErr, IfSome, Some, is_some, slice_get};
ghost use Rattle.std.specs.List.{count_by};
ghost use Rattle.outside.specs.Writes.{nothing_lent};
ghost use Rattle.level_work.specs.Acts.{AllShow};
ghost use Rattle.level_work.specs.Counts.{is_failed};
ghost use Rattle.level_work.specs.Levels.{AreItems};
ghost use Rattle.level_work.specs.Chain.{OneLevel};
ghost use Rattle.level_work.specs.Private.Coming.{LevelCame};
ghost use Rattle.level_work.specs.Private.Steps.{CanStep, SameButLevel, TellsLevel};
ghost use Rattle.level_work.specs.Private.Crews.{AtHome, BlamedMore, SameActors};
ghost use Rattle.level_work.specs.Private.Dealing.{AreOnLevel, Knows};

use crate::acts::Act;
use crate::dealing::deal;
use crate::failures::Paths;
use crate::hosts::Hosts;
use crate::items::{Fate, Item, Order};
use crate::leasing::{give_all, lease_all};
use crate::lots::{Lot, work_all};
use crate::storing::store;
use outside::{Ground, Plot};
use path_text::OutOfMemory;
use std::alloc::Global;
use std::thread::Threads;

// All actors work on one level, in as many threads as it is worth. Its shares are dealt, leased, worked on, and given back.
pub(crate) fn one_level<R: Threads + Sync, G: Ground, A: Act<G::Part> + Send>(
    rt: &R,
    alloc: Global,
    ground: &mut G,
    lots: &mut [Lot<A, G::Part>],
    items: &[Item],
    fates: &mut [Fate],
    failed: &Paths,
    order: Order,
    level: usize,
    places: &[usize],
    hosts: Hosts,
) -> Result<(), OutOfMemory>
where
    G::Part: Send,
    requires hosts { 1 ≤ hosts.most }
    requires area { G.area ground.old ≡ nothing_lent }
    requires some { 0 < length lots.old }
    requires home { AtHome lots.old }
    requires items { AreItems items.now }
    requires len { length fates.old ≡ length items.now }
    requires places { AreOnLevel (length items.now) level items.now places.now }
    requires knows { Knows order items.now fates.old failed.now.set.keys }
    requires parents { IfSome (G.tree ground.old) (CanStep order level items.now fates.old) }
    ensures area { G.area ground.new ≡ nothing_lent }
    ensures home { AtHome lots.new }
    ensures tells { is_some (G.tree ground.new) ≡ is_some (G.tree ground.old) }
    ensures actors { SameActors A.plain A.count lots.old lots.new }
    ensures count { G.count ground.old ≤ G.count ground.new }
    ensures fates { OnOk result (TellsLevel order level items.now fates.old fates.new) }
    ensures told { OnOk result ((d : A.Plain) → AllShow d (map (λ lot. A.plain lot.actor) lots.old)
        → IfSome (G.tree ground.old) (λ old. IfSome (G.tree ground.new) (OneLevel
        (A.deed d) level items.now fates.new old))) }
    ensures blamed { OnOk result (BlamedMore (count_by is_failed fates.old) (count_by is_failed fates.new)
        (G.count ground.old) (map (λ lot. A.count lot.actor) lots.old) (G.count ground.new)
        (map (λ lot. A.count lot.actor) lots.new)) }
    ensures rest { OnErr result (IfSome (G.tree ground.old) (λ old. IfSome (G.tree ground.new) (SameButLevel level items.now old))) }
    ensures who { map (λ lot. A.who lot.actor) lots.new ≡ map (λ lot. A.who lot.actor) lots.old }
    ensures came { OnOk result (LevelCame A.may_come (map (λ lot. A.who lot.actor) lots.old) items.now fates.new level) }
{
    deal(items, fates, failed, order, level, places, lots)?;
    match lease_all(alloc, ground, items, order, level, fates, lots) {
        Ok(()) => {}
        Err(refused) => {
            give_all(ground, lots);
            return Err(refused);
        }
    }
    work_all(rt, alloc, items, lots, hosts.threads_for(items, places));
    give_all(ground, lots);
    if any_lost(lots) {
        return Err(OutOfMemory);
    }
    store(items, order, level, places, lots, fates);
    Ok(())
}

// Whether an actor is out of memory.
fn any_lost<A, P>(lots: &[Lot<A, P>]) -> bool
    ensures { result ≡ false → (i : ℕ) (lot : Lot A P) → slice_get lots.now i ≡ Some lot → lot.lost ≡ false }
{
    for lot in lots {
        if lot.lost {
            return true;
        }
    }
    false
}
