//! The work on all items. The readers are taken back.
ghost use Rattle.std.specs.Prelude.{◌≡◌, ◌-◌, ◌+◌, ◌^◌, ◌<◌, ◌≤◌, [], All, length, map, min, IfOk, IfSome, OnErr, is_some};
ghost use Rattle.std.specs.List.{count_by, sum_by};
ghost use Rattle.flat_list.specs.Prelude.{RoseBy, nothing_lent};
ghost use Rattle.level_work.specs.Acts.{MakesDirs};
ghost use Rattle.level_work.specs.Counts.{is_failed};
ghost use Rattle.level_work.specs.Levels.{Acted, AreItems, ParentsFail, SameButItems, StandIn};
ghost use Rattle.tree_copy.specs.PrivateActs.{AllMayCopy};
ghost use Rattle.tree_copy.specs.PrivateDeeds.{CopyOne};

use crate::acting::Copier;
use level_work::{Hosts, Item, Order, Outcome, on_levels};
use outside::{Ground, Plot, Tree};
use path_text::OutOfMemory;
use std::alloc::Global;
use std::thread::Threads;

// A level of so many items or bytes is worth several threads. `bench/level_threads.py` measures when they begin to gain.
const MANY_ITEMS: usize = 32;

const MANY_BYTES: u64 = 524288;

/// Copies the items, from the top down, by as many copiers as there are hosts, but by no more than there are ranks. Their readers
/// look at the files as they are at the start, and all readers are taken back.
pub(crate) fn work<R: Threads + Sync, G: Ground>(
    rt: &R,
    alloc: Global,
    items: &[Item],
    ground: &mut G,
    ranks: u32,
    hosts: u32,
) -> Result<Outcome, OutOfMemory>
where
    G::Reader: Send,
    G::Part: Send,
    requires ranks { 1 ≤ ranks }
    requires hosts { 1 ≤ hosts }
    requires lent { G.area ground.old ≡ nothing_lent }
    requires items { AreItems items.now }
    requires stand { IfSome (G.tree ground.old) (StandIn Order.TopDown items.now) }
    requires dirs { IfSome (G.tree ground.old) (λ before. MakesDirs Order.TopDown (CopyOne before) items.now before) }
    ensures lent { G.area ground.new ≡ nothing_lent }
    ensures tells { is_some (G.tree ground.new) ≡ is_some (G.tree ground.old) }
    ensures len { IfOk result (λ fates. length fates ≡ length items.now) }
    ensures failed { IfOk result (ParentsFail Order.TopDown items.now) }
    ensures told { IfOk result (λ fates. IfSome (G.tree ground.old) (λ before. IfSome (G.tree ground.new) (Acted
        (CopyOne before) Order.TopDown items.now fates before))) }
    ensures blamed { IfOk result (λ fates. RoseBy (count_by is_failed fates) (G.count ground.old) (G.count ground.new)) }
    ensures count { RoseBy 0 (G.count ground.old) (G.count ground.new) }
    ensures each_may_come { IfOk result (AllMayCopy G.Reader.gives G.Part.gives items.now) }
    ensures rest { OnErr result (IfSome (G.tree ground.old) (λ before. IfSome (G.tree ground.new) (SameButItems items.now before))) }
{
    // The count of faults is a number of 64 bits.
    let _faults = ground.faults();
    let number = number_of_copiers(ranks, hosts);
    let mut copiers = copiers_of(alloc, ground, number)?;
    let order = Order::TopDown;
    let worth = Hosts {
        most: hosts,
        items: MANY_ITEMS,
        bytes: MANY_BYTES,
    };
    let outcome = on_levels(rt, alloc, items, order, ground, &mut copiers, worth);
    let _faults = ground.faults();
    take_back(ground, copiers);
    outcome
}

// How many copiers work. Several in one thread would go through each directory as often as there are of them.
fn number_of_copiers(ranks: u32, hosts: u32) -> u32
    requires ranks { 1 ≤ ranks }
    requires hosts { 1 ≤ hosts }
    ensures { 1 ≤ result }
{
    if ranks < hosts { ranks } else { hosts }
}

// So many copiers, each with a reader of the files as they are.
fn copiers_of<G: Ground>(
    alloc: Global,
    ground: &mut G,
    number: u32,
) -> Result<Vec<Copier<G::Reader>>, OutOfMemory>
    ensures number { IfOk result (λ copiers. length copiers.items ≡ number) }
    ensures told { IfOk result (λ copiers. All (λ c. G.Reader.tree c.reader ≡ G.tree ground.old) copiers.items) }
    ensures zero { IfOk result (λ copiers. sum_by (λ c. G.Reader.count c.reader) copiers.items ≡ 0) }
    ensures same { G.tree ground.new ≡ G.tree ground.old }
    ensures area { G.area ground.new ≡ G.area ground.old }
    ensures count { G.count ground.new ≡ G.count ground.old }
{
    let mut copiers = Vec::with_capacity(alloc, number as usize)?;
    while copiers.len() < number as usize {
        copiers.push(Copier::make(alloc, ground.reader(alloc)?)?)?;
    }
    Ok(copiers)
}

// Takes all readers back, which adds their counts.
fn take_back<G: Ground>(ground: &mut G, copiers: Vec<Copier<G::Reader>>)
    ensures same { G.tree ground.new ≡ G.tree ground.old }
    ensures area { G.area ground.new ≡ G.area ground.old }
    ensures kept { G.count ground.old ≤ G.count ground.new }
    ensures count { G.count ground.old < 2 ^ 64 → G.count ground.new ≡ min (G.count ground.old + sum_by
        (λ c. G.Reader.count c.reader) copiers.items) (2 ^ 64 - 1) }
{
    for copier in copiers {
        ground.take_reader(copier.into_reader());
    }
}
