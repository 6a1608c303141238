//! The removal of chosen paths.
ghost use Rattle.std.specs.Prelude.{◌≡◌, ◌≤◌, [], length, map, IfOk, IfSome, is_some};
ghost use Rattle.std.specs.List.{count_by, zip};
ghost use Rattle.flat_list.specs.Prelude.{RoseBy, nothing_lent, paths};
ghost use Rattle.level_work.specs.Counts.{is_failed, is_done};
ghost use Rattle.tree_remove.specs.Removing.{AreChosen, AreThere, HaveCauses, Removed, SameButChosen};

use crate::items::items_of;
use crate::reports::RemoveReport;
use crate::unlinking::Remove;
use flat_list::FlatList;
use level_work::{Fate, Hosts, Item, Order, Outcome, on_levels};
use outside::{Ground, Plot, nodes_are_under_directories};
use path_text::{OutOfMemory, Path};
use std::alloc::Global;
use std::thread::Threads;

// A level of so many items is worth several threads, whatever its bytes. `bench/level_threads.py` measures when they begin to gain.
const MANY: usize = 64;

/// Removes the nodes of the entries, the deepest first: directories as such, and all else as files. It deals the entries of a level
/// to as many actors as there are hosts, but to no more than there are ranks. Each actor works in a thread of its own.
pub fn remove<R: Threads + Sync, G: Ground>(
    rt: &R,
    alloc: Global,
    chosen: &FlatList,
    ground: &mut G,
    ranks: u32,
    hosts: u32,
) -> Result<RemoveReport, OutOfMemory>
where
    G::Part: Send,
    requires ranks { 1 ≤ ranks }
    requires hosts { 1 ≤ hosts }
    requires lent { G.area ground.old ≡ nothing_lent }
    requires chosen { AreChosen chosen.now }
    requires there { IfSome (G.tree ground.old) (AreThere chosen.now) }
    ensures paths { IfOk result (λ report. map (λ row. row.0) report.0 ≡ paths chosen.now) }
    ensures gone { IfOk result (λ report. report.1 ≡ count_by (λ row. is_done row.1) report.0) }
    ensures told { IfOk result (λ report. IfSome (G.tree ground.old) (λ before. IfSome (G.tree ground.new) (Removed report.0 before))) }
    ensures blamed { IfOk result (λ report. RoseBy (count_by (λ row. is_failed row.1) report.0) (G.count ground.old) (G.count ground.new)) }
    ensures causes { IfOk result (λ report. HaveCauses G.Part.gives chosen.now report.0) }
    ensures rest { IfSome (G.tree ground.old) (λ before. IfSome (G.tree ground.new) (SameButChosen (paths chosen.now) before)) }
    ensures tells { is_some (G.tree ground.new) ≡ is_some (G.tree ground.old) }
    ensures lent { G.area ground.new ≡ nothing_lent }
    ensures count { RoseBy 0 (G.count ground.old) (G.count ground.new) }
{
    nodes_are_under_directories();
    // The call shows that the nodes are a tree, before and after.
    let _faults = ground.faults();
    let items = items_of(alloc, chosen)?;
    // Several actors in one thread would go through each directory as often as there are of them.
    let mut removers = removers(alloc, ranks.min(hosts))?;
    let order = Order::BottomUp;
    let worth = Hosts {
        most: hosts,
        items: MANY,
        bytes: u64::MAX,
    };
    let fates = on_levels(rt, alloc, &items, order, ground, &mut removers, worth)?;
    let _faults = ground.faults();
    let rows = rows_of(alloc, items, &fates)?;
    Ok(RemoveReport { rows })
}

// The paths of the items, which are moved, with their fates.
fn rows_of(
    alloc: Global,
    items: Vec<Item>,
    fates: &Outcome,
) -> Result<Vec<(Path, Fate)>, OutOfMemory>
    requires { length fates.now ≡ length items.items }
    ensures { IfOk result (λ rows. rows.items ≡ zip (map (λ x. x.path) items.items) fates.now) }
{
    let mut rows = Vec::with_capacity(alloc, items.len())?;
    for item in items {
        let fate = fates.fate(rows.len());
        rows.push((path_of(item), fate))?;
    }
    Ok(rows)
}

fn path_of(item: Item) -> Path
    ensures { result ≡ item.path }
{
    let Item { path, .. } = item;
    path
}

// So many actors.
fn removers(alloc: Global, number: u32) -> Result<Vec<Remove>, OutOfMemory>
    ensures { IfOk result (λ actors. length actors.items ≡ number) }
{
    let mut actors = Vec::with_capacity(alloc, number as usize)?;
    for _ in 0..number {
        actors.push(Remove)?;
    }
    Ok(actors)
}
