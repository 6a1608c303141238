//! The sync.
ghost use Rattle.std.specs.Prelude.{◌≡◌, ◌+◌, ◌≤◌, length, IfOk, IfSome, is_some};
ghost use Rattle.std.specs.List.{count_by};
ghost use Rattle.flat_list.specs.Prelude.{RoseBy, nothing_lent};
ghost use Rattle.level_work.specs.Counts.{is_failed};
ghost use Rattle.tree_sync.specs.Syncing.{CanSync, FitsSync, ReadsShow, SameOutside, Synced};

use crate::errors::SyncError;
use crate::planning::make_plan;
use crate::reports::SyncReport;
use flat_list::FlatList;
use outside::Ground;
use std::alloc::Global;
use std::slice;
use std::thread::Threads;
use tree_copy::{Pair, copy};
use tree_remove::remove;

/// Makes the tree at the pair's target equal to the tree at its source, by the lists of the walks of both. It compares them. With
/// `delete` it removes the target's entries that do not belong there. Then it copies the entries that the target lacks.
pub fn sync<R: Threads + Sync, G: Ground>(
    rt: &R,
    alloc: Global,
    source: &FlatList,
    dest: &FlatList,
    pair: &Pair,
    delete: bool,
    ground: &mut G,
    ranks: u32,
    hosts: u32,
) -> Result<SyncReport, SyncError>
where
    G::Reader: Send,
    G::Part: Send,
    requires ranks { 1 ≤ ranks }
    requires hosts { (1 ≤ hosts) × (hosts ≤ 64) }
    requires lent { G.area ground.old ≡ nothing_lent }
    requires can { CanSync pair.now source.now dest.now }
    requires fits { IfSome (G.tree ground.old) (FitsSync pair.now source.now dest.now) }
    ensures synced { IfOk result (λ report. Synced pair.now source.now dest.now delete report (G.tree ground.old) (G.tree ground.new)) }
    ensures blamed { IfOk result (λ report. RoseBy (length report.failed + count_by
        (λ row. is_failed row.1) report.removals + count_by (λ row. is_failed row.1) report.copies) (G.count ground.old)
        (G.count ground.new)) }
    ensures causes { IfOk result (λ report. ReadsShow G.Reader.gives report.failed report.changed) }
    ensures rest { IfSome (G.tree ground.old) (λ before. IfSome (G.tree ground.new) (SameOutside pair.now.target before)) }
    ensures tells { is_some (G.tree ground.new) ≡ is_some (G.tree ground.old) }
    ensures lent { G.area ground.new ≡ nothing_lent }
    ensures count { RoseBy 0 (G.count ground.old) (G.count ground.new) }
{
    let plan = make_plan(rt, alloc, source, dest, pair, delete, ground, hosts)?;
    let removed = remove(rt, alloc, &plan.chosen, ground, ranks, hosts)?;
    let pairs = slice::from_ref(pair);
    let copied = copy(rt, alloc, &plan.copied, pairs, ground, ranks, hosts)?;
    Ok(SyncReport::of(plan, removed, copied))
}
