//! The copy.
ghost use Rattle.std.specs.Prelude.{◌≡◌, ◌≤◌, [], length, map, IfOk, IfSome, is_some};
ghost use Rattle.std.specs.List.{count_by};
ghost use Rattle.flat_list.specs.Prelude.{RoseBy, nothing_lent, paths};
ghost use Rattle.level_work.specs.Counts.{is_failed, is_done};
ghost use Rattle.tree_copy.specs.Causes.{HaveCauses};
ghost use Rattle.tree_copy.specs.Copying.{AreEarly, CanCopy, Copied, FitsTree, SameButTargets, bytes_copied, treated};

use crate::pairs::Pair;
use crate::reports::CopyReport;
use crate::settling::settle;
use crate::targets::{Placed, place_all};
use crate::working::work;
use flat_list::FlatList;
use outside::{Ground, Plot, nodes_are_under_directories};
use path_text::OutOfMemory;
use std::alloc::Global;
use std::thread::Threads;

/// Copies each entry that has a stat to its target, by parts of the ground. The clause `causes` also names a file that the ground
/// itself lends in spans, so that `copy_wide` of `range_copy` has the same clause. A `Ground` alone can't lend one.
pub fn copy<R: Threads + Sync, G: Ground>(
    rt: &R,
    alloc: Global,
    list: &FlatList,
    pairs: &[Pair],
    ground: &mut G,
    ranks: u32,
    hosts: u32,
) -> Result<CopyReport, OutOfMemory>
where
    G::Reader: Send,
    G::Part: Send,
    requires ranks { 1 ≤ ranks }
    requires hosts { 1 ≤ hosts }
    requires lent { G.area ground.old ≡ nothing_lent }
    requires list { CanCopy list.now pairs.now }
    requires fits { IfSome (G.tree ground.old) (FitsTree list.now pairs.now) }
    ensures paths { IfOk result (λ report. map (λ row. row.0) report.0 ≡ paths (treated list.now)) }
    ensures early { IfOk result (λ report. AreEarly list.now pairs.now report.0) }
    ensures told { IfOk result (λ report. IfSome (G.tree ground.old) (λ before. IfSome (G.tree ground.new) (Copied list.now pairs.now report.0 before))) }
    ensures copied { IfOk result (λ report. report.1 ≡ count_by (λ row. is_done row.1) report.0) }
    ensures bytes { IfOk result (λ report. report.2 ≡ bytes_copied list.now report.0) }
    ensures blamed { IfOk result (λ report. RoseBy (count_by (λ row. is_failed row.1) report.0) (G.count ground.old) (G.count ground.new)) }
    ensures causes { IfOk result (λ report. HaveCauses G.Reader.gives G.Part.gives G.gives G.area G.count list.now pairs.now report.0) }
    ensures rest { IfSome (G.tree ground.old) (λ before. IfSome (G.tree ground.new) (SameButTargets pairs.now list.now before)) }
    ensures tells { is_some (G.tree ground.new) ≡ is_some (G.tree ground.old) }
    ensures lent { G.area ground.new ≡ nothing_lent }
    ensures count { RoseBy 0 (G.count ground.old) (G.count ground.new) }
{
    nodes_are_under_directories();
    // The call shows that the nodes are a tree.
    let _faults = ground.faults();
    let Placed { items, fits } = place_all(alloc, list, pairs)?;
    let outcome = work(rt, alloc, &items, ground, ranks, hosts)?;
    settle(alloc, list, items, &fits, &outcome)
}
