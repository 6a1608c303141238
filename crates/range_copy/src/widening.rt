//! The copy, with large files by ranges.
ghost use Rattle.std.specs.Prelude.{◌≡◌, ◌≤◌, map, All, IfOk, IfSome, is_some};
ghost use Rattle.std.specs.List.{count_by};
ghost use Rattle.flat_list.specs.Prelude.{RoseBy, nothing_lent, paths};
ghost use Rattle.level_work.specs.Counts.{is_failed, is_done};
ghost use Rattle.tree_copy.specs.Causes.{HaveCauses};
ghost use Rattle.tree_copy.specs.Copying.{AreEarly, CanCopy, Copied, FitsTree, SameButTargets, bytes_copied, treated};
ghost use Rattle.tree_copy.specs.Placing.{IsPair};

use crate::cutting::RangeError;
use crate::failing::failed_targets;
use crate::folding::copy_each;
use crate::merging::report_of;
use crate::parting::apart;
use flat_list::FlatList;
use outside::{Plot, Wide, nodes_are_under_directories};
use std::alloc::Global;
use std::thread::Threads;
use tree_copy::{CopyReport, Pair, copy};

/// Copies each entry that has a stat to its target, as [`copy`] does. Once all else is copied, it writes the files with more bytes
/// than a piece by ranges, one file after the other. It does not write a file so if another entry is under it.
pub fn copy_wide<R: Threads + Sync, G: Wide>(
    rt: &R,
    alloc: Global,
    list: &FlatList,
    pairs: &[Pair],
    piece: u64,
    ground: &mut G,
    ranks: u32,
    hosts: u32,
) -> Result<CopyReport, RangeError>
where
    G::Reader: Send,
    G::Part: Send,
    G::Span: Send,
    requires piece { 1 ≤ piece }
    requires ranks { 1 ≤ ranks }
    requires hosts { 1 ≤ hosts }
    requires lent { G.area ground.old ≡ nothing_lent }
    requires list { CanCopy list.now pairs.now }
    requires fits { IfSome (G.tree ground.old) (FitsTree list.now pairs.now) }
    ensures told { IfOk result (λ report. IfSome (G.tree ground.old) (λ before. IfSome (G.tree ground.new) (Copied list.now pairs.now report.0 before))) }
    ensures causes { IfOk result (λ report. HaveCauses G.Reader.gives G.Part.gives G.gives G.area G.count list.now pairs.now report.0) }
    ensures rest { IfSome (G.tree ground.old) (λ before. IfSome (G.tree ground.new) (SameButTargets pairs.now list.now before)) }
    ensures blamed { IfOk result (λ report. RoseBy (count_by (λ row. is_failed row.1) report.0) (G.count ground.old) (G.count ground.new)) }
    ensures paths { IfOk result (λ report. map (λ row. row.0) report.0 ≡ paths (treated list.now)) }
    ensures early { IfOk result (λ report. AreEarly list.now pairs.now report.0) }
    ensures copied { IfOk result (λ report. report.1 ≡ count_by (λ row. is_done row.1) report.0) }
    ensures bytes { IfOk result (λ report. report.2 ≡ bytes_copied list.now report.0) }
    ensures tells { is_some (G.tree ground.new) ≡ is_some (G.tree ground.old) }
    ensures count { RoseBy 0 (G.count ground.old) (G.count ground.new) }
    ensures lent { G.area ground.new ≡ nothing_lent }
{
    nodes_are_under_directories();
    // The call shows that the nodes are a tree.
    let _faults = ground.faults();
    see_pairs(pairs);
    let parts = apart(alloc, list, piece)?;
    let small = copy(rt, alloc, &parts.small, pairs, ground, ranks, hosts)?;
    let failed = failed_targets(alloc, &small, pairs)?;
    let large = copy_each(
        rt,
        alloc,
        &parts.large,
        pairs,
        &failed,
        piece,
        ground,
        ranks,
        hosts,
    )?;
    report_of(alloc, &parts.marks, small, large)
}

// Each source and each target is a path.
fn see_pairs(pairs: &[Pair])
    ensures { All IsPair pairs.now }
{
    for pair in pairs {
        let _ = pair.source.text();
        let _ = pair.target.text();
    }
}
