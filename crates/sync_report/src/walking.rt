//! The walks of both sides.
ghost use Rattle.std.specs.Prelude.{◌≡◌};
ghost use Rattle.sync_report.specs.Prelude.{IfOk, IfErr, RoseBy, CommonWithin, side_of, WalksBoth, StopsEitherWalk};
ghost use Rattle.sync_report.specs.PrivateSteps.{IsPlaced, IsReady};

use outside::{Ground, nodes_have_paths};
use run_entries::{Sides, walk_sides};
use run_report::Stop;
use std::alloc::Global;
use std::sync::Wait;
use std::thread::Threads;
use tool_words::Common;
use tree_copy::Pair;
use tree_walk::{entries_are_told, entries_have_parents, roots_are_unique, walk_lists_all};

/// Walks the source and then the destination of a placed pair: lists that can be synced.
pub(crate) fn walk_pair<T: Threads + Wait + Sync, G: Ground>(
    rt: &T,
    alloc: Global,
    common: &Common,
    pair: &Pair,
    files: &mut G,
) -> Result<Sides, Stop>
where
    G::Reader: Send,
    requires within { CommonWithin common.now }
    requires placed { IsPlaced pair.now (G.tree files.old) }
    ensures walks { IfOk result (λ sides. WalksBoth pair.now.source pair.now.target sides.left sides.right
        (side_of G.Plot files.old) (side_of G.Plot files.new)) }
    ensures ready { IfOk result (λ sides. IsReady pair.now sides.left sides.right (G.tree files.old)) }
    ensures stopped { IfErr result (StopsEitherWalk pair.now.source pair.now.target (side_of G.Plot files.old)
        (side_of G.Plot files.new)) }
    ensures same { G.tree files.new ≡ G.tree files.old }
    ensures area { G.area files.new ≡ G.area files.old }
    ensures count { RoseBy 0 (G.count files.old) (G.count files.new) }
{
    entries_are_told();
    entries_have_parents();
    nodes_have_paths();
    roots_are_unique();
    walk_lists_all();
    // The count of faults is a number of 64 bits.
    let _faults = files.faults();
    let source = pair.source.copy()?;
    let dest = pair.target.copy()?;
    let sides = walk_sides(rt, alloc, common, source, dest, files)?;
    Ok(sides)
}
