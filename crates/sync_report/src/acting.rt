//! The sync.
ghost use Rattle.std.specs.Prelude.{◌≡◌};
ghost use Rattle.sync_report.specs.Prelude.{IfOk, IfSome, is_some, RoseBy, nothing_lent, CommonWithin, side_of, SameOutside};
ghost use Rattle.sync_report.specs.PrivateSteps.{IsReady, MakesEqual};
ghost use Rattle.sync_report.specs.Syncing.{Syncs};

use outside::{Ground, Plot};
use path_text::OutOfMemory;
use run_entries::Sides;
use std::alloc::Global;
use std::thread::Threads;
use tool_words::Common;
use tree_copy::Pair;
use tree_sync::{SyncError, SyncReport, sync, synced_rows_agree};
use tree_walk::{entries_are_told, walk_ascends, walk_lists_all};

/// Makes the destination equal to the source, by the lists of both, with as many ranks and hosts as asked.
pub(crate) fn sync_sides<T: Threads + Sync, G: Ground>(
    rt: &T,
    alloc: Global,
    common: &Common,
    pair: &Pair,
    sides: &Sides,
    delete: bool,
    files: &mut G,
) -> Result<SyncReport, OutOfMemory>
where
    G::Reader: Send,
    G::Part: Send,
    requires within { CommonWithin common.now }
    requires lent { G.area files.old ≡ nothing_lent }
    requires ready { IsReady pair.now sides.now.left sides.now.right (G.tree files.old) }
    ensures syncs { IfOk result (λ done. Syncs pair.now sides.now.left sides.now.right delete done (side_of G.Plot files.old)
        (side_of G.Plot files.new)) }
    ensures equal { IfOk result (λ done. MakesEqual pair.now sides.now.left sides.now.right delete done (G.tree files.new)) }
    ensures rest { IfSome (G.tree files.old) (λ before. IfSome (G.tree files.new) (SameOutside pair.now.target before)) }
    ensures tells { is_some (G.tree files.new) ≡ is_some (G.tree files.old) }
    ensures lent { G.area files.new ≡ nothing_lent }
    ensures count { RoseBy 0 (G.count files.old) (G.count files.new) }
{
    entries_are_told();
    synced_rows_agree();
    walk_ascends();
    walk_lists_all();
    let Sides { left, right, .. } = sides;
    let synced = sync(
        rt,
        alloc,
        left,
        right,
        pair,
        delete,
        files,
        common.ranks,
        common.hosts,
    );
    // The call tells that the nodes are a tree.
    let _faults = files.faults();
    match synced {
        Ok(report) => Ok(report),
        Err(SyncError::OutOfMemory) => Err(OutOfMemory),
    }
}
