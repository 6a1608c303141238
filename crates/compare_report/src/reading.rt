//! The comparison of two sides.
ghost use Rattle.std.specs.Prelude.{◌≡◌, ◌≤◌};
ghost use Rattle.compare_report.specs.Prelude.{length, IfOk, RoseBy, IsComparison, side, AreSides};

use outside::Ground;
use path_text::OutOfMemory;
use run_entries::Sides;
use std::alloc::Global;
use std::thread::Threads;
use tree_cmp::{CmpError, Compared, compare_files};

/// Compares both sides, with as many readers of the files as there are hosts.
pub(crate) fn compare_sides<T: Threads + Sync, G: Ground>(
    rt: &T,
    alloc: Global,
    hosts: u32,
    sides: &Sides,
    files: &mut G,
) -> Result<Compared, OutOfMemory>
where
    G::Reader: Send,
    requires hosts { (1 ≤ hosts) × (hosts ≤ 64) }
    requires are { AreSides (G.tree files.old) sides.now }
    ensures compared { IfOk result (IsComparison (G.tree files.old) (side sides.now.left_top sides.now.left) (side sides.now.right_top sides.now.right)) }
    ensures counted { IfOk result (λ found. RoseBy (length found.failed) (G.count files.old) (G.count files.new)) }
    ensures same { G.tree files.new ≡ G.tree files.old }
    ensures area { G.area files.new ≡ G.area files.old }
    ensures count { RoseBy 0 (G.count files.old) (G.count files.new) }
{
    let compared = compare_files(
        rt,
        alloc,
        &sides.left,
        &sides.left_top,
        &sides.right,
        &sides.right_top,
        files,
        hosts,
    );
    match compared {
        Ok(compared) => Ok(compared),
        Err(CmpError::OutOfMemory) => Err(OutOfMemory),
    }
}
