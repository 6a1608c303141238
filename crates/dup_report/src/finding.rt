//! The walk, and the groups of the files that it lists.
ghost use Rattle.std.specs.Prelude.{◌≡◌, ◌≤◌};
ghost use Rattle.dup_report.specs.Prelude.{length, IfOk, IfErr, IfSome, IsStrictlySortedBy, path_cmp, RoseBy, paths, max_entries, CommonWithin, side_of};
ghost use Rattle.dup_report.specs.Prelude.{StatsTold, IsGrouping, roots, Walked, StopsListing};

use flat_list::FlatList;
use outside::Ground;
use path_text::{OutOfMemory, Path};
use run_entries::{Entries, walk_side};
use run_report::Stop;
use std::alloc::Global;
use std::sync::Wait;
use std::thread::Threads;
use tool_words::Common;
use tree_dup::{DupError, Groups, group_files};
use tree_walk::entries_are_told;

/// Walks the roots of these paths.
pub(crate) fn walk_listed<T: Threads + Wait + Sync, G: Ground>(
    rt: &T,
    alloc: Global,
    common: &Common,
    given: Vec<Path>,
    files: &mut G,
) -> Result<FlatList, Stop>
where
    G::Reader: Send,
    requires within { CommonWithin common.now }
    ensures walked { IfOk result (λ list. Walked given.items list (side_of G.Plot files.old)
        (side_of G.Plot files.new)) }
    ensures few { IfOk result (λ list. length list ≤ max_entries) }
    ensures ascend { IfOk result (λ list. IsStrictlySortedBy path_cmp (paths list)) }
    ensures told { IfOk result (λ list. IfSome (G.tree files.old) (λ tree. StatsTold tree list)) }
    ensures stopped { IfErr result (StopsListing (roots given.items) (side_of G.Plot files.old)
        (side_of G.Plot files.new)) }
    ensures same { G.tree files.new ≡ G.tree files.old }
    ensures area { G.area files.new ≡ G.area files.old }
    ensures count { RoseBy 0 (G.count files.old) (G.count files.new) }
{
    entries_are_told();
    let Entries { list, .. } = walk_side(rt, alloc, common, given, files)?;
    Ok(list)
}

/// Groups the files of the list, with a reader for each host.
pub(crate) fn group_listed<T: Threads + Sync, G: Ground>(
    rt: &T,
    alloc: Global,
    hosts: u32,
    list: &FlatList,
    files: &mut G,
) -> Result<Groups, OutOfMemory>
where
    G::Reader: Send,
    requires hosts { (1 ≤ hosts) × (hosts ≤ 64) }
    requires ascend { IsStrictlySortedBy path_cmp (paths list.now) }
    requires told { IfSome (G.tree files.old) (λ tree. StatsTold tree list.now) }
    ensures groups { IfOk result (IsGrouping (G.tree files.old) list.now) }
    ensures counted { IfOk result (λ found. RoseBy (length found.failed) (G.count files.old) (G.count files.new)) }
    ensures same { G.tree files.new ≡ G.tree files.old }
    ensures area { G.area files.new ≡ G.area files.old }
    ensures count { RoseBy 0 (G.count files.old) (G.count files.new) }
{
    match group_files(rt, alloc, list, files, hosts) {
        Ok(groups) => Ok(groups),
        Err(DupError::OutOfMemory) => Err(OutOfMemory),
    }
}
