//! The grouping of files with readers that they lend.
ghost use Rattle.std.specs.Prelude.{◌≡◌, ◌≤◌, length, IfOk, IfSome};
ghost use Rattle.std.specs.List.Sorted.{IsStrictlySortedBy};
ghost use Rattle.flat_list.specs.Prelude.{path_cmp, RoseBy, paths};
ghost use Rattle.tree_cmp.specs.Readers.{StatsTold};
ghost use Rattle.tree_dup.specs.Grouping.{IsGrouping, HaveCauses};

use crate::errors::DupError;
use crate::grouping::find_groups;
use crate::groups::Groups;
use flat_list::FlatList;
use outside::Ground;
use shared_reads::take_back;
use std::alloc::Global;
use std::thread::Threads;
use tree_cmp::lent_readers;

/// Groups the files of a list as [`find_groups`] does, with a reader of them for each host. `hosts` is 1 to 64. The files take back
/// all readers, also if memory runs out, and so count the faults that the readers counted.
pub fn group_files<T: Threads + Sync, G: Ground>(
    rt: &T,
    alloc: Global,
    list: &FlatList,
    files: &mut G,
    hosts: u32,
) -> Result<Groups, DupError>
where
    G::Reader: Send,
    requires ascend { IsStrictlySortedBy path_cmp (paths list.now) }
    requires told { IfSome (G.tree files.old) (λ tree. StatsTold tree list.now) }
    requires hosts { (1 ≤ hosts) × (hosts ≤ 64) }
    ensures groups { IfOk result (IsGrouping (G.tree files.old) list.now) }
    ensures counted { IfOk result (λ found. RoseBy (length found.failed) (G.count files.old) (G.count files.new)) }
    ensures causes { IfOk result (HaveCauses G.Reader.gives) }
    ensures same { G.tree files.new ≡ G.tree files.old }
    ensures area { G.area files.new ≡ G.area files.old }
    ensures count { RoseBy 0 (G.count files.old) (G.count files.new) }
{
    let mut readers = lent_readers(alloc, files, hosts)?;
    let found = find_groups(rt, alloc, list, &mut readers, hosts);
    take_back(files, readers);
    found
}
