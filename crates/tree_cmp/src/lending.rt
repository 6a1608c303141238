//! The comparison of two lists with readers that the files lend.
ghost use Rattle.std.specs.Prelude.{◌≡◌, ◌^◌, ◌<◌, ◌≤◌, length, map, IfOk, IfSome};
ghost use Rattle.std.specs.List.{sum_by};
ghost use Rattle.tree_cmp.specs.Prelude.{RoseBy, first_told, Alike, HaveCauses, StatsTold, IsComparison, side, IsSide};

use crate::compared::Compared;
use crate::comparing::compare;
use crate::errors::CmpError;
use flat_list::FlatList;
use outside::Ground;
use path_text::{OutOfMemory, Path};
use shared_reads::{readers_of, take_back};
use std::alloc::Global;
use std::thread::Threads;

/// Compares two lists as [`compare`] does, with a reader of the files for each host. `hosts` is 1 to 64. The files take back all
/// readers, also if memory runs out, and so count the faults that the readers counted.
pub fn compare_files<T: Threads + Sync, G: Ground>(
    rt: &T,
    alloc: Global,
    left: &FlatList,
    left_top: &Path,
    right: &FlatList,
    right_top: &Path,
    files: &mut G,
    hosts: u32,
) -> Result<Compared, CmpError>
where
    G::Reader: Send,
    requires left { IsSide (side left_top.now left.now) }
    requires right { IsSide (side right_top.now right.now) }
    requires left_told { IfSome (G.tree files.old) (λ tree. StatsTold tree left.now) }
    requires right_told { IfSome (G.tree files.old) (λ tree. StatsTold tree right.now) }
    requires hosts { (1 ≤ hosts) × (hosts ≤ 64) }
    ensures found { IfOk result (IsComparison (G.tree files.old) (side left_top.now left.now) (side right_top.now right.now)) }
    ensures counted { IfOk result (λ found. RoseBy (length found.failed) (G.count files.old) (G.count files.new)) }
    ensures causes { IfOk result (HaveCauses G.Reader.gives) }
    ensures same { G.tree files.new ≡ G.tree files.old }
    ensures area { G.area files.new ≡ G.area files.old }
    ensures count { RoseBy 0 (G.count files.old) (G.count files.new) }
{
    let mut readers = lent_readers(alloc, files, hosts)?;
    let compared = compare(
        rt,
        alloc,
        left,
        left_top,
        right,
        right_top,
        &mut readers,
        hosts,
    );
    take_back(files, readers);
    compared
}

/// A reader of the files for each host. They all tell the tree of the files.
pub fn lent_readers<G: Ground>(
    alloc: Global,
    files: &mut G,
    hosts: u32,
) -> Result<Vec<G::Reader>, OutOfMemory>
    requires hosts { 1 ≤ hosts }
    ensures some { IfOk result (λ readers. 0 < length readers.items) }
    ensures alike { IfOk result (λ readers. Alike (map G.Reader.tree readers.items)) }
    ensures told { IfOk result (λ readers. first_told (map G.Reader.tree readers.items) ≡ G.tree files.old) }
    ensures zero { IfOk result (λ readers. sum_by G.Reader.count readers.items ≡ 0) }
    ensures fits { G.count files.old < 2 ^ 64 }
    ensures same { G.tree files.new ≡ G.tree files.old }
    ensures area { G.area files.new ≡ G.area files.old }
    ensures count { G.count files.new ≡ G.count files.old }
{
    // The count of faults is a number of 64 bits.
    let _faults = files.faults();
    let readers = readers_of(alloc, files, hosts)?;
    Ok(readers)
}
