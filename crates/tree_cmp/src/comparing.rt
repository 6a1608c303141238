//! The comparison of two lists.
ghost use Rattle.std.specs.Prelude.{◌≡◌, ◌<◌, ◌≤◌, length, map, IfOk, OnOk, IfSome, All};
ghost use Rattle.tree_cmp.specs.Prelude.{first_told, Alike, HaveCauses, StatsTold, NoneFell, RoseTogether, IsComparison, side, IsSide};
ghost use Rattle.tree_cmp.specs.Private.Sharing.{IsSettled, unsettled, blames};

use crate::compared::Compared;
use crate::drafts::Draft;
use crate::errors::CmpError;
use crate::merging::drafts_of;
use crate::settling::settle;
use crate::sharing::Work;
use flat_list::FlatList;
use outside::Tree;
use path_text::{Path, graft_undoes_below};
use shared_reads::Desk;
use std::alloc::Global;
use std::thread::Threads;

/// Compares two lists, each of a walk from its top. It compares two links by the texts that the lists have, and asks no reader for
/// them. It reads the files that both sides have with one size, the source's first, up to the first piece that differs. It does not
/// read files without bytes. `hosts`, 1 to 64, is how many threads read at most, each with a reader of its own. Afterwards `readers`
/// has all readers in their order again, also if memory runs out.
pub fn compare<W: Threads + Sync, R: Tree + Send + Drop>(
    rt: &W,
    alloc: Global,
    left: &FlatList,
    left_top: &Path,
    right: &FlatList,
    right_top: &Path,
    readers: &mut Vec<R>,
    hosts: u32,
) -> Result<Compared, CmpError>
    requires left { IsSide (side left_top.now left.now) }
    requires right { IsSide (side right_top.now right.now) }
    requires some { 0 < length readers.old.items }
    requires alike { Alike (map R.tree readers.old.items) }
    requires left_told { IfSome (first_told (map R.tree readers.old.items)) (λ files. StatsTold files left.now) }
    requires right_told { IfSome (first_told (map R.tree readers.old.items)) (λ files. StatsTold files right.now) }
    requires hosts { (1 ≤ hosts) × (hosts ≤ 64) }
    ensures found { IfOk result (IsComparison (first_told (map R.tree readers.old.items)) (side left_top.now left.now) (side right_top.now right.now)) }
    ensures counted { IfOk result (λ found. RoseTogether (length found.failed) (map R.count readers.old.items) (map R.count readers.new.items)) }
    ensures causes { IfOk result (HaveCauses R.gives) }
    ensures none_fell { NoneFell (map R.count readers.old.items) (map R.count readers.new.items) }
    ensures same { map R.tree readers.new.items ≡ map R.tree readers.old.items }
{
    graft_undoes_below();
    let mut drafts = drafts_of(alloc, left, left_top, right, right_top)?;
    read_all(rt, alloc, &mut drafts, left_top, right_top, readers, hosts)?;
    Compared::of(alloc, drafts, left_top, right_top)
}

// Reads the files of all rows whose files are to be read.
fn read_all<W: Threads + Sync, R: Tree + Send + Drop>(
    rt: &W,
    alloc: Global,
    drafts: &mut Vec<Draft>,
    left: &Path,
    right: &Path,
    readers: &mut Vec<R>,
    hosts: u32,
) -> Result<(), CmpError>
    requires unread { map unsettled drafts.old.items ≡ drafts.old.items }
    requires some { 0 < length readers.old.items }
    requires alike { Alike (map R.tree readers.old.items) }
    requires hosts { 1 ≤ hosts }
    ensures unsettled { map unsettled drafts.new.items ≡ drafts.old.items }
    ensures settled { OnOk result (All (IsSettled R.gives (first_told (map R.tree readers.old.items)) left.now right.now) drafts.new.items) }
    ensures counted { RoseTogether (blames drafts.new.items) (map R.count readers.old.items) (map R.count readers.new.items) }
    ensures none_fell { NoneFell (map R.count readers.old.items) (map R.count readers.new.items) }
    ensures same { map R.tree readers.new.items ≡ map R.tree readers.old.items }
{
    let mut desk = Desk::make(alloc)?;
    let work = Work {
        drafts,
        left,
        right,
    };
    let kept = shared_reads::read_all(rt, alloc, &work, readers, hosts)?;
    settle(drafts, left, right, kept, &mut readers[0], &mut desk)
}
