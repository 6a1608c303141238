//! The plan of a sync, by a comparison of both lists.
ghost use Rattle.std.specs.Prelude.{◌≡◌, ◌≤◌, length, map, IfOk, IfSome};
ghost use Rattle.flat_list.specs.Prelude.{RoseBy, nothing_lent};
ghost use Rattle.tree_sync.specs.PrivateSteps.{Begun};
ghost use Rattle.tree_sync.specs.Syncing.{CanSync, FitsSync, ReadsShow};

use crate::choosing::chosen;
use crate::dividing::{Division, divided, is_there};
use crate::errors::SyncError;
use flat_list::FlatList;
use outside::{Ground, Plot, nodes_have_paths};
use path_text::Path;
use std::alloc::Global;
use std::thread::Threads;
use tree_cmp::{Missed, compare_files};
use tree_copy::Pair;

// The work of a sync.
#[derive(Drop)]
pub(crate) struct Plan {
    // How many entries of the source stay as they are.
    pub(crate) kept: u64,
    // The entries of the source that are copied.
    pub(crate) copied: FlatList,
    // The entries of the destination that are removed.
    pub(crate) chosen: FlatList,
    // The files whose reads failed.
    pub(crate) failed: Vec<Path>,
    // The files that a read showed to have changed.
    pub(crate) changed: Vec<Path>,
}

/// Compares the two lists and plans the work. It keeps the comparison's files that could not be read.
pub(crate) fn make_plan<T: Threads + Sync, G: Ground>(
    rt: &T,
    alloc: Global,
    source: &FlatList,
    dest: &FlatList,
    pair: &Pair,
    delete: bool,
    files: &mut G,
    hosts: u32,
) -> Result<Plan, SyncError>
where
    G::Reader: Send,
    requires hosts { (1 ≤ hosts) × (hosts ≤ 64) }
    requires lent { G.area files.old ≡ nothing_lent }
    requires can { CanSync pair.now source.now dest.now }
    requires fits { IfSome (G.tree files.old) (FitsSync pair.now source.now dest.now) }
    ensures begun { IfOk result (Begun pair.now source.now dest.now delete (G.tree files.old) (G.tree files.new)) }
    ensures counted { IfOk result (λ plan. RoseBy (length plan.failed.items) (G.count files.old) (G.count files.new)) }
    ensures causes { IfOk result (λ plan. ReadsShow G.Reader.gives plan.failed.items plan.changed.items) }
    ensures same { G.tree files.new ≡ G.tree files.old }
    ensures area { G.area files.new ≡ G.area files.old }
    ensures count { RoseBy 0 (G.count files.old) (G.count files.new) }
{
    nodes_have_paths();
    let _faults = files.faults(); // gives the proof that the nodes are a tree
    let (from, to) = (&pair.source, &pair.target);
    let _ = from.text(); // gives the proof that it is a path
    let _ = to.text();
    let found = compare_files(rt, alloc, source, from, dest, to, files, hosts)?;
    let failed = paths_of(alloc, found.failed())?;
    let changed = paths_of(alloc, found.changed())?;
    if !is_there(source, from)? {
        return Ok(Plan {
            kept: 0,
            copied: FlatList::make(alloc),
            chosen: FlatList::make(alloc),
            failed,
            changed,
        });
    }
    let Division {
        kept,
        copied,
        masks,
    } = divided(alloc, source, from, &found)?;
    let chosen = chosen(alloc, dest, to, &found, &masks, delete)?;
    Ok(Plan {
        kept,
        copied,
        chosen,
        failed,
        changed,
    })
}

fn paths_of(alloc: Global, missed: &[Missed]) -> Result<Vec<Path>, SyncError>
    ensures { IfOk result (λ paths. paths.items ≡ map (λ m. m.path) missed.now) }
{
    let mut paths = Vec::with_capacity(alloc, missed.len())?;
    for file in missed {
        paths.push(file.path.copy()?)?;
    }
    Ok(paths)
}
