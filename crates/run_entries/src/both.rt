//! The walks of a source and of a destination, each by itself.
ghost use Rattle.std.specs.Prelude.{◌≡◌, ◌≤◌, ◌∷◌};
ghost use Rattle.run_entries.specs.Prelude.{[], All, length, IfOk, IfErr, IfSome, None, true, refusal, RoseBy, is_shaped, max_entries, CommonWithin, side_of};
ghost use Rattle.run_entries.specs.Prelude.{StatsTold, side, IsSide, roots};
ghost use Rattle.run_entries.specs.Both.{AreSides, StopsEitherWalk, WalksBoth};
ghost use Rattle.run_entries.specs.Entries.{Walked};
ghost use Rattle.run_entries.specs.Stopping.{StopsListing};

use crate::accounts::Entries;
use crate::starting::walk_side;
use flat_list::FlatList;
use outside::Ground;
use path_text::{OutOfMemory, Path};
use run_report::Stop;
use std::alloc::Global;
use std::sync::Wait;
use std::thread::Threads;
use tool_words::Common;
use tree_walk::entries_are_told;

/// The lists of both sides, and the paths where their walks began.
#[derive(Drop)]
pub struct Sides {
    /// The entries of the source.
    pub left: FlatList,
    /// The source.
    pub left_top: Path,
    /// The entries of the destination.
    pub right: FlatList,
    /// The destination.
    pub right_top: Path,
}

/// Walks the source, and then the destination.
pub fn walk_sides<T: Threads + Wait + Sync, G: Ground<Reader: Send>>(
    rt: &T,
    alloc: Global,
    common: &Common,
    left_top: Path,
    right_top: Path,
    files: &mut G,
) -> Result<Sides, Stop>
    requires within { CommonWithin common.now }
    requires left { refusal left_top ≡ None }
    requires right { refusal right_top ≡ None }
    ensures tops { IfOk result (λ sides. (sides.left_top ≡ left_top) × (sides.right_top ≡ right_top)) }
    ensures walks { IfOk result (λ sides. WalksBoth left_top right_top sides.left sides.right (side_of G.Plot files.old) (side_of G.Plot files.new)) }
    ensures are { IfOk result (AreSides (G.tree files.old)) }
    ensures stopped { IfErr result (StopsEitherWalk left_top right_top (side_of G.Plot files.old) (side_of G.Plot files.new)) }
    ensures same { G.tree files.new ≡ G.tree files.old }
    ensures area { G.area files.new ≡ G.area files.old }
    ensures count { RoseBy 0 (G.count files.old) (G.count files.new) }
{
    let left = walk_one(rt, alloc, common, &left_top, files)?;
    let right = walk_one(rt, alloc, common, &right_top, files)?;
    Ok(Sides {
        left,
        left_top,
        right,
        right_top,
    })
}

// Walks one side.
fn walk_one<T: Threads + Wait + Sync, G: Ground<Reader: Send>>(
    rt: &T,
    alloc: Global,
    common: &Common,
    top: &Path,
    files: &mut G,
) -> Result<FlatList, Stop>
    requires within { CommonWithin common.now }
    requires top { refusal top.now ≡ None }
    ensures walked { IfOk result (λ list. Walked (top.now ∷ []) list (side_of G.Plot files.old) (side_of G.Plot files.new)) }
    ensures few { IfOk result (λ list. length list ≤ max_entries) }
    ensures side { IfOk result (λ list. IsSide (side top.now list)) }
    ensures told { IfOk result (λ list. IfSome (G.tree files.old) (λ tree. StatsTold tree list)) }
    ensures shaped { IfOk result (All (λ e. is_shaped e ≡ true)) }
    ensures stopped { IfErr result (StopsListing (roots (top.now ∷ [])) (side_of G.Plot files.old) (side_of G.Plot files.new)) }
    ensures same { G.tree files.new ≡ G.tree files.old }
    ensures area { G.area files.new ≡ G.area files.old }
    ensures count { RoseBy 0 (G.count files.old) (G.count files.new) }
{
    entries_are_told();
    // The count of faults is a number of 64 bits.
    let _faults = files.faults();
    let given = one_path(alloc, top)?;
    let Entries { list, .. } = walk_side(rt, alloc, common, given, files)?;
    list.paths_are_valid();
    Ok(list)
}

fn one_path(alloc: Global, path: &Path) -> Result<Vec<Path>, OutOfMemory>
    ensures { IfOk result (λ paths. paths.items ≡ path.now ∷ []) }
{
    let mut paths = Vec::new(alloc);
    paths.push(path.copy()?)?;
    Ok(paths)
}
