//! The walk of the sources.
ghost use Rattle.std.specs.Prelude.{◌≡◌, ◌≤◌};
ghost use Rattle.copy_report.specs.Prelude.{length, IfOk, IfErr, RoseBy, max_entries, CommonWithin, side_of, roots, Walked, StopsListing};
ghost use Rattle.copy_report.specs.PrivateSteps.{ArePlaced, CanBeCopied};

use flat_list::FlatList;
use outside::Ground;
use path_text::Path;
use run_entries::{Entries, walk_side};
use run_report::Stop;
use std::alloc::Global;
use std::sync::Wait;
use std::thread::Threads;
use tool_words::Common;
use tree_copy::Pair;
use tree_walk::{entries_are_told, entries_have_parents};

/// Walks the sources, whose targets are placed: entries that can be copied to their targets.
pub(crate) fn walk_sources<T: Threads + Wait + Sync, G: Ground<Reader: Send>>(
    rt: &T,
    alloc: Global,
    common: &Common,
    sources: Vec<Path>,
    pairs: &[Pair],
    files: &mut G,
) -> Result<FlatList, Stop>
    requires within { CommonWithin common.now }
    requires placed { ArePlaced sources.items (G.tree files.old) pairs.now }
    ensures walked { IfOk result (λ list. Walked sources.items list (side_of G.Plot files.old)
        (side_of G.Plot files.new)) }
    ensures few { IfOk result (λ list. length list ≤ max_entries) }
    ensures can { IfOk result (λ list. CanBeCopied list pairs.now (G.tree files.old)) }
    ensures stopped { IfErr result (StopsListing (roots sources.items) (side_of G.Plot files.old)
        (side_of G.Plot files.new)) }
    ensures same { G.tree files.new ≡ G.tree files.old }
    ensures area { G.area files.new ≡ G.area files.old }
    ensures count { RoseBy 0 (G.count files.old) (G.count files.new) }
{
    entries_are_told();
    entries_have_parents();
    let Entries { list, .. } = walk_side(rt, alloc, common, sources, files)?;
    list.paths_are_valid();
    Ok(list)
}
