//! Where a stage begins.
ghost use Rattle.std.specs.Prelude.{◌≡◌, ◌⊎◌};
ghost use Rattle.stage_report.specs.Prelude.{map, IfOk, IfErr, None, option_map, RoseBy, side_of, Apart, StopsReading};
ghost use Rattle.stage_report.specs.Stages.{Begins, all_of};
ghost use Rattle.stage_report.specs.Private.{IsBeside, IsWritable};

use checkpoints::{Checkpoint, read_checkpoint};
use flat_list::FlatList;
use outside::Ground;
use path_text::{OutOfMemory, Path};
use run_report::Stop;
use std::alloc::Global;
use tree_walk::roots_of;

/// The entries that are done when a stage begins, and the paths that it walks.
#[derive(Drop)]
pub(crate) struct Beginning {
    pub done: FlatList,
    pub starts: Vec<Path>,
}

/// Begins at the roots of the given paths, or without them from the checkpoint in the directory.
pub(crate) fn begin_stage<G: Ground>(
    alloc: Global,
    files: &mut G,
    given: Option<Vec<Path>>,
    lists: &Path,
) -> Result<Beginning, Stop>
    ensures begins { IfOk result (λ b. Begins (option_map (λ paths. paths.items) given) lists.now
        (side_of G.Plot files.old) b.done b.starts.items) }
    ensures apart { IfOk result (λ b. Apart b.starts.items) }
    ensures beside { IfOk result (λ b. IsBeside b.done b.starts.items) }
    ensures writable { IfOk result (λ b. IsWritable b.done) }
    ensures stopped { IfErr result (λ why. (why ≡ Stop.OutOfMemory) ⊎ ((option_map (λ paths. paths.items) given ≡ None)
        × StopsReading lists.now (side_of G.Plot files.old) (side_of G.Plot files.new) why)) }
    ensures same { G.tree files.new ≡ G.tree files.old }
    ensures area { G.area files.new ≡ G.area files.old }
    ensures count { RoseBy 0 (G.count files.old) (G.count files.new) }
{
    // The count of faults is a number of 64 bits.
    let _faults = files.faults();
    match given {
        Some(given) => Ok(Beginning {
            done: FlatList::make(alloc),
            starts: roots_of(given)?,
        }),
        None => {
            let Checkpoint { done, left } = read_checkpoint(alloc, files, lists)?;
            let starts = all_of(alloc, left)?;
            Ok(Beginning { done, starts })
        }
    }
}

// The strings of all ranks, in their order.
fn all_of(alloc: Global, left: Vec<Vec<Path>>) -> Result<Vec<Path>, OutOfMemory>
    ensures { IfOk result (λ all. all.items ≡ all_of (map (λ list. list.items) left.items)) }
{
    let mut all = Vec::new(alloc);
    for list in left {
        let mut list = list;
        all.append(&mut list)?;
    }
    Ok(all)
}
