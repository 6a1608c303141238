//! The look at the destination.
ghost use Rattle.std.specs.Prelude.{◌≡◌, ◌≤◌};
ghost use Rattle.copy_report.specs.Prelude.{All, length, Ok, IfOk, IfErr, RoseBy, side_of, IsPair};
ghost use Rattle.copy_report.specs.Placing.{Places};
ghost use Rattle.copy_report.specs.PrivateSteps.{ArePlaced, StopsPlacing};

use outside::Ground;
use path_text::Path;
use std::alloc::Global;
use tree_copy::{Pair, PlaceError, place, placed_are_apart};

/// Places the targets with one reader, which goes back whatever it answers.
pub(crate) fn place_targets<G: Ground>(
    alloc: Global,
    sources: &[Path],
    dest: &Path,
    files: &mut G,
) -> Result<Vec<Pair>, PlaceError>
    requires some { 1 ≤ length sources.now }
    ensures places { IfOk result (λ pairs. Places sources.now dest.now (G.tree files.old) (Ok pairs.items)) }
    ensures placed { IfOk result (λ pairs. ArePlaced sources.now (G.tree files.old) pairs.items) }
    ensures stopped { IfErr result (StopsPlacing sources.now dest.now (side_of G.Plot files.old)
        (side_of G.Plot files.new)) }
    ensures same { G.tree files.new ≡ G.tree files.old }
    ensures area { G.area files.new ≡ G.area files.old }
    ensures count { RoseBy 0 (G.count files.old) (G.count files.new) }
{
    placed_are_apart();
    // The count of faults is a number of 64 bits.
    let _faults = files.faults();
    let _ = dest.text(); // tells that it is a path
    let mut reader = files.reader(alloc)?;
    let pairs = place(alloc, &mut reader, sources, dest);
    files.take_reader(reader);
    let pairs = pairs?;
    see_ends(&pairs);
    Ok(pairs)
}

// Each source and each target is a path.
fn see_ends(pairs: &[Pair])
    ensures { All IsPair pairs.now }
{
    for pair in pairs {
        let _ = pair.source.text();
        let _ = pair.target.text();
    }
}
