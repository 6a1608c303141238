//! The look at the parent of the destination.
ghost use Rattle.std.specs.Prelude.{◌≡◌};
ghost use Rattle.sync_report.specs.Prelude.{IfErr, OnOk, RoseBy, side_of};
ghost use Rattle.sync_report.specs.PrivateSteps.{IsPlaced, StopsPlacing};

use outside::Ground;
use std::alloc::Global;
use tree_copy::{Pair, PlaceError};
use tree_sync::sync_place;

/// Whether the pair can be synced, with one reader, which is given back whatever it answers.
pub(crate) fn place_pair<G: Ground>(
    alloc: Global,
    pair: &Pair,
    files: &mut G,
) -> Result<(), PlaceError>
    ensures placed { OnOk result (IsPlaced pair.now (G.tree files.old)) }
    ensures stopped { IfErr result (StopsPlacing pair.now (side_of G.Plot files.old) (side_of G.Plot files.new)) }
    ensures same { G.tree files.new ≡ G.tree files.old }
    ensures area { G.area files.new ≡ G.area files.old }
    ensures count { RoseBy 0 (G.count files.old) (G.count files.new) }
{
    // The count of faults is a number of 64 bits.
    let _faults = files.faults();
    let _ = pair.source.text(); // tells that it is a path
    let _ = pair.target.text();
    let mut reader = files.reader(alloc)?;
    let placed = sync_place(&mut reader, &pair.source, &pair.target);
    files.take_reader(reader);
    placed
}
