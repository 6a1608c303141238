//! A checkpoint, read.
ghost use Rattle.std.specs.Prelude.{◌≡◌, ◌⊎◌, ◌+◌, ◌<◌};
ghost use Rattle.checkpoints.specs.Prelude.{All, length, map, slice_index, IfOk, IfErr, IfSome, OnOk, true, flat_map, IsStrictlySortedBy, path_cmp, RoseBy};
ghost use Rattle.checkpoints.specs.Prelude.{is_shaped, paths, side_of, IsRank, AllFit, HoldLists};
ghost use Rattle.circle_lists.specs.Checkpoint as ranks;
ghost use Rattle.checkpoints.specs.Placing.{ArePlaced};
ghost use Rattle.checkpoints.specs.Kept.{IsCheckpoint};
ghost use Rattle.checkpoints.specs.Stopping.{TellsMisplaced, StopsReading};

use crate::naming::{list_in, stop_of_lists};
use crate::placing::first_misplaced;
use circle_lists::{ListsError, file_in, read_lists};
use flat_list::FlatList;
use outside::Ground;
use path_text::Path;
use run_entries::read_list;
use run_report::{Stop, Trouble};
use std::alloc::Global;

/// A checkpoint: the entries that a walk had done, and the strings that each rank had left.
#[derive(Debug, Drop)]
pub struct Checkpoint {
    /// The entries that were done.
    pub done: FlatList,
    /// The strings that each rank had left, rank 0 first.
    pub left: Vec<Vec<Path>>,
}

/// The checkpoint in the directory. It reads `circle.list` first, then the file of each rank, and then tests whether each
/// left string is placed. The first error ends it.
pub fn read_checkpoint<G: Ground>(
    alloc: Global,
    files: &mut G,
    dir: &Path,
) -> Result<Checkpoint, Stop>
    ensures read { IfOk result (λ kept. IsCheckpoint dir.now
        (side_of G.Plot files.old) kept.done (map (λ list. list.items) kept.left.items)) }
    ensures ascend { IfOk result (λ kept. IsStrictlySortedBy path_cmp (paths kept.done)) }
    ensures shaped { IfOk result (λ kept. All (λ e. is_shaped e ≡ true) kept.done) }
    ensures stopped { IfErr result (StopsReading dir.now (side_of G.Plot files.old) (side_of G.Plot files.new)) }
    ensures same { G.tree files.new ≡ G.tree files.old }
    ensures area { G.area files.new ≡ G.area files.old }
    ensures count { RoseBy 0 (G.count files.old) (G.count files.new) }
{
    let Some(path) = list_in(dir)? else {
        return Err(Stop::ListFile(Trouble::Absent, dir.copy()?));
    };
    let done = read_list(alloc, files, path)?;
    let left = match read_left(alloc, files, dir) {
        Ok(left) => left,
        Err(error) => return Err(stop_of_lists(error)),
    };
    look_placed(alloc, dir, &done, &left)?;
    Ok(Checkpoint { done, left })
}

// The strings that each rank had left, by a reader that goes back whatever it answers.
fn read_left<G: Ground>(
    alloc: Global,
    files: &mut G,
    dir: &Path,
) -> Result<Vec<Vec<Path>>, ListsError>
    ensures told { IfOk result (λ left. IfSome (G.tree files.old) (HoldLists dir.now (map (λ list. list.items) left.items))) }
    ensures number { IfOk result (λ left. IsRank 0 (length left.items)) }
    ensures fit { IfOk result (λ left. AllFit dir.now (length left.items)) }
    ensures stopped { IfErr result (ranks.StopsReading dir.now (G.tree files.old) (G.count files.old) (G.count files.new)) }
    ensures same { G.tree files.new ≡ G.tree files.old }
    ensures area { G.area files.new ≡ G.area files.old }
    ensures count { RoseBy 0 (G.count files.old) (G.count files.new) }
{
    // The count of faults is a number of 64 bits.
    let _faults = files.faults();
    let Ok(mut reader) = files.reader(alloc) else {
        return Err(ListsError::OutOfMemory);
    };
    let left = read_lists(alloc, &mut reader, dir);
    files.take_reader(reader);
    left
}

// Looks whether each left string is placed.
fn look_placed(alloc: Global, dir: &Path, done: &FlatList, left: &[Vec<Path>]) -> Result<(), Stop>
    requires ascend { IsStrictlySortedBy path_cmp (paths done.now) }
    requires number { IsRank 0 (length left.now) }
    requires fit { AllFit dir.now (length left.now) }
    ensures placed { OnOk result (ArePlaced done.now (flat_map (λ l. l) (map (λ list. list.items) left.now))) }
    ensures stopped { IfErr result (λ why. (why ≡ Stop.OutOfMemory) ⊎ TellsMisplaced dir.now done.now (map (λ list. list.items) left.now) why) }
{
    let Some((rank, place)) = first_misplaced(alloc, done, left)? else {
        return Ok(());
    };
    let line = line_of(&left[rank], place);
    match file_in(alloc, dir, rank as u64)? {
        Some(path) => Err(Stop::Damaged(path, line)),
        None => unreachable!(),
    }
}

// The line of the string at a place of a rank's list, in the rank's file. The head is line 1.
fn line_of(list: &[Path], place: usize) -> u64
    requires { place < length list.now }
    ensures { result ≡ place + 2 }
{
    // A list is no longer than memory.
    let _len = list.len();
    place as u64 + 2
}
