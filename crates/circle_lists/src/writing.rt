//! Writes the lists of a checkpoint.
ghost use Rattle.std.specs.Prelude.{◌≡◌, ◌<◌, ◌≤◌, ℕ, [], map, length, OnOk, IfErr, IfSome, is_some};
ghost use Rattle.outside.specs.Count.{RoseBy};
ghost use Rattle.outside.specs.Writes.{nothing_lent, SameBut};
ghost use Rattle.circle_lists.specs.Spelling.{IsRank};
ghost use Rattle.circle_lists.specs.Checkpoint.{file_path, HoldsList, HoldLists, SameButFiles, HasPlace, StopsWritingAt, StopsWriting};

use crate::encoding::encode;
use crate::errors::ListsError;
use crate::naming::file_in;
use outside::{Ground, SaveError, save};
use path_text::Path;
use std::alloc::Global;

/// Writes the lists of all ranks into files of the folder, one for each rank, in the order of the ranks. It stops at the first
/// list that it cannot write.
pub fn write_lists<G: Ground>(
    alloc: Global,
    ground: &mut G,
    dir: &Path,
    left: &[Vec<Path>],
) -> Result<(), ListsError>
    requires some { 1 ≤ length left.now }
    requires few { length left.now ≤ 64 }
    requires lent { G.area ground.old ≡ nothing_lent }
    ensures written { OnOk result (IfSome (G.tree ground.new) (HoldLists dir.now (map (λ list. list.items) left.now))) }
    ensures places { OnOk result ((rank : ℕ) → rank < length left.now → HasPlace dir.now (G.tree ground.old) rank) }
    ensures stopped { IfErr result (StopsWriting dir.now (length left.now) (G.tree ground.old) (G.count ground.old) (G.count ground.new)) }
    ensures rest { IfSome (G.tree ground.old) (λ files. IfSome (G.tree ground.new) (SameButFiles dir.now (length left.now) files)) }
    ensures tells { is_some (G.tree ground.new) ≡ is_some (G.tree ground.old) }
    ensures lent { G.area ground.new ≡ nothing_lent }
    ensures count { RoseBy 0 (G.count ground.old) (G.count ground.new) }
{
    let _ = dir.text(); // its contract says that it is a path
    let ranks = left.len() as u64;
    for rank in 0..left.len() {
        write_list(
            alloc,
            ground,
            dir,
            rank as u64,
            ranks,
            left[rank].as_slice(),
        )?;
    }
    Ok(())
}

// Writes the list of one rank into its file.
fn write_list<G: Ground>(
    alloc: Global,
    ground: &mut G,
    dir: &Path,
    rank: u64,
    ranks: u64,
    list: &[Path],
) -> Result<(), ListsError>
    requires rank { IsRank rank ranks }
    requires lent { G.area ground.old ≡ nothing_lent }
    ensures written { OnOk result (IfSome (G.tree ground.new) (HoldsList dir.now rank ranks list.now)) }
    ensures place { OnOk result (HasPlace dir.now (G.tree ground.old) rank) }
    ensures stopped { IfErr result (StopsWritingAt dir.now rank (G.tree ground.old) (G.count ground.old) (G.count ground.new)) }
    ensures rest { IfSome (G.tree ground.old) (λ files. IfSome (G.tree ground.new) (SameBut (file_path dir.now rank) files)) }
    ensures tells { is_some (G.tree ground.new) ≡ is_some (G.tree ground.old) }
    ensures lent { G.area ground.new ≡ nothing_lent }
    ensures count { RoseBy 0 (G.count ground.old) (G.count ground.new) }
{
    let Some(path) = file_in(alloc, dir, rank)? else {
        return Err(ListsError::NoPlace(dir.copy()?));
    };
    let bytes = encode(alloc, rank, ranks, list)?;
    match save(alloc, ground, &path, &bytes) {
        Ok(()) => Ok(()),
        Err(SaveError::NoPlace) => Err(ListsError::NoPlace(path)),
        Err(SaveError::Failed) => Err(ListsError::Failed(path)),
        Err(SaveError::OutOfMemory) => Err(ListsError::OutOfMemory),
    }
}
