//! Reads the lists of a checkpoint.
ghost use Rattle.std.specs.Prelude.{◌≡◌, map, length, IfOk, IfErr, IfSome, OnOk, Some, None};
ghost use Rattle.outside.specs.Count.{RoseBy};
ghost use Rattle.circle_lists.specs.Spelling.{IsRank, Agrees};
ghost use Rattle.circle_lists.specs.Checkpoint.{AllFit, Fits, HoldsList, HoldLists, StopsReadingAt, StopsReading};
ghost use Rattle.circle_lists.specs.Private.{most_ranks};

use crate::decoding::{RankList, Refused, decode};
use crate::errors::ListsError;
use crate::naming::file_in;
use outside::{LoadError, Tree, load};
use path_text::Path;
use std::alloc::Global;

/// Reads the lists of all ranks from the files of the folder. The file of rank 0 has the number of ranks. Each file must name
/// its own rank and the same number of ranks. It does not read other files in the folder.
pub fn read_lists<R: Tree>(
    alloc: Global,
    reader: &mut R,
    dir: &Path,
) -> Result<Vec<Vec<Path>>, ListsError>
    ensures told { IfOk result (λ lists. IfSome (R.tree reader.old) (HoldLists dir.now (map (λ list. list.items) lists.items))) }
    ensures few { IfOk result (λ lists. IsRank 0 (length lists.items)) }
    ensures fit { IfOk result (λ lists. AllFit dir.now (length lists.items)) }
    ensures stopped { IfErr result (StopsReading dir.now (R.tree reader.old) (R.count reader.old) (R.count reader.new)) }
    ensures same { R.tree reader.new ≡ R.tree reader.old }
    ensures count { RoseBy 0 (R.count reader.old) (R.count reader.new) }
{
    let first = read_list(alloc, reader, dir, 0, None)?;
    let ranks = first.ranks;
    let mut lists = Vec::new(alloc);
    lists.push(first.paths)?;
    for rank in 1..ranks {
        let next = read_list(alloc, reader, dir, rank, Some(ranks))?;
        lists.push(next.paths)?;
    }
    Ok(lists)
}

// Reads the list of one rank from its file.
fn read_list<R: Tree>(
    alloc: Global,
    reader: &mut R,
    dir: &Path,
    rank: u64,
    known: Option<u64>,
) -> Result<RankList, ListsError>
    requires { IsRank rank (most_ranks known) }
    ensures told { IfOk result (λ told. IfSome (R.tree reader.old) (HoldsList dir.now rank told.ranks told.paths.items)) }
    ensures agrees { IfOk result (λ told. Agrees known told.ranks) }
    ensures rank { IfOk result (λ told. IsRank rank told.ranks) }
    ensures fits { OnOk result (Fits dir.now rank) }
    ensures stopped { IfErr result (StopsReadingAt dir.now rank known (R.tree reader.old) (R.count reader.old) (R.count reader.new)) }
    ensures same { R.tree reader.new ≡ R.tree reader.old }
    ensures count { RoseBy 0 (R.count reader.old) (R.count reader.new) }
{
    let Some(path) = file_in(alloc, dir, rank)? else {
        return Err(ListsError::NoFile(dir.copy()?));
    };
    let bytes = match load(alloc, reader, &path) {
        Ok(bytes) => bytes,
        Err(LoadError::NoFile) => return Err(ListsError::NoFile(path)),
        Err(LoadError::Failed) => return Err(ListsError::Failed(path)),
        Err(LoadError::OutOfMemory) => return Err(ListsError::OutOfMemory),
    };
    match decode(alloc, &bytes, rank, known) {
        Ok(told) => Ok(told),
        Err(Refused::Damaged(line)) => Err(ListsError::Damaged(path, line)),
        Err(Refused::OutOfMemory) => Err(ListsError::OutOfMemory),
    }
}
