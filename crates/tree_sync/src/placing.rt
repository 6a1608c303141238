//! Whether a source can be synced to a destination.
ghost use Rattle.std.specs.Prelude.{◌≡◌, ◌∷◌, [], OnOk, IfErr, IfSome, Some, Ok, true, false};
ghost use Rattle.flat_list.specs.Prelude.{parent_of, RoseBy};
ghost use Rattle.outside.specs.Answered.{StatMeans};
ghost use Rattle.tree_copy.specs.Placing.{dir_told, overlap};
ghost use Rattle.tree_sync.specs.Placing.{IsLookCounted, IsSyncWhy, SyncPlaceStopped, sync_placed_over};

use outside::{Failed, Kind, Stat, Tree};
use path_text::Path;
use tree_copy::PlaceError;

/// Whether the source can be synced to the destination. Neither may be the other or under it, and the parent of the destination must
/// be a directory. An overlap costs no look; else it looks at the parent once.
pub fn sync_place<R: Tree>(reader: &mut R, source: &Path, dest: &Path) -> Result<(), PlaceError>
    ensures told { OnOk result (IfSome (R.tree reader.old) (λ files. sync_placed_over files source.now dest.now ≡ Ok tt)) }
    ensures why { IfErr result (λ e. IfSome (R.tree reader.old) (λ files. IsSyncWhy (sync_placed_over files source.now dest.now) e)) }
    ensures apart { OnOk result (overlap (source.now ∷ dest.now ∷ []) ≡ false) }
    ensures same { R.tree reader.new ≡ R.tree reader.old }
    ensures count { RoseBy 0 (R.count reader.old) (R.count reader.new) }
    ensures counted { IfErr result (IsLookCounted dest.now (R.count reader.old) (R.count reader.new)) }

    // By the reader's answers, over all files, also over files that show no tree.
    ensures ended { OnOk result (StatMeans R.gives (parent_of dest.now) dir_told (Some true) reader.old reader.new) }
    ensures stopped { IfErr result (SyncPlaceStopped R.gives source.now dest.now reader.old reader.new) }
{
    if meet(source, dest) {
        return Err(PlaceError::Overlap);
    }
    let _ = source.text(); // tells that it is a path
    let _ = dest.text();
    // `/` has no parent, and every path is within it.
    let Some(parent) = dest.parent()? else {
        return Err(PlaceError::Overlap);
    };
    match by_stat(reader.stat(&parent)) {
        Some(true) => Ok(()),
        Some(false) => Err(PlaceError::NoDest),
        None => Err(PlaceError::Failed(parent)),
    }
}

// Whether one of the paths is the other, or under it.
fn meet(source: &Path, dest: &Path) -> bool
    ensures { result ≡ overlap (source.now ∷ dest.now ∷ []) }
{
    source.is_within(dest) || dest.is_within(source)
}

// Whether the answer of `stat` is a directory; nothing if it failed.
fn by_stat(told: Result<Option<Stat>, Failed>) -> Option<bool>
    ensures { result ≡ dir_told told }
{
    match told {
        Ok(Some(stat)) => Some(stat.kind == Kind::Dir),
        Ok(None) => Some(false),
        Err(_) => None,
    }
}
