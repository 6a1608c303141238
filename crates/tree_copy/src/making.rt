//! Makes a directory, or keeps the one that is there.
ghost use Rattle.std.specs.Prelude.{◌≡◌, ◌≢◌, if◌then◌else◌, Some, IfOk, IfSome};
ghost use Rattle.flat_list.specs.Prelude.{Entry, is_kind};
ghost use Rattle.tree_copy.specs.Prelude.{LookMeans, ShowsFate, refusal_means, HasLooked, IsDirMade, IsOpenTop, Stepped, TellsFate, is_taken, Looked};

use level_work::Fate;
use outside::{Failed, Kind, Plot, Tree, WriteError};
use path_text::{OutOfMemory, Path};
use std::alloc::Global;

// Makes a directory at the path. The reader looks at the path only if a node is there already.
pub(crate) fn dir_made<P: Plot, R: Tree>(
    alloc: Global,
    reader: &mut R,
    part: &mut P,
    path: &Path,
) -> Result<Fate, OutOfMemory>
    requires { IsOpenTop (P.area part.old) path.now }
    ensures told { IfSome (P.tree part.old) (λ before. IfSome (P.tree part.new) (IsDirMade (R.tree reader.old) path.now result before)) }
    ensures stepped { Stepped R.tree R.count P.tree P.area P.count reader.old reader.new part.old part.new result }
    ensures shown { (e : Entry) → IfOk result (ShowsFate R.gives P.gives path.now e Kind.Dir) }
{
    match part.make_dir(alloc, path) {
        Ok(()) => Ok(Fate::Done),
        Err(refused) => {
            if is_taken(refused) {
                Ok(look(reader, path, Kind::Dir))
            } else {
                fate_of(refused)
            }
        }
    }
}

// The fate that a look at a taken path means, if a node of this kind is needed: `Done` if one is there.
pub(crate) fn look<R: Tree>(reader: &mut R, path: &Path, wanted: Kind) -> Fate
    ensures told { IfSome (R.tree reader.old) (Looked wanted path.now result) }
    ensures looks { HasLooked R.tree R.count reader.old reader.new result }
    ensures shown { LookMeans R.gives path.now wanted result }
{
    match reader.stat(path) {
        Err(Failed) => Fate::Failed,
        Ok(None) => Fate::Changed,
        Ok(Some(stat)) => found(wanted, stat.kind),
    }
}

// The fate that a node of this kind means.
fn found(wanted: Kind, kind: Kind) -> Fate
    ensures { result ≡ (if is_kind wanted kind then Fate.Done else Fate.Conflict) }
{
    if is_kind(wanted, kind) {
        Fate::Done
    } else {
        Fate::Conflict
    }
}

fn is_kind(wanted: Kind, found: Kind) -> bool
    ensures { result ≡ is_kind wanted found }
{
    wanted == found
}

// Whether a refusal says that a node is there already.
pub(crate) fn is_taken(refused: WriteError) -> bool
    ensures { result ≡ is_taken refused }
{
    refused == WriteError::Exists
}

// The fate that a refusal means.
pub(crate) fn fate_of(refused: WriteError) -> Result<Fate, OutOfMemory>
    ensures told { TellsFate refused result }
    ensures named { IfOk result (λ fate. fate ≢ Fate.ParentFailed) }
    ensures cause { IfOk result (λ fate. fate ≡ Fate.Failed → refused ≡ WriteError.Failed) }
    ensures means { IfOk result (λ fate. refusal_means refused ≡ Some fate) }
{
    match refused {
        WriteError::OutOfMemory => Err(OutOfMemory),
        WriteError::Failed => Ok(Fate::Failed),
        WriteError::Exists => Ok(Fate::Changed),
        WriteError::NoParent => Ok(Fate::Changed),
        WriteError::WrongKind => Ok(Fate::Changed),
        WriteError::NotEmpty => Ok(Fate::Changed),
        WriteError::Absent => Ok(Fate::Changed),
    }
}
