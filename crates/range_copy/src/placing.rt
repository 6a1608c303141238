//! Makes an empty file at a target, in place of none or of a file.
ghost use Rattle.std.specs.Prelude.{◌≡◌, true, IfOk, IfSome, IsTrue, is_some};
ghost use Rattle.std.specs.FinMap.{get};
ghost use Rattle.flat_list.specs.Prelude.{parent_of, RoseBy, is_file, is_dir, is_open};
ghost use Rattle.tree_copy.specs.Causes.{LookMeans};
ghost use Rattle.range_copy.specs.PrivateLarge.{fate_of};
ghost use Rattle.range_copy.specs.PrivatePlacing.{HasStepped, Leaves, LooksLike, MadeAs, PlacedAs, ReplacedAs, freed, refused_as};
ghost use Rattle.range_copy.specs.PrivateShowing.{MadeBy, PlacedBy, ReplacedBy};

use crate::came::Came;
use crate::cutting::RangeError;
use outside::{Failed, Ground, Kind, Plot, Stat, Tree, WriteError};
use path_text::Path;
use std::alloc::Global;

// Makes an empty file at the path, in place of none or of a file. It looks at the old node before it removes it.
pub(crate) fn placed<G: Ground>(
    alloc: Global,
    ground: &mut G,
    path: &Path,
) -> Result<Came, RangeError>
    requires open { IsTrue (is_open (G.area ground.old) path.now) }
    requires stand { IfSome (G.tree ground.old) (λ before. is_dir (get before (parent_of path.now)) ≡ true) }
    ensures told { IfSome (G.tree ground.old) (λ before. IfSome (G.tree ground.new) (Leaves PlacedAs path.now result before)) }
    ensures stepped { HasStepped G.tree G.area G.count ground.old ground.new result }
    ensures shown { IfOk result (PlacedBy G.Reader.gives G.gives path.now ground.new) }
{
    match made(alloc, ground, path)? {
        Came::Done => Ok(Came::Done),
        Came::Failed => Ok(Came::Failed),
        Came::Changed => Ok(Came::Changed),
        Came::Conflict => placed_over(alloc, ground, path),
    }
}

// Makes an empty file at the path, if no node is there; else it answers `Conflict`.
fn made<G: Ground>(alloc: Global, ground: &mut G, path: &Path) -> Result<Came, RangeError>
    requires open { IsTrue (is_open (G.area ground.old) path.now) }
    requires stand { IfSome (G.tree ground.old) (λ before. is_dir (get before (parent_of path.now)) ≡ true) }
    ensures told { IfSome (G.tree ground.old) (λ before. IfSome (G.tree ground.new) (Leaves MadeAs path.now result before)) }
    ensures stepped { HasStepped G.tree G.area G.count ground.old ground.new result }
    ensures shown { IfOk result (MadeBy G.gives path.now ground.old ground.new) }
{
    match ground.make_file(alloc, path) {
        Ok(()) => Ok(Came::Done),
        Err(refused) => refused_as(refused),
    }
}

// Makes an empty file at a path that is taken, in place of a file.
fn placed_over<G: Ground>(alloc: Global, ground: &mut G, path: &Path) -> Result<Came, RangeError>
    requires open { IsTrue (is_open (G.area ground.old) path.now) }
    requires stand { IfSome (G.tree ground.old) (λ before. is_dir (get before (parent_of path.now)) ≡ true) }
    requires taken { IfSome (G.tree ground.old) (λ before. is_some (get before path.now) ≡ true) }
    ensures told { IfSome (G.tree ground.old) (λ before. IfSome (G.tree ground.new) (Leaves PlacedAs path.now result before)) }
    ensures stepped { HasStepped G.tree G.area G.count ground.old ground.new result }
    ensures shown { IfOk result (PlacedBy G.Reader.gives G.gives path.now ground.new) }
{
    match look(alloc, ground, path)? {
        Came::Done => replaced(alloc, ground, path),
        Came::Failed => Ok(Came::Failed),
        Came::Conflict => Ok(Came::Conflict),
        Came::Changed => Ok(Came::Changed),
    }
}

// Looks whether a file is at the path, by a reader of its own.
fn look<G: Ground>(alloc: Global, ground: &mut G, path: &Path) -> Result<Came, RangeError>
    ensures told { IfOk result (λ came. IfSome (G.tree ground.old) (λ files. LooksLike (get files path.now) came)) }
    ensures same { G.tree ground.new ≡ G.tree ground.old }
    ensures area { G.area ground.new ≡ G.area ground.old }
    ensures count { RoseBy 0 (G.count ground.old) (G.count ground.new) }
    ensures cause { IfOk result (λ came. came ≡ Came.Failed → RoseBy 1 (G.count ground.old) (G.count ground.new)) }
    ensures shown { IfOk result (λ came. LookMeans G.Reader.gives path.now Kind.File (fate_of came)) }
{
    // The count of faults is a number of 64 bits.
    let _faults = ground.faults();
    let mut reader = ground.reader(alloc)?;
    let came = seen(&mut reader, path);
    ground.take_reader(reader);
    Ok(came)
}

fn seen<R: Tree>(reader: &mut R, path: &Path) -> Came
    ensures told { IfSome (R.tree reader.old) (λ files. LooksLike (get files path.now) result) }
    ensures cause { result ≡ Came.Failed → RoseBy 1 (R.count reader.old) (R.count reader.new) }
    ensures shown { LookMeans R.gives path.now Kind.File (fate_of result) }
{
    let Ok(answer) = reader.stat(path) else {
        return Came::Failed;
    };
    let Some(stat) = answer else {
        return Came::Changed;
    };
    match stat.kind {
        Kind::File => Came::Done,
        Kind::Dir => Came::Conflict,
        Kind::Link => Came::Conflict,
        Kind::Other => Came::Conflict,
    }
}

// Removes a file and makes an empty one in its place.
fn replaced<G: Ground>(alloc: Global, ground: &mut G, path: &Path) -> Result<Came, RangeError>
    requires open { IsTrue (is_open (G.area ground.old) path.now) }
    requires stand { IfSome (G.tree ground.old) (λ before. is_dir (get before (parent_of path.now)) ≡ true) }
    requires there { IfSome (G.tree ground.old) (λ before. is_file (get before path.now) ≡ true) }
    ensures told { IfSome (G.tree ground.old) (λ before. IfSome (G.tree ground.new) (Leaves ReplacedAs path.now result before)) }
    ensures stepped { HasStepped G.tree G.area G.count ground.old ground.new result }
    ensures shown { IfOk result (ReplacedBy G.gives path.now ground.new) }
{
    let _ = path.text(); // shows that it is a path
    match ground.remove_file(alloc, path) {
        Ok(()) => freed(made(alloc, ground, path)),
        Err(refused) => refused_as(refused),
    }
}

// The outcome at a path whose old file was removed: a node that is there again is a change.
fn freed(made: Result<Came, RangeError>) -> Result<Came, RangeError>
    ensures { result ≡ freed made }
{
    match made {
        Ok(Came::Done) => Ok(Came::Done),
        Ok(Came::Failed) => Ok(Came::Failed),
        Ok(Came::Conflict) => Ok(Came::Changed),
        Ok(Came::Changed) => Ok(Came::Changed),
        Err(error) => Err(error),
    }
}

// The outcome that a refusal means.
fn refused_as(refused: WriteError) -> Result<Came, RangeError>
    ensures { result ≡ refused_as refused }
{
    match refused {
        WriteError::Exists => Ok(Came::Conflict),
        WriteError::Failed => Ok(Came::Failed),
        WriteError::OutOfMemory => Err(RangeError::OutOfMemory),
        WriteError::NoParent => Ok(Came::Changed),
        WriteError::WrongKind => Ok(Came::Changed),
        WriteError::NotEmpty => Ok(Came::Changed),
        WriteError::Absent => Ok(Came::Changed),
    }
}
