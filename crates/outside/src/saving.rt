//! Writes whole files.
ghost use Rattle.std.specs.Prelude.{◌≡◌, ◌≢◌, ◌⊎◌, true, false, [], length, Some, None, Ok, Err, OnOk, IfOk, IfErr, IfSome, IsErrOf, IsTrue, is_some};
ghost use Rattle.std.specs.FinMap as map;
ghost use Rattle.outside.specs.Count.{RoseBy};
ghost use Rattle.outside.specs.Tree.{is_file};
ghost use Rattle.outside.specs.Writes.{nothing_lent, is_open, make_refusal, new_file};
ghost use Rattle.outside.specs.PrivateSaves.{SaveStep};
ghost use Rattle.outside.specs.Whole.{can_put, Saves, Holds, IsOld};
ghost use Rattle.outside.specs.Asked as asked;
ghost use Rattle.outside.specs.Answered.{over_told, place_told, LookFound, LookStopped, LastWrite, Cleared, WroteFront, SaveEnded, SaveStopped};

use crate::failures::Failed;
use crate::grounds::Ground;
use crate::plots::{Plot, WriteError};
use crate::trees::{Kind, Stat, Tree};
use path_text::{OutOfMemory, Path};
use std::alloc::Global;
use thiserror::Error;

/// The number of bytes of one write.
const PIECE: usize = 65536;

/// Why a file is not saved.
#[derive(Clone, Copy, Debug, Drop, PartialEq, Eq, Error)]
pub enum SaveError {
    /// The outside failed, and the files have counted the fault.
    #[error("the outside failed")]
    Failed,
    /// No file can be at the path: its parent is not a directory, or its node is not a file.
    #[error("no file can be there")]
    NoPlace,
    /// The call is out of memory.
    #[error("out of memory")]
    OutOfMemory,
}

impl From<Failed> for SaveError {
    ghost use Rattle.std.specs.Prelude.{◌≡◌};
    ghost use Rattle.outside.specs.declared.saving.SaveError.TheVariants as save;

    ghost from_gives = { λ _ e. e ≡ save.Failed };

    fn from(_: Failed) -> Self {
        SaveError::Failed
    }
}

impl From<OutOfMemory> for SaveError {
    ghost use Rattle.std.specs.Prelude.{◌≡◌};
    ghost use Rattle.outside.specs.declared.saving.SaveError.TheVariants as save;

    ghost from_gives = { λ _ e. e ≡ save.OutOfMemory };

    fn from(_: OutOfMemory) -> Self {
        SaveError::OutOfMemory
    }
}

impl From<WriteError> for SaveError {
    ghost use Rattle.std.specs.Prelude.{◌≡◌};
    ghost use Rattle.outside.specs.Whole.{save_error};

    ghost from_gives = { λ refused e. e ≡ save_error refused };

    fn from(refused: WriteError) -> Self {
        match refused {
            WriteError::Failed => SaveError::Failed,
            WriteError::OutOfMemory => SaveError::OutOfMemory,
            _ => SaveError::NoPlace,
        }
    }
}

/// Writes a file with these bytes at the path, in place of a file that is there. It ends: each turn writes at least one byte.
/// After `Failed` and `OutOfMemory` the contract says nothing of the path itself.
pub fn save<G: Ground>(
    alloc: Global,
    ground: &mut G,
    path: &Path,
    bytes: &[u8],
) -> Result<(), SaveError>
    requires { G.area ground.old ≡ nothing_lent }
    ensures told { IfSome (G.tree ground.old) (λ files. Saves path.now bytes.now files result (G.tree ground.new)) }
    ensures tells { is_some (G.tree ground.new) ≡ is_some (G.tree ground.old) }
    ensures area { G.area ground.new ≡ G.area ground.old }
    ensures count { RoseBy 0 (G.count ground.old) (G.count ground.new) }
    ensures cause { IsErrOf result SaveError.Failed → RoseBy 1 (G.count ground.old) (G.count ground.new) }

    // Over all files, also those that tell no tree, by the answers of the calls.
    ensures ended { OnOk result (SaveEnded G.Reader.gives G.gives path.now bytes.now ground.new) }
    ensures stopped { IfErr result (SaveStopped G.Reader.gives G.gives path.now ground.old ground.new) }
{
    let _ = path.text(); // tells that it is a path
    let Some(parent) = path.parent()? else {
        return Err(SaveError::NoPlace);
    };
    let old = find_old(alloc, ground, path, &parent)?;
    clear(alloc, ground, path, old)?;
    make_empty(alloc, ground, path)?;
    write_all(alloc, ground, path, bytes)
}

// Whether a file is at the path already, if a file can be saved there.
fn find_old<G: Ground>(
    alloc: Global,
    ground: &mut G,
    path: &Path,
    parent: &Path,
) -> Result<bool, SaveError>
    ensures told { IfOk result (λ old. IfSome (G.tree ground.old) (λ files. (can_put files path.now parent.now ≡ true) × (is_file (map.get files path.now) ≡ old))) }
    ensures no_place { IsErrOf result SaveError.NoPlace → IfSome (G.tree ground.old) (λ files. can_put files path.now parent.now ≡ false) }
    ensures same { G.tree ground.new ≡ G.tree ground.old }
    ensures area { G.area ground.new ≡ G.area ground.old }
    ensures count { RoseBy 0 (G.count ground.old) (G.count ground.new) }
    ensures cause { IsErrOf result SaveError.Failed → RoseBy 1 (G.count ground.old) (G.count ground.new) }
    ensures found { IfOk result (LookFound G.Reader.gives parent.now path.now) }
    ensures stopped { IfErr result (λ e. LookStopped G.Reader.gives parent.now path.now e ⊎ ((e ≡ SaveError.OutOfMemory) × (ground.new ≡ ground.old))) }
    ensures memory { IsErrOf result SaveError.OutOfMemory → ground.new ≡ ground.old }
{
    let _ = ground.faults(); // tells that the count is a number of 64 bits
    let mut reader = ground.reader(alloc)?;
    let old = look(&mut reader, path, parent);
    ground.take_reader(reader);
    old
}

fn look<R: Tree>(reader: &mut R, path: &Path, parent: &Path) -> Result<bool, SaveError>
    ensures told { IfOk result (λ old. IfSome (R.tree reader.old) (λ files. (can_put files path.now parent.now ≡ true) × (is_file (map.get files path.now) ≡ old))) }
    ensures no_place { IsErrOf result SaveError.NoPlace → IfSome (R.tree reader.old) (λ files. can_put files path.now parent.now ≡ false) }
    ensures same { R.tree reader.new ≡ R.tree reader.old }
    ensures count { RoseBy 0 (R.count reader.old) (R.count reader.new) }
    ensures cause { IsErrOf result SaveError.Failed → RoseBy 1 (R.count reader.old) (R.count reader.new) }
    ensures found { IfOk result (LookFound R.gives parent.now path.now) }
    ensures stopped { IfErr result (LookStopped R.gives parent.now path.now) }
    ensures memory { result ≢ Err SaveError.OutOfMemory }
{
    match by_over(reader.stat(parent)) {
        Ok(()) => by_place(reader.stat(path)),
        Err(refused) => Err(refused),
    }
}

// Whether a file can be saved, by the answer of `stat` at its parent.
fn by_over(told: Result<Option<Stat>, Failed>) -> Result<(), SaveError>
    ensures { result ≡ over_told told }
{
    let Some(over) = told? else {
        return Err(SaveError::NoPlace);
    };
    if over.kind != Kind::Dir {
        return Err(SaveError::NoPlace);
    }
    Ok(())
}

// Whether there is an old file, by the answer of `stat` at the path of the file to save.
fn by_place(told: Result<Option<Stat>, Failed>) -> Result<bool, SaveError>
    ensures { result ≡ place_told told }
{
    let Some(here) = told? else {
        return Ok(false);
    };
    if here.kind != Kind::File {
        return Err(SaveError::NoPlace);
    }
    Ok(true)
}

// Removes the file at the path, if there is one.
fn clear<G: Ground>(alloc: Global, ground: &mut G, path: &Path, old: bool) -> Result<(), SaveError>
    requires open { IsTrue (is_open (G.area ground.old) path.now) }
    requires old { IfSome (G.tree ground.old) (λ files. IsOld old (map.get files path.now)) }
    ensures told { OnOk result (IfSome (G.tree ground.old) (λ files. IfSome (G.tree ground.new) (Holds path.now None files))) }
    ensures kept { SaveStep path.now (G.tree ground.old) (G.tree ground.new) (G.area ground.old) (G.area ground.new) (G.count ground.old) (G.count ground.new) result }
    ensures done { OnOk result (Cleared G.gives path.now old ground.old ground.new) }
    ensures stopped { IfErr result (λ e. LastWrite G.gives path.now e ground.new) }
{
    if old {
        ground.remove_file(alloc, path)?;
    }
    Ok(())
}

// Makes an empty file at a path without a node, whose parent is a directory.
fn make_empty<G: Ground>(alloc: Global, ground: &mut G, path: &Path) -> Result<(), SaveError>
    requires area { G.area ground.old ≡ nothing_lent }
    requires open { IsTrue (is_open (G.area ground.old) path.now) }
    requires free { IfSome (G.tree ground.old) (λ files. make_refusal nothing_lent files path.now ≡ None) }
    ensures told { OnOk result (IfSome (G.tree ground.old) (λ files. IfSome (G.tree ground.new) (Holds path.now (Some (new_file [])) files))) }
    ensures kept { SaveStep path.now (G.tree ground.old) (G.tree ground.new) (G.area ground.old) (G.area ground.new) (G.count ground.old) (G.count ground.new) result }
    ensures done { OnOk result (G.gives ground.old path.now asked.make_file (Ok tt) ground.new) }
    ensures stopped { IfErr result (λ e. LastWrite G.gives path.now e ground.new) }
{
    ground.make_file(alloc, path)?;
    Ok(())
}

// Writes all the bytes to an empty file.
fn write_all<G: Ground>(
    alloc: Global,
    ground: &mut G,
    path: &Path,
    bytes: &[u8],
) -> Result<(), SaveError>
    requires open { IsTrue (is_open (G.area ground.old) path.now) }
    requires empty { IfSome (G.tree ground.old) (λ files. map.get files path.now ≡ Some (new_file [])) }
    ensures told { OnOk result (IfSome (G.tree ground.old) (λ files. IfSome (G.tree ground.new) (Holds path.now (Some (new_file bytes.now)) files))) }
    ensures kept { SaveStep path.now (G.tree ground.old) (G.tree ground.new) (G.area ground.old) (G.area ground.new) (G.count ground.old) (G.count ground.new) result }
    ensures done { OnOk result (WroteFront G.gives path.now bytes.now (length bytes.now) ground.old ground.new) }
    ensures stopped { IfErr result (λ e. LastWrite G.gives path.now e ground.new) }
{
    let mut at = 0;
    while at < bytes.len() {
        let end = at + (bytes.len() - at).min(PIECE);
        ground.write_at(alloc, path, at as u64, &bytes[at..end])?;
        at = end;
    }
    Ok(())
}
