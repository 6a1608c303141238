//! A checkpoint, written.
ghost use Rattle.std.specs.Prelude.{◌≡◌, ◌≤◌, ◌⊎◌};
ghost use Rattle.checkpoints.specs.Prelude.{All, length, map, IfErr, IfSome, OnErr, OnOk, is_some, true, false, IsStrictlySortedBy, path_cmp, RoseBy, is_root};
ghost use Rattle.checkpoints.specs.Prelude.{nothing_lent, SameBut, is_shaped, paths, side_of, AllFit, SameButAll};
ghost use Rattle.checkpoints.specs.Kept.{list_path, checkpoint_paths, IsKept, HoldsNewest};
ghost use Rattle.checkpoints.specs.Stopping.{IsCleared, IsGone, IsTorn, StopsWriting};
ghost use Rattle.checkpoints.specs.PrivateRemoval.{IsMeant};

use crate::naming::{list_in, stop_of_lists};
use circle_lists::write_lists;
use flat_list::FlatList;
use outside::{Ground, Plot, WriteError};
use path_text::Path;
use run_entries::save_list;
use run_report::{Stop, Trouble};
use std::alloc::Global;

/// Writes a checkpoint into the directory. It deletes an old `circle.list` first and then writes the files of the ranks. It
/// writes `circle.list` last, in version 2 of list files. The first error ends it. So a checkpoint that was cut off is refused
/// when it is read.
pub fn write_checkpoint<G: Ground>(
    alloc: Global,
    files: &mut G,
    dir: &Path,
    done: &FlatList,
    left: &[Vec<Path>],
) -> Result<(), Stop>
    requires some { 1 ≤ length left.now }
    requires few { length left.now ≤ 64 }
    requires lent { G.area files.old ≡ nothing_lent }
    requires ascend { IsStrictlySortedBy path_cmp (paths done.now) }
    requires shaped { All (λ e. is_shaped e ≡ true) done.now }
    ensures kept { OnOk result (IfSome (G.tree files.new) (IsKept dir.now done.now (map (λ list. list.items) left.now))) }
    ensures newest { OnOk result (IfSome (G.tree files.new) (HoldsNewest (list_path dir.now) done.now)) }
    ensures near { OnOk result (length (list_path dir.now) ≤ 4095) }
    ensures fit { OnOk result (AllFit dir.now (length left.now)) }
    ensures tells { is_some (G.tree files.new) ≡ is_some (G.tree files.old) }
    ensures rest { IfSome (G.tree files.old) (λ old. IfSome (G.tree files.new) (SameButAll (checkpoint_paths dir.now (length left.now)) old)) }
    ensures stopped { IfErr result (StopsWriting dir.now (length left.now) done.now (side_of G.Plot files.old)
        (side_of G.Plot files.new)) }
    ensures torn { OnErr result (IfSome (G.tree files.old) (λ old. IfSome (G.tree files.new) (IsTorn dir.now (map (λ list. list.items) left.now) old))) }
    ensures lent { G.area files.new ≡ nothing_lent }
    ensures count { RoseBy 0 (G.count files.old) (G.count files.new) }
{
    let Some(path) = list_in(dir)? else {
        return Err(Stop::ListFile(Trouble::NoPlace, dir.copy()?));
    };
    clear_list(alloc, files, dir, &path)?;
    if let Err(error) = write_lists(alloc, files, dir, left) {
        return Err(stop_of_lists(error));
    }
    save_list(alloc, files, Some(path), done)
}

// Removes the file at the path of the list file in the directory.
fn clear_list<G: Ground>(alloc: Global, files: &mut G, dir: &Path, path: &Path) -> Result<(), Stop>
    requires lent { G.area files.old ≡ nothing_lent }
    requires named { path.now ≡ list_path dir.now }
    ensures cleared { OnOk result (IsCleared dir.now (side_of G.Plot files.old) (side_of G.Plot files.new)) }
    ensures same { OnErr result (IfSome (G.tree files.old) (λ old. IfSome (G.tree files.new) (SameBut (list_path dir.now) old))) }
    ensures stopped { IfErr result (λ why. (why ≡ Stop.OutOfMemory) ⊎ ((why ≡ Stop.ListFile Trouble.Fault (list_path dir.now))
        × RoseBy 1 (G.count files.old) (G.count files.new))) }
    ensures tells { is_some (G.tree files.new) ≡ is_some (G.tree files.old) }
    ensures lent { G.area files.new ≡ nothing_lent }
    ensures count { RoseBy 0 (G.count files.old) (G.count files.new) }
{
    remove_old(alloc, files, path)
}

// Removes the file at a path below the root. A directory stays there.
fn remove_old<G: Ground>(alloc: Global, files: &mut G, path: &Path) -> Result<(), Stop>
    requires lent { G.area files.old ≡ nothing_lent }
    requires below { is_root path.now ≡ false }
    ensures gone { OnOk result (IfSome (G.tree files.old) (λ old. IfSome (G.tree files.new) (IsGone path.now old))) }
    ensures same { OnErr result (IfSome (G.tree files.old) (λ old. IfSome (G.tree files.new) (SameBut path.now old))) }
    ensures stopped { IfErr result (λ why. (why ≡ Stop.OutOfMemory) ⊎ ((why ≡ Stop.ListFile Trouble.Fault path.now)
        × RoseBy 1 (G.count files.old) (G.count files.new))) }
    ensures tells { is_some (G.tree files.new) ≡ is_some (G.tree files.old) }
    ensures lent { G.area files.new ≡ nothing_lent }
    ensures count { RoseBy 0 (G.count files.old) (G.count files.new) }
{
    match files.remove_file(alloc, path) {
        Ok(()) => Ok(()),
        Err(refused) => by_refusal(refused, path),
    }
}

// The meaning of a refusal to remove the list file at the path.
fn by_refusal(refused: WriteError, path: &Path) -> Result<(), Stop>
    ensures { IsMeant refused path.now result }
{
    match refused {
        WriteError::Failed => Err(Stop::ListFile(Trouble::Fault, path.copy()?)),
        WriteError::OutOfMemory => Err(Stop::OutOfMemory),
        WriteError::Exists => Ok(()),
        WriteError::NoParent => Ok(()),
        WriteError::WrongKind => Ok(()),
        WriteError::NotEmpty => Ok(()),
        WriteError::Absent => Ok(()),
    }
}
