//! List files, written.
ghost use Rattle.std.specs.Prelude.{◌≡◌};
ghost use Rattle.run_entries.specs.Prelude.{[], map, All, OnOk, IfErr, IfSome, is_some, true, option_to_list, IsStrictlySortedBy, path_cmp, RoseBy};
ghost use Rattle.run_entries.specs.Prelude.{nothing_lent, SameBut, is_shaped, paths, side_of};
ghost use Rattle.run_entries.specs.Saving.{SavedAt, Saved, output_of, SameButOutputs};
ghost use Rattle.run_entries.specs.Stopping.{StopsAt, StopsSaving};

use flat_list::FlatList;
use outside::{Ground, SaveError, save};
use path_text::Path;
use run_report::{Stop, Trouble};
use std::alloc::Global;

/// A list, and the file to which it is written.
#[derive(Drop)]
pub struct Output {
    /// The file.
    pub path: Path,
    /// The list.
    pub list: FlatList,
}

/// Writes the list to a file, if one is asked for.
pub fn save_list<G: Ground>(
    alloc: Global,
    files: &mut G,
    output: Option<Path>,
    list: &FlatList,
) -> Result<(), Stop>
    requires lent { G.area files.old ≡ nothing_lent }
    requires ascend { IsStrictlySortedBy path_cmp (paths list.now) }
    requires shaped { All (λ e. is_shaped e ≡ true) list.now }
    ensures saved { OnOk result (Saved (output_of output list.now) (G.tree files.old) (G.tree files.new)) }
    ensures rest { SameButOutputs (option_to_list output) (G.tree files.old) (G.tree files.new) }
    ensures stopped { IfErr result (StopsSaving (output_of output list.now) (side_of G.Plot files.old) (side_of G.Plot files.new)) }
    ensures lent { G.area files.new ≡ nothing_lent }
    ensures count { RoseBy 0 (G.count files.old) (G.count files.new) }
{
    // The count of faults is a number of 64 bits.
    let _faults = files.faults();
    let Some(path) = output else {
        return Ok(());
    };
    save_at(alloc, files, &path, list)
}

/// Writes each list to its file, one after the other, so a later one replaces an earlier one of the same file. It ends at
/// the first list that it could not write.
pub fn save_lists<G: Ground>(alloc: Global, files: &mut G, outputs: &[Output]) -> Result<(), Stop>
    requires lent { G.area files.old ≡ nothing_lent }
    requires ascend { All (λ o. IsStrictlySortedBy path_cmp (paths o.list)) outputs.now }
    requires shaped { All (λ o. All (λ e. is_shaped e ≡ true) o.list) outputs.now }
    ensures saved { OnOk result (Saved outputs.now (G.tree files.old) (G.tree files.new)) }
    ensures rest { SameButOutputs (map (λ o. o.path) outputs.now) (G.tree files.old) (G.tree files.new) }
    ensures stopped { IfErr result (StopsSaving outputs.now (side_of G.Plot files.old) (side_of G.Plot files.new)) }
    ensures lent { G.area files.new ≡ nothing_lent }
    ensures count { RoseBy 0 (G.count files.old) (G.count files.new) }
{
    // The count of faults is a number of 64 bits.
    let _faults = files.faults();
    for output in outputs {
        save_at(alloc, files, &output.path, &output.list)?;
    }
    Ok(())
}

// Writes one list to its file.
fn save_at<G: Ground>(
    alloc: Global,
    files: &mut G,
    path: &Path,
    list: &FlatList,
) -> Result<(), Stop>
    requires lent { G.area files.old ≡ nothing_lent }
    requires ascend { IsStrictlySortedBy path_cmp (paths list.now) }
    requires shaped { All (λ e. is_shaped e ≡ true) list.now }
    ensures saved { OnOk result (SavedAt (record { path = path.now; list = list.now }) (G.tree files.old) (G.tree files.new)) }
    ensures tells { is_some (G.tree files.new) ≡ is_some (G.tree files.old) }
    ensures rest { IfSome (G.tree files.old) (λ old. IfSome (G.tree files.new) (SameBut path.now old)) }
    ensures stopped { IfErr result (StopsAt (record { path = path.now; list = list.now }) (side_of G.Plot files.old) (side_of G.Plot files.new)) }
    ensures lent { G.area files.new ≡ nothing_lent }
    ensures count { RoseBy 0 (G.count files.old) (G.count files.new) }
{
    // The count of faults is a number of 64 bits.
    let _faults = files.faults();
    let bytes = list.encode()?;
    match save(alloc, files, path, &bytes) {
        Ok(()) => Ok(()),
        Err(SaveError::NoPlace) => Err(Stop::ListFile(Trouble::NoPlace, path.copy()?)),
        Err(SaveError::Failed) => Err(Stop::ListFile(Trouble::Fault, path.copy()?)),
        Err(SaveError::OutOfMemory) => Err(Stop::OutOfMemory),
    }
}
