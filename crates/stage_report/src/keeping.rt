//! The checkpoint that a stage leaves.
ghost use Rattle.std.specs.Prelude.{◌≡◌, ◌≤◌};
ghost use Rattle.stage_report.specs.Prelude.{[], All, length, map, IfOk, IfErr, OnOk, IfSome, is_some, true, IsStrictlySortedBy, path_cmp, RoseBy};
ghost use Rattle.stage_report.specs.Prelude.{nothing_lent, is_shaped, paths, side_of, IsKept, checkpoint_paths, StopsWriting, SameButAll};
ghost use Rattle.stage_report.specs.Stages.{all_of};

use checkpoints::write_checkpoint;
use flat_list::FlatList;
use outside::Ground;
use path_text::{OutOfMemory, Path};
use run_report::Stop;
use std::alloc::Global;

/// Writes the checkpoint, and gives the reason why the stage stops.
pub(crate) fn keep<G: Ground>(
    alloc: Global,
    files: &mut G,
    lists: &Path,
    handled: u64,
    done: &FlatList,
    left: &[Vec<Path>],
) -> Result<Stop, Stop>
    requires some { 1 ≤ length left.now }
    requires few { length left.now ≤ 64 }
    requires lent { G.area files.old ≡ nothing_lent }
    requires ascend { IsStrictlySortedBy path_cmp (paths done.now) }
    requires shaped { All (λ e. is_shaped e ≡ true) done.now }
    ensures named { IfOk result (λ why. why ≡ Stop.Stopped handled (length (all_of (map (λ list. list.items) left.now)))) }
    ensures kept { OnOk result (IfSome (G.tree files.new) (IsKept lists.now done.now (map (λ list. list.items) left.now))) }
    ensures stopped { IfErr result (StopsWriting lists.now (length left.now) done.now (side_of G.Plot files.old)
        (side_of G.Plot files.new)) }
    ensures tells { is_some (G.tree files.new) ≡ is_some (G.tree files.old) }
    ensures rest { IfSome (G.tree files.old) (λ old. IfSome (G.tree files.new) (SameButAll (checkpoint_paths lists.now (length left.now)) old)) }
    ensures lent { G.area files.new ≡ nothing_lent }
    ensures count { RoseBy 0 (G.count files.old) (G.count files.new) }
{
    let left_strings = strings_in(left)?;
    write_checkpoint(alloc, files, lists, done, left)?;
    Ok(Stop::Stopped {
        handled,
        left: left_strings,
    })
}

// How many strings all ranks have left. For more than a number can tell there is no memory.
fn strings_in(left: &[Vec<Path>]) -> Result<u64, OutOfMemory>
    ensures { IfOk result (λ n. n ≡ length (all_of (map (λ list. list.items) left.now))) }
{
    let mut number = 0u64;
    for list in left {
        let Some(sum) = number.checked_add(list.len() as u64) else {
            return Err(OutOfMemory);
        };
        number = sum;
    }
    Ok(number)
}
