//! The targets of entries that were not copied.
ghost use Rattle.std.specs.Prelude.{◌≡◌, ◌∷◌, ◌++◌, ℕ, List, [], None, true, All, IfOk, IfSome, OnOk};
ghost use Rattle.std.specs.List.{list_any};
ghost use Rattle.flat_list.specs.Prelude.{refusal, is_within, grafted, below_of};
ghost use Rattle.level_work.specs.declared.items.Fate.{Fate};
ghost use Rattle.range_copy.specs.PrivateLarge.{AreFailed, fitting, fitting_target};

use crate::cutting::RangeError;
use level_work::{Fate, Paths};
use path_text::{JoinError, Path};
use std::alloc::Global;
use tree_copy::{CopyReport, Pair};

// The targets of the entries that did not come to `Done`, but for those that are too long.
pub(crate) fn failed_targets(
    alloc: Global,
    report: &CopyReport,
    pairs: &[Pair],
) -> Result<Paths, RangeError>
    requires { All (λ row. list_any (λ pair. is_within row.0 pair.source) pairs.now ≡ true) report.now.0 }
    ensures { IfOk result (λ failed. AreFailed pairs.now report.now.0 failed.set.keys) }
{
    let mut failed = Paths::none(alloc);
    for k in 0..report.len() {
        note(&mut failed, report.path(k), report.fate(k), pairs)?;
    }
    Ok(failed)
}

// Notes the target of a path, if its entry did not come to `Done`.
fn note(failed: &mut Paths, path: &Path, fate: Fate, pairs: &[Pair]) -> Result<(), RangeError>
    requires { list_any (λ pair. is_within path.now pair.source) pairs.now ≡ true }
    ensures { (rows : List (List ℕ × Fate)) → AreFailed pairs.now rows failed.old.set.keys →
        OnOk result (AreFailed pairs.now (rows ++ (path.now, fate) ∷ []) failed.new.set.keys) }
{
    if fate.is_done() {
        return Ok(());
    }
    let Some(target) = target_of(path, pairs)? else {
        return Ok(());
    };
    failed.add(&target)?;
    Ok(())
}

// The target of a path within a source, if it is not too long.
pub(crate) fn target_of(path: &Path, pairs: &[Pair]) -> Result<Option<Path>, RangeError>
    requires { list_any (λ pair. is_within path.now pair.source) pairs.now ≡ true }
    ensures told { IfOk result (λ target. target ≡ fitting_target pairs.now path.now) }
    ensures path { IfOk result (λ target. IfSome target (λ p. refusal p ≡ None)) }
{
    for pair in pairs {
        if path.is_within(&pair.source) {
            return moved(path, pair);
        }
    }
    unreachable!()
}

// The target of a path by the pair, unless that is too long.
fn moved(path: &Path, pair: &Pair) -> Result<Option<Path>, RangeError>
    requires { is_within path.now pair.now.source ≡ true }
    ensures told { IfOk result (λ target. target ≡ fitting (grafted pair.now.target (below_of path.now pair.now.source))) }
    ensures path { IfOk result (λ target. IfSome target (λ p. refusal p ≡ None)) }
{
    let below = path.below(&pair.source)?;
    match Path::graft(&pair.target, &below) {
        Ok(target) => {
            let _ = target.text(); // shows that it is a path
            Ok(Some(target))
        }
        Err(JoinError::TooLong) => Ok(None),
        Err(JoinError::OutOfMemory) => Err(RangeError::OutOfMemory),
    }
}
