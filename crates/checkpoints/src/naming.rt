//! The path of the list file, and the stop of an error at the files of the ranks.
ghost use Rattle.std.specs.Prelude.{◌≡◌, ◌<◌, ◌≤◌};
ghost use Rattle.checkpoints.specs.Prelude.{IfOk, IfSome, IfNone, length};
ghost use Rattle.checkpoints.specs.Kept.{list_path};
ghost use Rattle.checkpoints.specs.Stopping.{stop_of_lists};

use circle_lists::ListsError;
use path_text::{JoinError, OutOfMemory, Path};
use run_report::{Stop, Trouble};

/// The path of the list file in the directory, unless it would be too long.
#[tactic(auto, using(crate::proofs::Paths::name_fine))]
pub(crate) fn list_in(dir: &Path) -> Result<Option<Path>, OutOfMemory>
    ensures some { IfOk result (λ found. IfSome found (λ path. (path ≡ list_path dir.now) × (length (list_path dir.now) ≤ 4095))) }
    ensures none { IfOk result (λ found. IfNone found (4095 < length (list_path dir.now))) }
{
    match dir.join("circle.list") {
        Ok(path) => Ok(Some(path)),
        Err(JoinError::TooLong) => Ok(None),
        Err(JoinError::OutOfMemory) => Err(OutOfMemory),
    }
}

/// The stop of an error at the files of the ranks.
pub(crate) fn stop_of_lists(error: ListsError) -> Stop
    ensures { result ≡ stop_of_lists error }
{
    match error {
        ListsError::Failed(path) => Stop::ListFile(Trouble::Fault, path),
        ListsError::OutOfMemory => Stop::OutOfMemory,
        ListsError::Damaged(path, line) => Stop::Damaged(path, line),
        ListsError::NoFile(path) => Stop::ListFile(Trouble::Absent, path),
        ListsError::NoPlace(path) => Stop::ListFile(Trouble::NoPlace, path),
    }
}
