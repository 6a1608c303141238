//! The paths of the files of a checkpoint.
ghost use Rattle.std.specs.Prelude.{◌≡◌, ◌<◌, IfOk, IfSome, IfNone, length};
ghost use Rattle.std.specs.String.{string_bytes};
ghost use Rattle.circle_lists.specs.Checkpoint.{file_name, file_path, Fits};

use path_text::{JoinError, OutOfMemory, Path};
use std::alloc::{AllocError, Global};

/// The path of a rank's file in the folder; `None` if it would be too long.
#[tactic(auto, using(crate::proofs::Names::name_fine))]
pub fn file_in(alloc: Global, dir: &Path, rank: u64) -> Result<Option<Path>, OutOfMemory>
    requires { rank < 64 }
    ensures some { IfOk result (λ found. IfSome found (λ path. (path ≡ file_path dir.now rank) × Fits dir.now rank)) }
    ensures none { IfOk result (λ found. IfNone found (4095 < length (file_path dir.now rank))) }
{
    let name = file_name(alloc, rank)?;
    match dir.join(&name) {
        Ok(path) => Ok(Some(path)),
        Err(JoinError::TooLong) => Ok(None),
        Err(JoinError::OutOfMemory) => Err(OutOfMemory),
    }
}

fn file_name(alloc: Global, rank: u64) -> Result<String, AllocError>
    ensures { IfOk result (λ name. string_bytes name ≡ file_name rank) }
{
    format!(in alloc; "circle{rank}.txt")
}
