//! Files that can be written.
ghost use Rattle.std.specs.Prelude.{◌≡◌, ℕ, Option, IsTrue, IfErr, IfSome, IsErrOf, is_some};
ghost use Rattle.outside.specs.Count.{RoseBy};

use crate::links::LinkText;
use path_text::{NoMemory, Path};
use std::alloc::Global;
use thiserror::Error;

/// Why a call that writes is refused. If several apply, `Exists` comes before `NoParent`, and `Absent` before `WrongKind`
/// before `NotEmpty`.
#[derive(Clone, Copy, Debug, Drop, PartialEq, Eq, Error)]
pub enum WriteError {
    /// The outside failed, and the object has counted the fault.
    #[error("the outside failed")]
    Failed,
    /// A node is at the path.
    #[error("a node is there already")]
    Exists,
    /// The parent of the path is not a directory.
    #[error("the path over it is no directory")]
    NoParent,
    /// The node at the path is of another kind.
    #[error("what is there is of another kind")]
    WrongKind,
    /// The directory has a child.
    #[error("the directory is not empty")]
    NotEmpty,
    /// No node is at the path.
    #[error("nothing is there")]
    Absent,
    /// The call is out of memory.
    #[error("out of memory")]
    OutOfMemory,
}

impl<E: NoMemory> From<E> for WriteError {
    ghost use Rattle.std.specs.Prelude.{◌≡◌};
    ghost use Rattle.outside.specs.declared.plots.WriteError.TheVariants as write;

    ghost from_gives = { λ _ e. e ≡ write.OutOfMemory };

    fn from(_: E) -> Self {
        WriteError::OutOfMemory
    }
}

/// Files that can be written, with each call at one path. A refusal other than `Failed` leaves them as before. `Failed` leaves
/// every path but the path of the call as before.
pub trait Plot {
    ghost use Rattle.outside.specs.Tree.{Files};
    ghost use Rattle.outside.specs.Parts.{IsTreeIn};
    ghost use Rattle.outside.specs.Writes.{Area, is_open, make_refusal, write_refusal, remove_file_refusal, remove_dir_refusal, empty_dir, new_file, new_link, written, HasPlace, Answers, may_make, may_change, may_empty};
    ghost use Rattle.std.specs.FinMap as map;
    ghost use Rattle.outside.specs.Asked.{Write};
    ghost use Rattle.outside.specs.Asked as asked;
    ghost use Rattle.std.specs.Prelude.{[], List, Result};
    ghost use Rattle.outside.specs.declared.plots.WriteError as refused;

    /// The nodes by their paths, if the object tells its tree.
    ghost tree: { Self → Option Files };

    /// The number of faults of the object and of all that it took back.
    ghost count: { Self → ℕ };

    /// The paths at which the object may write.
    ghost area: { Self → Area };

    /// Which answer a write at a path may have, and which state it leaves. Each implementation chooses this relation. Code for
    /// all files knows nothing of it, so it can name an answer only if a call gave it.
    ghost gives: { Self → List ℕ → Write → Result (Unit {0}) refused.WriteError → Self → Type 0 } = { λ _ _ _ _ _. Unit {0} };

    /// The number of faults of the object and of all that it took back. The contract also says that the nodes are a tree, or
    /// those of a part.
    fn faults(&self) -> u64
        ensures counted { result ≡ count self.now }
        ensures valid { IfSome (tree self.now) (IsTreeIn (area self.now)) };

    /// Makes an empty directory without a modification time.
    fn make_dir(&mut self, alloc: Global, path: &Path) -> Result<(), WriteError>
        requires { IsTrue (is_open (area self.old) path.now) }
        ensures told { IfSome (tree self.old) (λ files. Answers path.now (make_refusal (area self.old) files path.now) files (map.insert files path.now empty_dir) result (tree self.new)) }
        ensures named { IfErr result (λ e. IsTrue (may_make e)) }
        ensures tells { is_some (tree self.new) ≡ is_some (tree self.old) }
        ensures area { area self.new ≡ area self.old }
        ensures count { RoseBy 0 (count self.old) (count self.new) }
        ensures cause { IsErrOf result WriteError.Failed → RoseBy 1 (count self.old) (count self.new) }
        ensures given { gives self.old path.now asked.make_dir result self.new };

    /// Makes an empty file without a modification time.
    fn make_file(&mut self, alloc: Global, path: &Path) -> Result<(), WriteError>
        requires { IsTrue (is_open (area self.old) path.now) }
        ensures told { IfSome (tree self.old) (λ files. Answers path.now (make_refusal (area self.old) files path.now) files (map.insert files path.now (new_file [])) result (tree self.new)) }
        ensures named { IfErr result (λ e. IsTrue (may_make e)) }
        ensures tells { is_some (tree self.new) ≡ is_some (tree self.old) }
        ensures area { area self.new ≡ area self.old }
        ensures count { RoseBy 0 (count self.old) (count self.new) }
        ensures cause { IsErrOf result WriteError.Failed → RoseBy 1 (count self.old) (count self.new) }
        ensures given { gives self.old path.now asked.make_file result self.new };

    /// Makes a link with this text, without a modification time.
    fn make_link(&mut self, alloc: Global, path: &Path, text: &LinkText) -> Result<(), WriteError>
        requires { IsTrue (is_open (area self.old) path.now) }
        ensures told { IfSome (tree self.old) (λ files. Answers path.now (make_refusal (area self.old) files path.now) files (map.insert files path.now (new_link text.now)) result (tree self.new)) }
        ensures named { IfErr result (λ e. IsTrue (may_make e)) }
        ensures tells { is_some (tree self.new) ≡ is_some (tree self.old) }
        ensures area { area self.new ≡ area self.old }
        ensures count { RoseBy 0 (count self.old) (count self.new) }
        ensures cause { IsErrOf result WriteError.Failed → RoseBy 1 (count self.old) (count self.new) }
        ensures given { gives self.old path.now (asked.make_link text.now) result self.new };

    /// Writes bytes over those of a file from an offset on, and past its end.
    fn write_at(
        &mut self,
        alloc: Global,
        path: &Path,
        at: u64,
        bytes: &[u8],
    ) -> Result<(), WriteError>
        requires open { IsTrue (is_open (area self.old) path.now) }
        requires place { IfSome (tree self.old) (λ files. HasPlace at (map.get files path.now)) }
        ensures told { IfSome (tree self.old) (λ files. Answers path.now (write_refusal (map.get files path.now)) files (written files path.now at bytes.now) result (tree self.new)) }
        ensures named { IfErr result (λ e. IsTrue (may_change e)) }
        ensures tells { is_some (tree self.new) ≡ is_some (tree self.old) }
        ensures area { area self.new ≡ area self.old }
        ensures count { RoseBy 0 (count self.old) (count self.new) }
        ensures cause { IsErrOf result WriteError.Failed → RoseBy 1 (count self.old) (count self.new) }
        ensures given { gives self.old path.now (asked.write_at at bytes.now) result self.new };

    /// Removes a node that is not a directory.
    fn remove_file(&mut self, alloc: Global, path: &Path) -> Result<(), WriteError>
        requires { IsTrue (is_open (area self.old) path.now) }
        ensures told { IfSome (tree self.old) (λ files. Answers path.now (remove_file_refusal (map.get files path.now)) files (map.remove files path.now) result (tree self.new)) }
        ensures named { IfErr result (λ e. IsTrue (may_change e)) }
        ensures tells { is_some (tree self.new) ≡ is_some (tree self.old) }
        ensures area { area self.new ≡ area self.old }
        ensures count { RoseBy 0 (count self.old) (count self.new) }
        ensures cause { IsErrOf result WriteError.Failed → RoseBy 1 (count self.old) (count self.new) }
        ensures given { gives self.old path.now asked.remove_file result self.new };

    /// Removes an empty directory.
    fn remove_dir(&mut self, alloc: Global, path: &Path) -> Result<(), WriteError>
        requires { IsTrue (is_open (area self.old) path.now) }
        ensures told { IfSome (tree self.old) (λ files. Answers path.now (remove_dir_refusal files path.now) files (map.remove files path.now) result (tree self.new)) }
        ensures named { IfErr result (λ e. IsTrue (may_empty e)) }
        ensures tells { is_some (tree self.new) ≡ is_some (tree self.old) }
        ensures area { area self.new ≡ area self.old }
        ensures count { RoseBy 0 (count self.old) (count self.new) }
        ensures cause { IsErrOf result WriteError.Failed → RoseBy 1 (count self.old) (count self.new) }
        ensures given { gives self.old path.now asked.remove_dir result self.new };
}
