//! The act that removes.
ghost use Rattle.std.specs.Prelude.{◌≡◌, ◌≢◌, ◌⊎◌, false, IsTrue, IfOk, IfErr, IfSome, Some, Err, IsErrOf, is_some};
ghost use Rattle.std.specs.FinMap as map;
ghost use Rattle.flat_list.specs.Prelude.{RoseBy, is_open, may_empty, is_of};
ghost use Rattle.outside.specs.Writes.{Answers};
ghost use Rattle.tree_remove.specs.PrivateDeeds.{removal_refusal, told_fate};
ghost use Rattle.tree_remove.specs.Removing.{fate_told, removal_of};

use flat_list::Entry;
use level_work::{Act, Fate};
use outside::{Kind, Plot, WriteError};
use path_text::{OutOfMemory, Path};
use std::alloc::Global;

/// Removes the node of an entry.
#[derive(Debug, Drop)]
pub(crate) struct Remove;

impl<P: Plot> Act<P> for Remove {
    ghost use Rattle.tree_remove.specs.PrivateDeeds.{Removal};
    ghost use Rattle.tree_remove.specs.Removing.{ShowsFate};

    ghost Plain = { Unit {0} };

    ghost plain = { λ _. tt };

    ghost count = { λ _. 0 };

    ghost deed = { λ _. Removal };

    ghost Who = { Unit {0} };

    ghost who = { λ _. tt };

    ghost may_come = { λ _. ShowsFate P.gives };

    fn faults(&self) -> u64 {
        0
    }

    fn act(
        &mut self,
        alloc: Global,
        part: &mut P,
        path: &Path,
        entry: &Entry,
    ) -> Result<Fate, OutOfMemory> {
        match removed(alloc, part, path, entry) {
            Ok(()) => Ok(Fate::Done),
            Err(refused) => fate_of(refused),
        }
    }
}

// Whether the entry is of a directory.
fn is_told_dir(entry: &Entry) -> bool
    ensures { result ≡ is_of Kind.Dir entry.now.stat }
{
    match &entry.stat {
        Some(stat) => stat.kind == Kind::Dir,
        None => false,
    }
}

// Removes the node of the entry.
fn removed<P: Plot>(
    alloc: Global,
    part: &mut P,
    path: &Path,
    entry: &Entry,
) -> Result<(), WriteError>
    requires { IsTrue (is_open (P.area part.old) path.now) }
    ensures told { IfSome (P.tree part.old) (λ files. Answers path.now (removal_refusal entry.now files path.now) files
        (map.remove files path.now) result (P.tree part.new)) }
    ensures tells { is_some (P.tree part.new) ≡ is_some (P.tree part.old) }
    ensures area { P.area part.new ≡ P.area part.old }
    ensures count { RoseBy 0 (P.count part.old) (P.count part.new) }
    ensures cause { IsErrOf result WriteError.Failed → RoseBy 1 (P.count part.old) (P.count part.new) }
    ensures named { IfErr result (λ e. IsTrue (may_empty e)) }
    ensures given { P.gives part.old path.now (removal_of entry.now) result part.new }
{
    if is_told_dir(entry) {
        part.remove_dir(alloc, path)
    } else {
        part.remove_file(alloc, path)
    }
}

// The fate that a refusal means.
fn fate_of(refused: WriteError) -> Result<Fate, OutOfMemory>
    ensures told { IfOk result (λ f. (f ≡ told_fate refused) × (refused ≢ WriteError.OutOfMemory)) }
    ensures means { IfOk result (λ f. fate_told (Err refused) ≡ Some f) }
{
    match refused {
        WriteError::OutOfMemory => Err(OutOfMemory),
        WriteError::Failed => Ok(Fate::Failed),
        WriteError::NotEmpty => Ok(Fate::NotEmpty),
        WriteError::Absent => Ok(Fate::Changed),
        WriteError::WrongKind => Ok(Fate::Changed),
        WriteError::Exists => Ok(Fate::Changed),
        WriteError::NoParent => Ok(Fate::Changed),
    }
}
