//! Files in memory that tell no tree, whole or a part.
ghost use Rattle.std.specs.Prelude.{◌≡◌, ℕ, Option, IsTrue, IfOk, IfSome, IsErrOf};
ghost use Rattle.std.specs.FinMap as map;
ghost use Rattle.std.specs.Option.{option_map};
ghost use Rattle.outside.specs.Count.{RoseBy};
ghost use Rattle.outside.specs.Tree.{Node, stat_of};
ghost use Rattle.outside.specs.Writes.{HasPlace};

use crate::tricks::Tricks;
use outside::{Kind, LinkText, Plot, Stat, WriteError};
use path_text::{OutOfMemory, Path};
use std::alloc::Global;
use std::marker::Model;

/// Files in memory that can be looked at, whole or a part.
pub trait Looks: Plot {
    /// The kind, size and time of the node at the path, whatever is planned.
    fn look(&mut self, alloc: Global, path: &Path) -> Result<Option<Stat>, OutOfMemory>
        ensures told { IfOk result (λ answer. IfSome (Self.tree self.old) (λ files. answer ≡ option_map stat_of (map.get files path.now))) }
        ensures same { self.new ≡ self.old };
}

/// Files in memory that tell no tree. They are seen as their count of faults and where they may be written. They pass every call
/// on to the files inside, and answer as these do. The readers of a ground may lie, swell files and meet.
#[derive(Drop)]
pub struct Untold<P: Looks> {
    pub(crate) inside: P,
    pub(crate) tricks: Tricks,
    pub(crate) count: u64,
}

impl<P: Looks> Model for Untold<P> {
    ghost use Rattle.files_mem.specs.Blinded.{Blinded, blinded_code};

    ghost Value = { Blinded };

    ghost coded = { blinded_code };

    ghost view = { λ files. record { count = files.count; area = P.area files.inside } };
}

// Counts the answer if it is a fault.
fn counted(count: &mut u64, told: Result<(), WriteError>) -> Result<(), WriteError>
    ensures same { result ≡ told }
    ensures count { RoseBy 0 count.old count.new }
    ensures cause { IsErrOf told WriteError.Failed → RoseBy 1 count.old count.new }
{
    if told == Err(WriteError::Failed) {
        *count = count.saturating_add(1);
    }
    told
}

// Whether the answer is a file, and the place is in it or at its end.
fn has_place(told: Option<Stat>, at: u64) -> bool
    ensures { (node : Option Node) → told ≡ option_map stat_of node → IsTrue result → HasPlace at node }
{
    match told {
        Some(stat) => stat.kind != Kind::File || at <= stat.size,
        None => true,
    }
}

impl<P: Looks> Plot for Untold<P> {
    ghost use Rattle.std.specs.Prelude.{None};

    ghost tree = { λ _. None };

    ghost count = { λ files. files.count };

    ghost area = { λ files. files.area };

    fn faults(&self) -> u64 {
        self.count
    }

    fn make_dir(&mut self, alloc: Global, path: &Path) -> Result<(), WriteError> {
        let told = self.inside.make_dir(alloc, path);
        counted(&mut self.count, told)
    }

    fn make_file(&mut self, alloc: Global, path: &Path) -> Result<(), WriteError> {
        let told = self.inside.make_file(alloc, path);
        counted(&mut self.count, told)
    }

    fn make_link(&mut self, alloc: Global, path: &Path, text: &LinkText) -> Result<(), WriteError> {
        let told = self.inside.make_link(alloc, path, text);
        counted(&mut self.count, told)
    }

    /// A place past the end of the file is a fault.
    fn write_at(
        &mut self,
        alloc: Global,
        path: &Path,
        at: u64,
        bytes: &[u8],
    ) -> Result<(), WriteError> {
        let told = if has_place(self.inside.look(alloc, path)?, at) {
            self.inside.write_at(alloc, path, at, bytes)
        } else {
            Err(WriteError::Failed)
        };
        counted(&mut self.count, told)
    }

    fn remove_file(&mut self, alloc: Global, path: &Path) -> Result<(), WriteError> {
        let told = self.inside.remove_file(alloc, path);
        counted(&mut self.count, told)
    }

    fn remove_dir(&mut self, alloc: Global, path: &Path) -> Result<(), WriteError> {
        let told = self.inside.remove_dir(alloc, path);
        counted(&mut self.count, told)
    }
}
