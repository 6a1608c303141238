//! The work that readers share.
ghost use Rattle.std.specs.Prelude.{◌≡◌, ◌<◌, ℕ, Option, IfOk, IfSome};
ghost use Rattle.outside.specs.Count.{RoseBy};
ghost use Rattle.shared_reads.specs.Desks.{HasRoom};
ghost use Rattle.shared_reads.specs.Kept.{faults_of};

use crate::desks::Desk;
use outside::Tree;
use path_text::OutOfMemory;

/// What reading for a place gives: an outcome, or `None` if there is nothing to read.
pub type Reading<O> = Result<Option<O>, OutOfMemory>;

/// Work at some places, for each of which any reader can read.
pub trait Job<R: Tree, O> {
    ghost use Rattle.outside.specs.Tree.{Files};

    /// How many places there are.
    ghost places: { Self → ℕ };

    /// The outcomes that a place may have, by a reader that may tell a tree.
    ghost told: { Self → Option Files → ℕ → O → Type 0 };

    /// How many failed reads an outcome reports.
    ghost faults: { O → ℕ };

    /// How many places there are.
    fn len(&self) -> usize
        ensures { result ≡ places self.now };

    /// Reads for a place. It gives `None` if there is nothing to read.
    fn read(&self, place: usize, reader: &mut R, desk: &mut Desk) -> Reading<O>
        requires inside { place < places self.now }
        requires room { HasRoom desk.old }
        ensures told { IfOk result (λ found. IfSome found (told self.now (R.tree reader.old) place)) }
        ensures same { R.tree reader.new ≡ R.tree reader.old }
        ensures cause { IfOk result (λ found. RoseBy (faults_of faults found) (R.count reader.old) (R.count reader.new)) }
        ensures count { RoseBy 0 (R.count reader.old) (R.count reader.new) }
        ensures room { HasRoom desk.new };
}
