//! The made-up tree.
ghost use Rattle.std.specs.Prelude.{◌≡◌, ◌≤◌, IsTrue, IfOk, OnOk, OnErr};
ghost use Rattle.outside.specs.Tree.{IsTree};
ghost use Rattle.outside.specs.Laid.{laid};
ghost use Rattle.outside.specs.Lease.{CanLease, HaveParents, Joins, leased, kept, area_without, area_with, is_out, tops_of};
ghost use Rattle.outside.specs.Writes.{nothing_lent, under};
ghost use Rattle.test_tree.specs.Nodes.{test_files};

use crate::making::made;
use crate::readers::TestReader;
use crate::steady::Steady;
use files_mem::{MemGround, MemPart};
use outside::Ground;
use path_text::{OutOfMemory, Path};
use std::alloc::Global;

/// The made-up tree, as files that never fail.
pub type TestGround = Steady<MemGround>;

/// A part of the made-up tree, which never fails.
pub type TestPart = Steady<MemPart>;

impl Steady<MemGround> {
    /// Makes the tree of this number of nodes.
    pub fn make(alloc: Global, nodes: u64) -> Result<TestGround, OutOfMemory>
        requires { (1 ≤ nodes) × (nodes ≤ 1000000) }
        ensures files { IfOk result (λ made. made.0 ≡ test_files nodes) }
        ensures area { IfOk result (λ made. made.1 ≡ nothing_lent) }
    {
        let nodes = made(alloc, nodes)?;
        Ok(Steady { nodes })
    }
}

impl Ground for Steady<MemGround> {
    type Reader = TestReader;

    type Part = TestPart;

    /// Shares the nodes with the reader. A later call that changes them copies them first.
    fn reader(&mut self, alloc: Global) -> Result<TestReader, OutOfMemory>
        ensures valid { IsTree self.old.0 }
        ensures made { IfOk result (λ reader. reader ≡ self.old.0) }
        ensures same { self.new ≡ self.old }
    {
        let reader = self.nodes.reader(alloc)?;
        Ok(TestReader::make(reader))
    }

    /// No fault needs counting.
    fn take_reader(&mut self, _reader: TestReader)
        ensures { self.new ≡ self.old }
    {}

    /// Gives the part, or is out of memory.
    fn lease(&mut self, alloc: Global, tops: &[Path]) -> Result<TestPart, OutOfMemory>
        requires tops { CanLease self.old.1 tops.now }
        requires parents { HaveParents tops.now self.old.0 }
        ensures part { IfOk result (λ part. part ≡ (leased tops.now self.old.0, under tops.now)) }
        ensures rest { OnOk result (self.new ≡ (kept tops.now self.old.0, area_without tops.now self.old.1)) }
        ensures refused { OnErr result (self.new ≡ self.old) }
    {
        let nodes = self.nodes.lease(alloc, tops)?;
        Ok(Steady { nodes })
    }

    fn give_back(&mut self, part: TestPart)
        requires { IsTrue (is_out part.1 self.old.1) }
        ensures joins { Joins (tops_of part.1) part.0 self.old.0 self.new.0 }
        ensures back { self.new ≡ (laid (tops_of part.1) part.0 self.old.0, area_with (tops_of part.1) self.old.1) }
    {
        self.nodes.give_back(part.nodes);
    }
}
