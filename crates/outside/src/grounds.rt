//! Files that can be written, and of which readers can be made.
ghost use Rattle.std.specs.Prelude.{◌≡◌, ◌≤◌, IsTrue, IfOk, IfSome, OnOk, OnErr, is_some};
ghost use Rattle.std.specs.Option.{option_map};
ghost use Rattle.outside.specs.Count.{capped};
ghost use Rattle.outside.specs.Writes.{under};
ghost use Rattle.outside.specs.Lease.{CanLease, HaveParents, Joins, leased, kept, area_without, area_with, is_out, tops_of};

use crate::plots::Plot;
use crate::trees::Tree;
use path_text::{OutOfMemory, Path};
use std::alloc::Global;

/// Files that can be written, also by lending parts of them, and of which readers can be made. While a part is out, it alone
/// has the nodes at and under its tops. Until it is back, the ground may not be written at, under or over those tops.
pub trait Ground: Plot {
    /// An object that reads the files.
    type Reader: Tree + Drop;

    /// A part of the files, lent out to be written.
    type Part: Plot + Drop;

    /// Makes a reader of the files as they are now.
    fn reader(&mut self, alloc: Global) -> Result<Self::Reader, OutOfMemory>
        ensures told { IfOk result (λ reader. Self.Reader.tree reader ≡ Self.tree self.old) }
        ensures zero { IfOk result (λ reader. Self.Reader.count reader ≡ 0) }
        ensures same { Self.tree self.new ≡ Self.tree self.old }
        ensures area { Self.area self.new ≡ Self.area self.old }
        ensures count { Self.count self.new ≡ Self.count self.old }
        ensures refused { OnErr result (self.new ≡ self.old) };

    /// Takes a reader back, and adds its count. The count never falls, for any two counts.
    fn take_reader(&mut self, reader: Self::Reader)
        ensures same { Self.tree self.new ≡ Self.tree self.old }
        ensures area { Self.area self.new ≡ Self.area self.old }
        ensures count { Self.count self.new ≡ capped (Self.count self.old) (Self.Reader.count reader) }
        ensures rises { Self.count self.old ≤ Self.count self.new };

    /// Lends the nodes at and under the tops. The list of tops may be empty, and then lends nothing.
    fn lease(&mut self, alloc: Global, tops: &[Path]) -> Result<Self::Part, OutOfMemory>
        requires tops { CanLease (Self.area self.old) tops.now }
        requires parents { IfSome (Self.tree self.old) (HaveParents tops.now) }
        ensures part { IfOk result (λ part. Self.Part.tree part ≡ option_map (leased tops.now) (Self.tree self.old)) }
        ensures zero { IfOk result (λ part. Self.Part.count part ≡ 0) }
        ensures tops { IfOk result (λ part. Self.Part.area part ≡ under tops.now) }
        ensures rest { OnOk result (Self.tree self.new ≡ option_map (kept tops.now) (Self.tree self.old)) }
        ensures area { OnOk result (Self.area self.new ≡ area_without tops.now (Self.area self.old)) }
        ensures refused { OnErr result (Self.tree self.new ≡ Self.tree self.old) }
        ensures refused_area { OnErr result (Self.area self.new ≡ Self.area self.old) }
        ensures count { Self.count self.new ≡ Self.count self.old };

    /// Takes a part back, adds its count and ends that lease. It takes no memory. The part may come from other files, if its
    /// tops are those of a part that is out. The nodes at and under the tops are then those of the part.
    fn give_back(&mut self, part: Self::Part)
        requires out { IsTrue (is_out (Self.Part.area part) (Self.area self.old)) }
        requires tells { is_some (Self.Part.tree part) ≡ is_some (Self.tree self.old) }
        ensures tree { IfSome (Self.tree self.old) (λ rest. IfSome (Self.Part.tree part) (λ own. IfSome (Self.tree self.new) (Joins (tops_of (Self.Part.area part)) own rest))) }
        ensures tells { is_some (Self.tree self.new) ≡ is_some (Self.tree self.old) }
        ensures area { Self.area self.new ≡ area_with (tops_of (Self.Part.area part)) (Self.area self.old) }
        ensures count { Self.count self.new ≡ capped (Self.count self.old) (Self.Part.count part) }
        ensures rises { Self.count self.old ≤ Self.count self.new };
}
