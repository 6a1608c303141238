//! Files in memory that tell no tree.
ghost use Rattle.std.specs.Prelude.{◌≡◌, ◌≤◌, ℕ, Option, Some, None, true, All, IsTrue, IfOk, IsErrOf, OnOk, OnErr, map as list_map};
ghost use Rattle.std.specs.List.{sum_by};
ghost use Rattle.std.specs.Option.{option_map};
ghost use Rattle.std.specs.FinMap as map;
ghost use Rattle.path_text.specs.Path.{parent_of};
ghost use Rattle.outside.specs.Lease.{HaveParents};
ghost use Rattle.outside.specs.Count.{RoseBy, capped};
ghost use Rattle.outside.specs.Spans.{are_cuts, pieces, cuts_in, zeros_of, area_cut, area_whole, IsEmptyFile};
ghost use Rattle.outside.specs.Tree.{Node, is_dir, stat_of};
ghost use Rattle.outside.specs.Writes.{is_open};
ghost use Rattle.files_mem.specs.Spanned.{piece_of, held_by};

use crate::blind_readers::BlindReader;
use crate::grounds::MemGround;
use crate::parts::MemPart;
use crate::spans::{MemSpan, faults_of};
use crate::tricks::Tricks;
use crate::untold::{Looks, Untold};
use outside::{Ground, Kind, Plot, SpanError, Stat, Tree, Wide};
use path_text::{OutOfMemory, Path};
use std::alloc::Global;

/// Files in memory that tell no tree, and whose readers may lie, swell files and meet.
pub type Blind = Untold<MemGround>;

/// A part of such files.
pub type BlindPart = Untold<MemPart>;

impl Untold<MemGround> {
    /// These files. They neither lie, nor swell, nor meet.
    pub fn make(inside: MemGround) -> Blind
        ensures { result ≡ record { count = inside.count; area = inside.area } }
    {
        let count = inside.faults();
        Untold {
            inside,
            tricks: Tricks::none(),
            count,
        }
    }

    /// Later readers answer of the path, by `stat`, a directory of size 0 without a time.
    pub fn lie(&mut self, path: &Path) -> Result<(), OutOfMemory>
        ensures { self.new ≡ self.old }
    {
        self.tricks.lie(self.inside.allocator(), path)
    }

    /// Later readers answer, by `stat`, one byte more for a file at the path than it has. A lie about the path comes before that.
    pub fn swell(&mut self, path: &Path) -> Result<(), OutOfMemory>
        ensures { self.new ≡ self.old }
    {
        self.tricks.swell(self.inside.allocator(), path)
    }

    /// A later reader's `stat` of one of the two paths waits for a `stat` of the other by any reader, also an earlier one.
    /// It looks 10,000,000 times at most, and fails if the other never comes. A later call takes the place of this one.
    pub fn meet(&mut self, one: &Path, other: &Path) -> Result<(), OutOfMemory>
        ensures { self.new ≡ self.old }
    {
        self.tricks.meet(self.inside.allocator(), one, other)
    }

    /// The files inside. They count only the faults that came from there.
    pub fn into_files(self) -> MemGround
        ensures { result.area ≡ self.area }
    {
        self.inside
    }
}

fn is_dir(told: Option<Stat>) -> bool
    ensures { (node : Option Node) → told ≡ option_map stat_of node → IsTrue result → is_dir node ≡ true }
{
    match told {
        Some(stat) => stat.kind == Kind::Dir,
        None => false,
    }
}

fn is_empty_file(told: Option<Stat>) -> bool
    ensures { (node : Option Node) → told ≡ option_map stat_of node → IsTrue result → IsEmptyFile node }
{
    match told {
        Some(stat) => stat.kind == Kind::File && stat.size == 0,
        None => false,
    }
}

// Whether the parent of the path is a directory.
fn has_parent(ground: &mut MemGround, alloc: Global, path: &Path) -> Result<bool, OutOfMemory>
    ensures told { IfOk result (λ has. IsTrue has → is_dir (map.get ground.old.files (parent_of path.now)) ≡ true) }
    ensures same { ground.new ≡ ground.old }
{
    match path.parent()? {
        Some(parent) => Ok(is_dir(ground.look(alloc, &parent)?)),
        None => Ok(false),
    }
}

// Whether the parent of each of the paths is a directory.
fn have_parents(ground: &mut MemGround, alloc: Global, tops: &[Path]) -> Result<bool, OutOfMemory>
    ensures told { IfOk result (λ have. IsTrue have → HaveParents tops.now ground.old.files) }
    ensures same { ground.new ≡ ground.old }
{
    for top in tops {
        if !has_parent(ground, alloc, top)? {
            return Ok(false);
        }
    }
    Ok(true)
}

impl Ground for Untold<MemGround> {
    type Reader = BlindReader;

    type Part = BlindPart;

    fn reader(&mut self, alloc: Global) -> Result<BlindReader, OutOfMemory> {
        let tricks = self.tricks.share()?;
        let reader = self.inside.reader(alloc)?;
        Ok(BlindReader::make(reader, tricks))
    }

    fn take_reader(&mut self, reader: BlindReader) {
        self.count = self.count.saturating_add(reader.faults());
        self.inside.take_reader(reader.into_reader());
    }

    /// If the parent of a top is not a directory, it answers out of memory: the ground inside lends no such part.
    fn lease(&mut self, alloc: Global, tops: &[Path]) -> Result<BlindPart, OutOfMemory> {
        if !have_parents(&mut self.inside, alloc, tops)? {
            return Err(OutOfMemory);
        }
        Ok(Untold {
            inside: self.inside.lease(alloc, tops)?,
            tricks: Tricks::none(),
            count: 0,
        })
    }

    fn give_back(&mut self, part: BlindPart) {
        self.count = self.count.saturating_add(part.faults());
        self.inside.give_back(part.inside);
    }
}

impl Wide for Untold<MemGround> {
    type Span = MemSpan;

    /// The spans tell no bytes. If no empty file is at the path, that is a fault: the ground inside lends no other.
    fn lease_spans(
        &mut self,
        alloc: Global,
        path: &Path,
        cuts: &[u64],
    ) -> Result<Vec<MemSpan>, SpanError>
        requires open { IsTrue (is_open self.old.area path.now) }
        requires cuts { IsTrue (are_cuts cuts.now) }
        ensures pieces { IfOk result (λ spans. list_map piece_of spans.items ≡ pieces path.now cuts.now) }
        ensures holds { IfOk result (λ spans. list_map held_by spans.items ≡ list_map (zeros_of None) (pieces path.now cuts.now)) }
        ensures zero { IfOk result (λ spans. All (λ span. span.count ≡ 0) spans.items) }
        ensures area { OnOk result (self.new.area ≡ area_cut path.now cuts.now self.old.area) }
        ensures refused { OnErr result (self.new.area ≡ self.old.area) }
        ensures count { RoseBy 0 self.old.count self.new.count }
        ensures cause { IsErrOf result SpanError.Failed → RoseBy 1 self.old.count self.new.count }
    {
        if !is_empty_file(self.inside.look(alloc, path)?) {
            self.count = self.count.saturating_add(1);
            return Err(SpanError::Failed);
        }
        match self.inside.cut(alloc, path, cuts, false) {
            Ok(spans) => Ok(spans),
            Err(SpanError::Failed) => {
                self.count = self.count.saturating_add(1);
                Err(SpanError::Failed)
            }
            Err(SpanError::OutOfMemory) => Err(SpanError::OutOfMemory),
        }
    }

    fn give_back_spans(&mut self, path: &Path, spans: Vec<MemSpan>)
        requires { option_map (pieces path.now) (cuts_in path.now self.old.area) ≡ Some (list_map piece_of spans.items) }
        ensures area { self.new.area ≡ area_whole path.now self.old.area }
        ensures count { self.new.count ≡ capped self.old.count (sum_by (λ span. span.count) spans.items) }
        ensures rises { self.old.count ≤ self.new.count }
    {
        self.count = self.count.saturating_add(faults_of(&spans));
        self.inside.rejoin(path, spans);
    }
}
