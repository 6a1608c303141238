//! Writes the files of the system.
ghost use Rattle.std.specs.Prelude.{◌≡◌, ◌≤◌, ◌++◌, ◌∷◌, [], All, Some, None, map, IfErr, IfOk, OnOk, OnErr, IsTrue};
ghost use Rattle.std.specs.List.{sum_by};
ghost use Rattle.std.specs.Option.{option_map};
ghost use Rattle.outside.specs.Count.{capped};
ghost use Rattle.outside.specs.Spans.{are_cuts, cuts_at, pieces, without_cut, zeros_of};
ghost use Rattle.real_disk.specs.Spans.{count_of, piece_of, untold};

use crate::disk::RealReader;
use crate::spans::{Cuttings, RealSpan, faults_of, spans_of};
use crate::writers::RealWriter;
use disk_calls::{Disk, Watch};
use outside::{Ground, Lent, LinkText, Plot, SpanError, Tops, Tree, Wide, WriteError};
use path_text::{OutOfMemory, Path};
use std::alloc::Global;
use std::fs::Files;
use std::marker::Model;
use std::os::fd::AsRawFd;
use std::os::unix::fs::FileExt;
use std::random::RandomSource;

/// The files of a system. It is seen as its count of faults, the tops of the lent parts, and the files that are lent in spans. It
/// tells no tree.
#[derive(Drop)]
pub struct RealGround<R: Files> {
    writer: RealWriter<R>,
    lent: Lent,
    cut: Cuttings,
}

/// A part of them, seen as its count of faults and its tops. It tells no tree, and nothing is checked while it is lent.
#[derive(Drop)]
pub struct RealPart<R: Files> {
    writer: RealWriter<R>,
    tops: Tops,
}

impl<R: Files> Model for RealGround<R> {
    ghost use Rattle.real_disk.specs.Spans.{Seen, seen_code};

    ghost Value = { Seen };

    ghost coded = { seen_code };

    ghost view = { λ ground. record { count = ground.writer; lent = ground.lent; cut = ground.cut } };
}

impl<R: Files> Model for RealPart<R> {
    ghost use Rattle.std.specs.Prelude.{List, ℕ};

    ghost Value = { ℕ × List (List ℕ) };

    ghost view = { λ part. (part.writer, part.tops) };
}

impl<R: Files + RandomSource> RealGround<R>
where
    R::File: AsRawFd,
{
    /// The files of a system, with no fault yet and no part lent.
    pub fn make(alloc: Global, system: R) -> RealGround<R>
        ensures { result ≡ record { count = 0; lent = []; cut = [] } }
    {
        let mut key = [0u8; 16];
        // If the system gives no random bytes, the key can be guessed. Then two paths of one hash may be taken for one.
        let _ = system.fill_bytes(&mut key);
        RealGround {
            writer: RealWriter::make(Disk::make(alloc, system, key)),
            lent: Lent::make(alloc),
            cut: Cuttings::make(alloc),
        }
    }

    /// Lets calls change the working directory of the process, if the run is alone. Until the files are dropped, nothing else in the process
    /// may then name files by relative paths or change the working directory, and all readers and parts must be used on one thread.
    pub fn work_alone(&mut self, is_alone: bool)
        ensures { self.new ≡ self.old }
    {
        self.writer.work_alone(is_alone);
    }
}

impl<R: Files + Watch + Copy> Plot for RealGround<R>
where
    R::File: FileExt + AsRawFd,
{
    ghost use Rattle.std.specs.Prelude.{None};
    ghost use Rattle.outside.specs.Writes.{all_but};

    ghost tree = { λ _. None };

    ghost count = { λ plot. plot.count };

    ghost area = { λ plot. all_but plot.lent plot.cut };

    fn faults(&self) -> u64 {
        self.writer.faults()
    }

    fn make_dir(&mut self, _alloc: Global, path: &Path) -> Result<(), WriteError> {
        self.writer.make_dir(path)
    }

    /// A link is not followed.
    fn make_file(&mut self, _alloc: Global, path: &Path) -> Result<(), WriteError> {
        self.writer.make_file(path)
    }

    fn make_link(
        &mut self,
        _alloc: Global,
        path: &Path,
        text: &LinkText,
    ) -> Result<(), WriteError> {
        self.writer.make_link(path, text)
    }

    /// A write of nothing, or of fewer bytes than were given, is a fault.
    fn write_at(
        &mut self,
        _alloc: Global,
        path: &Path,
        at: u64,
        bytes: &[u8],
    ) -> Result<(), WriteError> {
        self.writer.write_at(path, at, bytes)
    }

    fn remove_file(&mut self, _alloc: Global, path: &Path) -> Result<(), WriteError> {
        self.writer.remove_file(path)
    }

    fn remove_dir(&mut self, _alloc: Global, path: &Path) -> Result<(), WriteError> {
        self.writer.remove_dir(path)
    }
}

impl<R: Files + Watch + Copy> Plot for RealPart<R>
where
    R::File: FileExt + AsRawFd,
{
    ghost use Rattle.std.specs.Prelude.{None};
    ghost use Rattle.outside.specs.Writes.{under};

    ghost tree = { λ _. None };

    ghost count = { λ plot. plot.0 };

    ghost area = { λ plot. under plot.1 };

    fn faults(&self) -> u64 {
        self.writer.faults()
    }

    fn make_dir(&mut self, _alloc: Global, path: &Path) -> Result<(), WriteError> {
        self.writer.make_dir(path)
    }

    /// A link is not followed.
    fn make_file(&mut self, _alloc: Global, path: &Path) -> Result<(), WriteError> {
        self.writer.make_file(path)
    }

    fn make_link(
        &mut self,
        _alloc: Global,
        path: &Path,
        text: &LinkText,
    ) -> Result<(), WriteError> {
        self.writer.make_link(path, text)
    }

    /// A write of nothing, or of fewer bytes than were given, is a fault.
    fn write_at(
        &mut self,
        _alloc: Global,
        path: &Path,
        at: u64,
        bytes: &[u8],
    ) -> Result<(), WriteError> {
        self.writer.write_at(path, at, bytes)
    }

    fn remove_file(&mut self, _alloc: Global, path: &Path) -> Result<(), WriteError> {
        self.writer.remove_file(path)
    }

    fn remove_dir(&mut self, _alloc: Global, path: &Path) -> Result<(), WriteError> {
        self.writer.remove_dir(path)
    }
}

impl<R: Files + Watch + Copy> Ground for RealGround<R>
where
    R::File: FileExt + AsRawFd,
{
    type Reader = RealReader<R>;

    type Part = RealPart<R>;

    fn reader(&mut self, alloc: Global) -> Result<RealReader<R>, OutOfMemory> {
        let disk = self.writer.share()?;
        RealReader::make(alloc, disk)
    }

    fn take_reader(&mut self, reader: RealReader<R>) {
        self.writer.add(reader.faults());
        self.writer.take(reader.into_disk());
    }

    fn lease(&mut self, alloc: Global, tops: &[Path]) -> Result<RealPart<R>, OutOfMemory> {
        let disk = self.writer.share()?;
        let tops = self.lent.lend(alloc, tops)?;
        let writer = RealWriter::make(disk);
        Ok(RealPart { writer, tops })
    }

    fn give_back(&mut self, part: RealPart<R>) {
        self.writer.add(part.writer.faults());
        self.lent.end(&part.tops);
        let RealPart { writer, .. } = part;
        self.writer.take(writer.into_disk());
    }
}

impl<R: Files + Watch + Copy> Wide for RealGround<R>
where
    R::File: FileExt + AsRawFd,
{
    type Span = RealSpan<R>;

    /// The file is opened once for all of its spans, unless it is still open since it was made.
    fn lease_spans(
        &mut self,
        alloc: Global,
        path: &Path,
        cuts: &[u64],
    ) -> Result<Vec<RealSpan<R>>, SpanError>
        requires cuts { IsTrue (are_cuts cuts.now) }
        ensures pieces { IfOk result (λ spans. map piece_of spans.items ≡ pieces path.now cuts.now) }
        ensures holds { IfOk result (λ spans. map untold spans.items ≡ map (zeros_of None) (pieces path.now cuts.now)) }
        ensures zero { IfOk result (λ spans. All (λ span. count_of span ≡ 0) spans.items) }
        ensures lent { OnOk result (self.new ≡ record self.old { cut = self.old.cut ++ record { path = path.now; cuts = cuts.now } ∷ [] }) }
        ensures memory { OnErr result (self.new ≡ self.old) }
        ensures refused { IfErr result (λ e. e ≡ SpanError.OutOfMemory) }
    {
        let file = self.writer.lend_file(alloc, path)?;
        let spans = spans_of(alloc, &self.writer.system(), file, path, cuts)?;
        self.cut.lend(alloc, path, cuts)?;
        Ok(spans)
    }

    fn give_back_spans(&mut self, path: &Path, spans: Vec<RealSpan<R>>)
        requires { option_map (pieces path.now) (cuts_at path.now self.old.cut) ≡ Some (map piece_of spans.items) }
        ensures back { self.new ≡ record self.old { count = capped self.old.count (sum_by count_of spans.items); cut = without_cut path.now self.old.cut } }
        ensures rises { self.old.count ≤ self.new.count }
    {
        self.writer.add(faults_of(&spans));
        self.cut.end(path);
    }
}
