//! A reader of the made-up tree.
ghost use Rattle.std.specs.Prelude.{◌≡◌, ◌≢◌, ◌≤◌, ◌↔◌, length, Some, None, true, false, Err, OnErr, IfOk, IfSome, IsErrOf, IsOk};
ghost use Rattle.std.specs.Option.{option_map};
ghost use Rattle.std.specs.FinMap as map;
ghost use Rattle.outside.specs.Count.{RoseBy};
ghost use Rattle.outside.specs.Tree.{Lists, AreNames, IsTree, Reads, is_dir, is_file, link_at, stat_of};
ghost use Rattle.files_mem.specs.Steady.{IsSteady};

use files_mem::MemReader;
use outside::{Failed, Kind, LinkError, LinkText, ListError, Listing, ReadError, Stat, Tree};
use path_text::Path;
use std::alloc::Global;
use std::marker::Model;

/// A reader of the files as they were when the ground made it, which never fails. A contract sees it as the nodes by their
/// paths.
#[derive(Drop)]
pub struct TestReader {
    reader: MemReader,
}

impl Model for TestReader {
    ghost use Rattle.outside.specs.Tree.{Files};
    ghost use Rattle.outside.specs.Codes.{files_code};
    ghost use Rattle.files_mem.specs.Steady.{IsSteady};

    ghost Value = { Files };

    ghost coded = { files_code };

    ghost view = { λ r. r.reader.files };

    ghost invariant = { λ r. IsSteady r.reader };
}

impl TestReader {
    pub(crate) fn make(reader: MemReader) -> TestReader
        requires { IsSteady reader }
        ensures { result ≡ reader.files }
    {
        TestReader { reader }
    }
}

impl Tree for TestReader {
    ghost use Rattle.std.specs.Prelude.{Some};

    ghost tree = { λ r. Some r };

    ghost count = { λ _. 0 };

    fn faults(&self) -> u64 {
        0
    }

    /// The call never fails.
    fn stat(&mut self, path: &Path) -> Result<Option<Stat>, Failed>
        ensures valid { IsTree self.old }
        ensures works { IsOk result }
        ensures told { IfOk result (λ answer. answer ≡ option_map stat_of (map.get self.old path.now)) }
        ensures same { self.new ≡ self.old }
        ensures size { IfOk result (λ answer. IfSome answer (λ stat. stat.kind ≢ Kind.File → stat.size ≡ 0)) }
    {
        self.reader.stat(path)
    }

    /// Gives the names, or is out of memory.
    fn list(&mut self, alloc: Global, path: &Path) -> Result<Listing, ListError>
        ensures valid { IsTree self.old }
        ensures works { result ≢ Err ListError.Failed }
        ensures not_dir { IsErrOf result ListError.NotDir ↔ (is_dir (map.get self.old path.now) ≡ false) }
        ensures told { IfOk result (λ listing. Lists self.old path.now listing) }
        ensures unnamed { IfOk result (λ listing. listing.1 ≡ 0) }
        ensures names { IfOk result (λ listing. AreNames path.now listing.0) }
        ensures same { self.new ≡ self.old }
    {
        self.reader.list(alloc, path)
    }

    /// The call never fails.
    fn read(&mut self, path: &Path, at: u64, into: &mut [u8]) -> Result<usize, ReadError>
        ensures valid { IsTree self.old }
        ensures works { result ≢ Err ReadError.Failed }
        ensures not_file { IsErrOf result ReadError.NotFile ↔ (is_file (map.get self.old path.now) ≡ false) }
        ensures most { IfOk result (λ n. n ≤ length into.new) }
        ensures told { IfOk result (λ n. Reads self.old path.now at into.new n) }
        ensures size { length into.new ≡ length into.old }
        ensures kept { OnErr result (into.new ≡ into.old) }
        ensures same { self.new ≡ self.old }
    {
        self.reader.read(path, at, into)
    }

    /// Gives the text, or is out of memory.
    fn read_link(&mut self, alloc: Global, path: &Path) -> Result<LinkText, LinkError>
        ensures valid { IsTree self.old }
        ensures works { result ≢ Err LinkError.Failed }
        ensures not_link { IsErrOf result LinkError.NotLink ↔ (link_at (map.get self.old path.now) ≡ None) }
        ensures told { IfOk result (λ text. link_at (map.get self.old path.now) ≡ Some text) }
        ensures same { self.new ≡ self.old }
    {
        self.reader.read_link(alloc, path)
    }
}
