//! Files of which no part is lent.
ghost use Rattle.std.specs.Prelude.{◌≡◌, IfOk};
ghost use Rattle.files_mem.specs.Memory.{empty_files};

use files_mem::{Blind, Call, MemGround, PutError};
use mfu_top::{Status, run};
use outside::{Ground, LinkText, LoadError, MemSink, Plot, Wide, load};
use path_text::{OutOfMemory, Path};
use std::alloc::Global;
use std::marker::Model;
use std::sync::Wait;
use std::thread::Threads;

/// Files of which no part is lent, so that a run can go over them. They are seen as the files.
#[derive(Drop)]
pub struct Whole<G: Wide> {
    files: G,
}

impl<G: Wide> Model for Whole<G> {
    ghost use Rattle.std.specs.Prelude.{◌≡◌};
    ghost use Rattle.outside.specs.Writes.{nothing_lent};

    ghost Value = { G };

    ghost view = { λ whole. whole.files };

    ghost invariant = { λ whole. G.area whole.files ≡ nothing_lent };
}

/// Such files in memory.
pub type WholeFiles = Whole<MemGround>;

/// Such files in memory that tell no tree.
pub type WholeBlind = Whole<Blind>;

impl Whole<MemGround> {
    /// Nothing but `/`.
    pub fn empty(alloc: Global) -> Result<WholeFiles, OutOfMemory>
        ensures { IfOk result (λ whole. whole.files ≡ empty_files) }
    {
        let files = MemGround::empty(alloc)?;
        Ok(Whole { files })
    }

    /// Puts a directory. The path of `far` of its children would be too long.
    pub fn put_dir(&mut self, path: &Path, far: u64, mtime: Option<u64>) -> Result<(), PutError> {
        match self.files.put_dir(path, far, mtime) {
            Ok(()) => Ok(()),
            Err(e) => Err(e),
        }
    }

    /// Puts a file with these bytes.
    pub fn put_file(
        &mut self,
        path: &Path,
        bytes: &[u8],
        mtime: Option<u64>,
    ) -> Result<(), PutError> {
        match self.files.put_file(path, bytes, mtime) {
            Ok(()) => Ok(()),
            Err(e) => Err(e),
        }
    }

    /// Puts a link with this text.
    pub fn put_link(
        &mut self,
        path: &Path,
        text: &LinkText,
        mtime: Option<u64>,
    ) -> Result<(), PutError> {
        match self.files.put_link(path, text, mtime) {
            Ok(()) => Ok(()),
            Err(e) => Err(e),
        }
    }

    /// Puts an entry of another kind.
    pub fn put_other(&mut self, path: &Path, mtime: Option<u64>) -> Result<(), PutError> {
        match self.files.put_other(path, mtime) {
            Ok(()) => Ok(()),
            Err(e) => Err(e),
        }
    }

    /// Plans that a call fails at a path.
    pub fn plan(&mut self, call: Call, path: &Path) -> Result<(), OutOfMemory> {
        match self.files.plan(call, path) {
            Ok(()) => Ok(()),
            Err(e) => Err(e),
        }
    }

    /// The bytes of the file at a path.
    pub fn load(&mut self, alloc: Global, path: &Path) -> Result<Vec<u8>, LoadError> {
        let Ok(mut reader) = self.files.reader(alloc) else {
            return Err(LoadError::OutOfMemory);
        };
        load(alloc, &mut reader, path)
    }
}

impl Whole<Blind> {
    /// These files, with their faults and the calls that are planned to fail.
    pub fn make(files: WholeFiles) -> WholeBlind
        ensures { result.count ≡ files.count }
    {
        let files = Blind::make(files.files);
        Whole { files }
    }

    /// Later looks at the path answer a directory of size 0 without a time.
    pub fn lie(&mut self, path: &Path) -> Result<(), OutOfMemory>
        ensures { self.new ≡ self.old }
    {
        self.files.lie(path)
    }

    /// Later looks at a file at the path answer one byte more than it has.
    pub fn swell(&mut self, path: &Path) -> Result<(), OutOfMemory>
        ensures { self.new ≡ self.old }
    {
        self.files.swell(path)
    }

    /// Later looks at one of the two paths wait for one at the other, and fail if none comes.
    pub fn meet(&mut self, one: &Path, other: &Path) -> Result<(), OutOfMemory>
        ensures { self.new ≡ self.old }
    {
        self.files.meet(one, other)
    }
}

impl<G: Wide + Send> Whole<G>
where
    G::Reader: Send,
    G::Part: Send,
    G::Span: Send,
{
    /// How often they have failed.
    pub fn faults(&self) -> u64
        ensures { result ≡ G.count self.now }
    {
        self.files.faults()
    }

    /// A run over them with these words, at this time in seconds since 1970.
    pub fn run<T: Threads + Wait + Sync>(
        &mut self,
        rt: &T,
        alloc: Global,
        words: &[String],
        out: &mut MemSink,
        notes: &mut MemSink,
        now: u64,
    ) -> Status {
        run(rt, alloc, words, &mut self.files, out, notes, now)
    }
}
