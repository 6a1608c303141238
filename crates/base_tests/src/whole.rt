//! Files of which no part is lent, and which the tests write and read.
ghost use Rattle.std.specs.Prelude.{◌≡◌};
ghost use Rattle.outside.specs.Tree.{is_root};
ghost use Rattle.outside.specs.Writes.{nothing_lent};

use crate::shared::parsed;
use circle_lists::{ListsError, read_lists, write_lists};
use files_mem::{Blind, Call, MemGround, MemReader, PutError};
use outside::{
    Failed, Ground, Kind, LinkError, LinkText, ListError, Listing, LoadError, Plot, SaveError,
    Stat, Tree, WriteError, load, save,
};
use path_text::{OutOfMemory, Path};
use std::alloc::Global;
use std::marker::Model;
use std::process::Abort;
use test_tree::TestGround;

const TIME: Option<u64> = Some(86400);

/// Files of which no part is lent, so that they may be written at each path but `/`. Contracts say nothing of their contents.
#[derive(Drop)]
pub struct Whole<G: Plot> {
    files: G,
}

impl<G: Plot> Model for Whole<G> {
    ghost use Rattle.std.specs.Prelude.{◌≡◌, ⊤};
    ghost use Rattle.outside.specs.Writes.{nothing_lent};

    ghost Value = { ⊤ };

    ghost view = { λ _. tt };

    ghost invariant = { λ whole. G.area whole.files ≡ nothing_lent };
}

impl Whole<MemGround> {
    /// Nothing but `/`.
    pub fn empty(rt: &(impl Abort + AllocGlobal)) -> Whole<MemGround> {
        let files = MemGround::empty(rt.alloc()).expect(rt, "room");
        Whole { files }
    }

    /// Puts a node whose last change was a day after 1970 began: a directory, a file with these bytes, or a link with this text. The
    /// path of so many children of the directory is too long. A text that no link can have is refused as out of memory.
    pub fn put(
        &mut self,
        alloc: Global,
        kind: Kind,
        path: &Path,
        far: u64,
        text: &str,
    ) -> Result<(), PutError> {
        match kind {
            Kind::Dir => self.files.put_dir(path, far, TIME),
            Kind::File => self.files.put_file(path, text.as_bytes(), TIME),
            Kind::Link => match LinkText::parse(alloc, text) {
                Ok(text) => self.files.put_link(path, &text, TIME),
                Err(_) => Err(PutError::OutOfMemory),
            },
            Kind::Other => self.files.put_other(path, TIME),
        }
    }

    /// Plans that a call fails at a path.
    pub fn plan(&mut self, call: Call, path: &Path) -> Result<(), OutOfMemory> {
        self.files.plan(call, path)
    }
}

impl Whole<MemGround> {
    /// These files, which may be written at each path but `/`.
    pub fn of(files: MemGround) -> Whole<MemGround>
        requires { files.area ≡ nothing_lent }
    {
        Whole { files }
    }

    /// The files inside.
    pub fn into_files(self) -> MemGround
        ensures { result.area ≡ nothing_lent }
    {
        self.files
    }

    /// The same files, but they tell no tree.
    pub fn blind(self) -> Whole<Blind> {
        let files = Blind::make(self.files);
        Whole { files }
    }
}

impl Whole<Blind> {
    /// Lies about a path from now on.
    pub fn lie(&mut self, path: &Path) -> Result<(), OutOfMemory> {
        self.files.lie(path)
    }

    /// Swells a file from now on.
    pub fn swell(&mut self, path: &Path) -> Result<(), OutOfMemory> {
        self.files.swell(path)
    }

    /// Lets looks at two paths wait for each other from now on.
    pub fn meet(&mut self, one: &Path, other: &Path) -> Result<(), OutOfMemory> {
        self.files.meet(one, other)
    }
}

impl Whole<TestGround> {
    /// The made-up tree of so many nodes, which are one at least.
    pub fn of_nodes(rt: &(impl Abort + AllocGlobal), nodes: u64) -> Whole<TestGround> {
        let nodes = nodes.clamp(1, 1_000_000);
        let files = TestGround::make(rt.alloc(), nodes).expect(rt, "room");
        Whole { files }
    }
}

impl<G: Ground> Whole<G> {
    /// A call that writes; `Write` writes these bytes from the front on. `/` and a call that does not write are refused as `Failed`.
    pub fn write(
        &mut self,
        alloc: Global,
        call: Call,
        path: &Path,
        bytes: &[u8],
    ) -> Result<(), WriteError> {
        if is_root(path) {
            return Err(WriteError::Failed);
        }
        match call {
            Call::MakeDir => self.files.make_dir(alloc, path),
            Call::MakeFile => self.files.make_file(alloc, path),
            Call::Write => self.files.write_at(alloc, path, 0, bytes),
            Call::RemoveFile => self.files.remove_file(alloc, path),
            Call::RemoveDir => self.files.remove_dir(alloc, path),
            _ => Err(WriteError::Failed),
        }
    }

    /// Makes a link. `/` is refused as `Failed`.
    pub fn make_link(
        &mut self,
        alloc: Global,
        path: &Path,
        text: &LinkText,
    ) -> Result<(), WriteError> {
        if is_root(path) {
            return Err(WriteError::Failed);
        }
        self.files.make_link(alloc, path, text)
    }

    /// Saves a whole file.
    pub fn save(&mut self, alloc: Global, path: &Path, bytes: &[u8]) -> Result<(), SaveError> {
        save(alloc, &mut self.files, path, bytes)
    }

    /// The bytes of a whole file.
    pub fn load(&mut self, alloc: Global, path: &Path) -> Result<Vec<u8>, LoadError> {
        let Ok(mut reader) = self.files.reader(alloc) else {
            return Err(LoadError::OutOfMemory);
        };
        load(alloc, &mut reader, path)
    }

    /// Writes the lists of a checkpoint, of 1 to 64 ranks; another number of them is refused as out of memory.
    pub fn write_lists(
        &mut self,
        alloc: Global,
        dir: &Path,
        left: &[Vec<Path>],
    ) -> Result<(), ListsError> {
        if left.is_empty() || left.len() > 64 {
            return Err(ListsError::OutOfMemory);
        }
        write_lists(alloc, &mut self.files, dir, left)
    }

    /// The lists of a checkpoint.
    pub fn read_lists(&mut self, alloc: Global, dir: &Path) -> Result<Vec<Vec<Path>>, ListsError> {
        let Ok(mut reader) = self.files.reader(alloc) else {
            return Err(ListsError::OutOfMemory);
        };
        read_lists(alloc, &mut reader, dir)
    }

    /// A reader of the files as they are now.
    pub fn reader(&mut self, rt: &(impl Abort + AllocGlobal)) -> G::Reader {
        self.files.reader(rt.alloc()).expect(rt, "room")
    }

    /// Takes a reader back.
    pub fn take_reader(&mut self, reader: G::Reader) {
        self.files.take_reader(reader);
    }

    /// How often they have failed.
    pub fn faults(&self) -> u64 {
        self.files.faults()
    }
}

/// The text of the link in an answer.
pub fn linked<R: Tree>(
    rt: &(impl Abort + AllocGlobal),
    reader: &mut R,
    text: &str,
) -> Result<LinkText, LinkError> {
    reader.read_link(rt.alloc(), &parsed(rt, text))
}

/// Whether it is `/`.
pub fn is_root(path: &Path) -> bool
    ensures { result ≡ is_root path.now }
{
    path.text() == "/"
}

/// The answer of `stat` for a path.
pub fn told<R: Tree>(
    rt: &(impl Abort + AllocGlobal),
    reader: &mut R,
    text: &str,
) -> Result<Option<Stat>, Failed> {
    reader.stat(&parsed(rt, text))
}

/// The names listed, with a blank after each, and how many more are not a text or have a path that is too long.
pub fn listed<R: Tree>(
    rt: &(impl Abort + AllocGlobal),
    reader: &mut R,
    text: &str,
) -> Result<(String, u64, u64), ListError> {
    let listing = reader.list(rt.alloc(), &parsed(rt, text))?;
    let names = joined(rt, &listing);
    Ok((names, listing.unnamed(), listing.far()))
}

fn joined(rt: &(impl Abort + AllocGlobal), listing: &Listing) -> String {
    let mut names = String::new(rt.alloc());
    for k in 0..listing.len() {
        names.push_str(listing.name(k)).expect(rt, "room");
        names.push(' ').expect(rt, "room");
    }
    names
}

/// Whether just these names are listed, with a blank after each, and so many more.
pub fn lists<R: Tree>(
    rt: &(impl Abort + AllocGlobal),
    reader: &mut R,
    text: &str,
    want: (&str, u64, u64),
) -> bool {
    match listed(rt, reader, text) {
        Ok((names, unnamed, far)) => (names.as_str(), unnamed, far) == want,
        Err(_) => false,
    }
}

/// Whether the file there has just these bytes; for `None`, whether no file is there.
pub fn holds<G: Ground>(
    rt: &(impl Abort + AllocGlobal),
    files: &mut Whole<G>,
    at: &str,
    want: Option<&[u8]>,
) -> bool {
    match files.load(rt.alloc(), &parsed(rt, at)) {
        Ok(bytes) => want == Some(bytes.as_slice()),
        Err(error) => want.is_none() && error == LoadError::NoFile,
    }
}
