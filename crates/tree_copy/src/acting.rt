//! The act of a copy at one path.
ghost use Rattle.std.specs.Prelude.{◌≡◌, ◌<◌, length, IfOk};

use crate::filling::file_made;
use crate::linking::link_made;
use crate::making::dir_made;
use flat_list::Entry;
use level_work::{Act, Fate};
use outside::{Kind, Plot, Tree};
use path_text::{OutOfMemory, Path};
use std::alloc::Global;

// How many bytes of a file are read at once.
const PIECE: usize = 65536;

// Copies an entry to a path. It makes a directory, a file with the bytes that its reader reads, or a link with the entry's text.
#[derive(Drop)]
pub(crate) struct Copier<R> {
    pub(crate) reader: R,
    pub(crate) buffer: Vec<u8>,

    ghost room: { 0 < length buffer.items },
}

impl<R: Drop> Copier<R> {
    // A copier with a buffer of its own.
    pub(crate) fn make(alloc: Global, reader: R) -> Result<Copier<R>, OutOfMemory>
        ensures { IfOk result (λ copier. copier.reader ≡ reader) }
    {
        let buffer = vec![in alloc; 0u8; PIECE]?;
        Ok(Copier { reader, buffer })
    }

    // Its reader.
    pub(crate) fn into_reader(self) -> R
        ensures { result ≡ self.reader }
    {
        let Copier { reader, .. } = self;
        reader
    }
}

impl<P: Plot, R: Tree> Act<P> for Copier<R> {
    ghost use Rattle.std.specs.Prelude.{Option, IfSome};
    ghost use Rattle.outside.specs.Tree.{Files};
    ghost use Rattle.tree_copy.specs.PrivateActs.{MayCopy};
    ghost use Rattle.tree_copy.specs.PrivateDeeds.{CopyOne};

    ghost Plain = { Option Files };

    ghost plain = { λ a. R.tree a.reader };

    ghost count = { λ a. R.count a.reader };

    ghost deed = { λ t path entry f before after. IfSome t (λ seen. CopyOne seen path entry f before after) };

    ghost Who = { Unit {0} };

    ghost who = { λ _. tt };

    ghost may_come = { λ _. MayCopy R.gives P.gives };

    fn faults(&self) -> u64 {
        self.reader.faults()
    }

    fn act(
        &mut self,
        alloc: Global,
        part: &mut P,
        path: &Path,
        entry: &Entry,
    ) -> Result<Fate, OutOfMemory> {
        let Some(stat) = &entry.stat else {
            return Ok(Fate::Skipped);
        };
        match stat.kind {
            Kind::Dir => dir_made(alloc, &mut self.reader, part, path),
            Kind::File => file_made(alloc, &mut self.reader, &mut self.buffer, part, path, entry),
            Kind::Link => link_made(alloc, &mut self.reader, part, path, entry),
            Kind::Other => Ok(Fate::Skipped),
        }
    }
}
