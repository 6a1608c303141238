//! Readers that fill spans.
ghost use Rattle.std.specs.Prelude.{◌≡◌, ◌≢◌, ◌⊎◌, ◌<◌, ◌≤◌, length, None, IfOk};
ghost use Rattle.outside.specs.Count.{RoseBy};
ghost use Rattle.range_copy.specs.PrivateReading.{IsFreshBy};

use crate::filled::Filled;
use crate::loads::Load;
use outside::{ReadError, Tree};
use path_text::{OutOfMemory, Path};
use std::alloc::Global;

// How many bytes of a file are read at once.
const PIECE: usize = 65536;

// A reader with the span that it fills, and the outcome of its work so far.
#[derive(Drop)]
pub(crate) struct Filler<T, S> {
    pub(crate) reader: T,
    pub(crate) buffer: Vec<u8>,
    pub(crate) load: Option<Load<S>>,
    pub(crate) filled: Filled,

    ghost room: { 0 < length buffer.items },
}

impl<T: Tree + Drop, S: Drop> Filler<T, S> {
    // A filler without a span, with a buffer of its own. It reads from the source at once. For on a disk the target may be the same
    // file by another name, whose bytes then stay with the reader that has it open.
    pub(crate) fn make(alloc: Global, reader: T, source: &Path) -> Result<Filler<T, S>, OutOfMemory>
        ensures same { IfOk result (λ one. T.tree one.reader ≡ T.tree reader) }
        ensures idle { IfOk result (λ one. one.load ≡ None) }
        ensures fresh { IfOk result (λ one. (one.filled ≡ Filled.Done) ⊎ (1 ≤ T.count one.reader)) }
        ensures shown { IfOk result (λ one. IsFreshBy T.gives source.now one.filled) }
    {
        let mut reader = reader;
        let mut buffer = vec![in alloc; 0u8; PIECE]?;
        let filled = peek(&mut reader, &mut buffer, source);
        Ok(Filler {
            reader,
            buffer,
            load: None,
            filled,
        })
    }

    // Its reader.
    pub(crate) fn into_reader(self) -> T
        ensures { result ≡ self.reader }
    {
        let Filler { reader, .. } = self;
        reader
    }
}

// Reads the first byte of the source.
fn peek<T: Tree>(reader: &mut T, buffer: &mut [u8], source: &Path) -> Filled
    requires { 0 < length buffer.old }
    ensures same { T.tree reader.new ≡ T.tree reader.old }
    ensures len { length buffer.new ≡ length buffer.old }
    ensures cause { result ≢ Filled.Done → RoseBy 1 (T.count reader.old) (T.count reader.new) }
    ensures shown { IsFreshBy T.gives source.now result }
{
    match reader.read(source, 0, &mut buffer[..1]) {
        Err(ReadError::Failed) => Filled::Failed,
        Err(ReadError::NotFile) => Filled::Done,
        Ok(_) => Filled::Done,
    }
}
