//! Files that change.
ghost use Rattle.std.specs.Prelude.{◌≡◌, []};

use crate::closed::{Closed, Place};
use crate::readers::{Calls, ShiftingReader};
use files_mem::MemGround;
use outside::{Ground, Lent, Tops};
use path_text::{OutOfMemory, Path};
use std::alloc::Global;

/// Two sets of files that contradict one another: stats answer by the first, and names and texts of links by the second.
#[derive(Drop)]
pub struct Shifting {
    seen: MemGround,
    found: MemGround,
    lent: Lent,
    calls: Calls,
}

impl Place for Shifting {
    ghost use Rattle.std.specs.Prelude.{[]};
    ghost use Rattle.outside.specs.Writes.{all_but};

    ghost area = { λ files. all_but files.lent [] };
}

impl Closed<Shifting> {
    /// These files, before any call. No part of them is lent.
    pub fn make(alloc: Global, seen: MemGround, found: MemGround) -> Closed<Shifting>
        ensures { result.place.lent ≡ [] }
    {
        let place = Shifting {
            seen,
            found,
            lent: Lent::make(alloc),
            calls: Calls::NONE,
        };
        Closed { place }
    }

    /// The calls of all readers that came back.
    pub fn calls(&self) -> Calls
        ensures { result ≡ self.now.place.calls }
    {
        self.place.calls
    }
}

impl Ground for Closed<Shifting> {
    type Part = Closed<Tops>;

    type Reader = ShiftingReader;

    fn reader(&mut self, alloc: Global) -> Result<ShiftingReader, OutOfMemory> {
        Ok(ShiftingReader {
            seen: self.place.seen.reader(alloc)?,
            found: self.place.found.reader(alloc)?,
            calls: Calls::NONE,
        })
    }

    fn take_reader(&mut self, reader: ShiftingReader) {
        self.place.calls = self.place.calls.and(reader.calls);
    }

    fn lease(&mut self, alloc: Global, tops: &[Path]) -> Result<Closed<Tops>, OutOfMemory> {
        let place = self.place.lent.lend(alloc, tops)?;
        Ok(Closed { place })
    }

    fn give_back(&mut self, part: Closed<Tops>) {
        self.place.lent.end(&part.place);
    }
}
