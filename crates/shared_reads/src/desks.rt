//! The buffers of a worker.
ghost use Rattle.std.specs.Prelude.{IfOk};
ghost use Rattle.shared_reads.specs.Desks.{HasRoom};

use crate::pieces::PIECE;
use path_text::OutOfMemory;
use std::alloc::Global;

/// Two buffers, each for one piece of a file.
#[derive(Drop)]
pub struct Desk {
    /// The first buffer.
    pub ours: Vec<u8>,
    /// The second buffer.
    pub theirs: Vec<u8>,
}

impl Desk {
    /// Two buffers of [`PIECE`] bytes.
    pub fn make(alloc: Global) -> Result<Desk, OutOfMemory>
        ensures { IfOk result HasRoom }
    {
        Ok(Desk {
            ours: vec![in alloc; 0u8; PIECE]?,
            theirs: vec![in alloc; 0u8; PIECE]?,
        })
    }
}
