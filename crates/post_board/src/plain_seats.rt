//! The seats of a plain board.
ghost use Rattle.std.specs.Prelude.{◌≡◌, IfOk, None};
ghost use Rattle.post_board.specs.Fresh.{fresh};
ghost use Rattle.post_board.specs.Plain.{shown_by};

use path_text::OutOfMemory;
use ring_core::Colour;
use std::alloc::Global;

/// A rank's seat at a [`PlainBoard`](crate::PlainBoard): the rank's knowledge about itself, its mailbox and the token.
#[derive(Drop)]
pub struct PlainSeat {
    pub(crate) number: u32,
    pub(crate) n: u32,
    pub(crate) busy: bool,
    pub(crate) colour: Colour,
    pub(crate) tried: bool,
    pub(crate) asked: Option<u32>,
    pub(crate) serves: Vec<bool>,
    pub(crate) here: Option<Colour>,
    pub(crate) ended: bool,
    pub(crate) halted: bool,
    pub(crate) knows_halt: bool,
    pub(crate) stopped: bool,
}

impl PlainSeat {
    /// The seat of a rank that has done nothing yet, one of `n`.
    pub(crate) fn fresh(alloc: Global, n: u32, number: u32) -> Result<PlainSeat, OutOfMemory>
        ensures { IfOk result (λ seat. shown_by seat ≡ fresh n number None) }
    {
        let mut serves = Vec::new(alloc);
        serves.resize(n as usize, false)?;
        Ok(PlainSeat {
            number,
            n,
            busy: true,
            colour: Colour::White,
            tried: false,
            asked: None,
            serves,
            here: None,
            ended: false,
            halted: false,
            knows_halt: false,
            stopped: false,
        })
    }
}
