//! The ranks as a plain board keeps them.
ghost use Rattle.std.specs.Prelude.{◌≡◌};
ghost use Rattle.post_board.specs.Plain.{fresh_rank};

use rank_queue::Batch;
use ring_core::Colour;

/// A rank's mailbox on a plain board.
#[derive(Drop)]
pub enum PlainMailbox {
    /// No request is open.
    Rest,
    /// It asks this rank.
    Wants(u32),
    /// This rank has taken the request up.
    Served(u32),
    /// This rank has given these strings.
    Holds(u32, Batch),
    /// This rank had nothing.
    Refused(u32),
}

/// A rank as a plain board keeps it.
#[derive(Drop)]
pub struct PlainRank {
    pub busy: bool,
    pub colour: Colour,
    pub tried: bool,
    pub ended: bool,
    pub mailbox: PlainMailbox,
}

impl PlainRank {
    /// A rank that has done nothing yet.
    pub(crate) fn fresh() -> PlainRank
        ensures { result ≡ fresh_rank }
    {
        PlainRank {
            busy: true,
            colour: Colour::White,
            tried: false,
            ended: false,
            mailbox: PlainMailbox::Rest,
        }
    }
}
