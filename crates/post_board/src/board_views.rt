//! The knowledge of a rank's seat. No value of these types is made: they are the views of the seats of a table, which only proofs see.
ghost use Rattle.std.specs.Prelude.{List, ℕ};

use crate::answers::Reading;
use rank_queue::Batch;
use ring_core::Colour;
use std::collections::LinkedList;

/// The knowledge of a seat about its own mailbox.
pub enum OwnMailbox {
    /// No request is open.
    Resting,
    /// It asks this rank, and knows of no answer.
    Open(u64),
    /// The same, and the rank that was asked has stopped.
    Left(u64),
    /// This rank gave a batch, which lies in the slot.
    Filled(u64),
    /// This rank refused.
    Emptied(u64),
    /// The batch of this rank is being taken out of the slot.
    Getting(u64),
}

/// The knowledge of a rank's seat about itself and the board.
pub struct Known {
    pub number: u64,
    pub n: u64,
    pub busy: bool,
    pub colour: Colour,
    pub tried: bool,
    /// Its own mailbox.
    pub own: OwnMailbox,
    /// For each rank, whether it took up a request of it that it has not answered.
    pub serves: LinkedList<bool>,
    /// The token's colour, if it knows that the token is here.
    pub here: Option<Colour>,
    pub ended: bool,
    /// It told all to halt; it knows that one did; it has stopped.
    pub halted: bool,
    pub knows_halt: bool,
    pub stopped: bool,
    /// The batches that it gave to each rank and took from each rank, in order.
    pub given: LinkedList<LinkedList<Batch>>,
    pub taken: LinkedList<LinkedList<Batch>>,
    /// Its steps on the words.
    pub readings: LinkedList<Reading>,
}

/// The view of a seat of the table.
pub struct View {
    /// Seats made so far, told by the first one alone.
    pub made: u64,
    pub own: Known,
    /// The knowledge of the seats that this one took in.
    pub kept: LinkedList<Known>,
    /// False once another seat has taken this one in.
    pub live: bool,
}
