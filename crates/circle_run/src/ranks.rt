//! A rank.
ghost use Rattle.std.specs.Prelude.{◌≡◌};

use crate::books::Book;
use crate::settings::Options;
use rand_pcg::Pcg32;
use rank_queue::{Batch, RankQueue};
use ring_core::Colour;
use std::alloc::Global;
use std::marker::Model;

/// The result of a turn.
#[derive(Clone, Copy, Debug, Drop, PartialEq, Eq)]
pub enum Turn {
    /// The rank did something.
    Went,
    /// The rank waits: for the answer to its request, or for the final sums of the ranks below it in the tree of sums.
    Waited,
    /// The rank stopped at the board, since all are to halt. Its final sum is still to come.
    Stopped,
    /// The rank has nothing left to do, and its final sum is known.
    Ended,
}

/// The parts of a rank. Contracts see a [`Rank`] as this.
#[derive(Drop)]
pub struct RankState<J, S, T> {
    /// Its job.
    pub job: J,
    /// Its seat at the board.
    pub seat: S,
    /// Its seat at the sums.
    pub sums_seat: T,
    /// The strings that wait at it.
    pub queue: RankQueue,
    /// The generator of the words that it draws.
    pub draws: Pcg32,
    /// Its number.
    pub me: u32,
    /// The options of the run.
    pub options: Options,
    /// Its colour in the ring.
    pub colour: Colour,
    /// Whether its last request was refused.
    pub tried: bool,
    /// The rank that it asked, if it has not taken the answer yet.
    pub asked: Option<u32>,
    /// Whether it has seen the end.
    pub ended: bool,
    /// Whether it has stopped, since all are to halt.
    pub stopped: bool,
    /// Its book: events, counts and numbers of progress.
    pub book: Book,
    /// The job puts the strings that it pushes here. It is empty except while a string is handled.
    pub fresh: Batch,
    /// The allocator of its memory.
    pub alloc: Global,
}

/// A rank: its job, its queue, its seat at a board and its seat at sums. A contract sees it as its [`RankState`].
#[derive(Drop)]
pub struct Rank<J, S, T> {
    pub(crate) state: RankState<J, S, T>,
}

impl<J, S, T> Model for Rank<J, S, T> {
    ghost use Rattle.circle_run.specs.declared.ranks.RankState.{RankState};

    ghost Value = { RankState J S T };

    ghost view = { λ r. r.state };
}

impl<J: Drop, S: Drop, T: Drop> Rank<J, S, T> {
    /// Its job, its seats, its queue and its book.
    pub(crate) fn take_apart(self) -> (J, S, T, RankQueue, Book)
        ensures job { result.0 ≡ self.job }
        ensures seat { result.1 ≡ self.seat }
        ensures sums_seat { result.2 ≡ self.sums_seat }
        ensures queue { result.3 ≡ self.queue }
        ensures book { result.4 ≡ self.book }
    {
        let RankState {
            job,
            seat,
            sums_seat,
            queue,
            book,
            ..
        } = self.state;
        (job, seat, sums_seat, queue, book)
    }
}
