//! Taking a batch out of the own slot, and moving the slot of a served rank to the front.
ghost use Rattle.std.specs.Prelude.{◌≡◌, ◌+◌, ◌<◌, ◌∷◌, ◌++◌, ℕ, map, length, slice_index_or, true, false, Some, None, take, drop};
ghost use Rattle.std.specs.List.{Contains};
ghost use Rattle.post_board.specs.Words.{sign, full, fetching};
ghost use Rattle.post_board.specs.BoardRule.{serves};
ghost use Rattle.post_board.specs.BoardSteps.{knows, after_fetch, after_rest};
ghost use Rattle.post_board.specs.BoardSeats.{IsSeat};
ghost use Rattle.post_board.specs.BoardWork.{Mine, Fronted};
ghost use Rattle.post_board.specs.declared.board_views.OwnMailbox.TheVariants.{Filled};

use crate::board_views::View;
use crate::boards::{Board, BoardSeat};
use atomic_table::Seat;
use rank_queue::Batch;
use std::collections::VecDeque;

impl Board {
    /// Takes the batch that the rank `from` gave, and rests.
    pub(crate) fn fetch(&self, seat: &mut Seat<Option<Batch>, View>, me: u32, from: u32) -> Batch
        requires mine { Mine self.now seat.old.table_id seat.old.me me }
        requires full { seat.old.me.0.own.own ≡ Filled from }
        ensures table { seat.new.table_id ≡ seat.old.table_id }
        ensures after { (found last : ℕ) × (sign found ≡ full from) × (sign last ≡ fetching from)
            × (seat.new.me ≡ (knows seat.old.me.0 (after_rest (after_fetch seat.old.me.0.own from (me + 1) found result) (me + 1) last false), seat.old.me.1)) }
    {
        self.fetch_step(seat, me, from);
        let batch = self.empty_slot(seat, me);
        self.rest_step(seat, me, from);
        batch
    }

    /// Moves the slot of the rank `to`, which is served, to the front, where its step works, and takes it off the list.
    pub(crate) fn front_slot(&self, seat: &mut BoardSeat, to: u32)
        requires seat { IsSeat self.now seat.old }
        requires served { serves seat.old.seat.me.0.own to ≡ true }
        ensures fronted { Fronted seat.old to seat.new }
    {
        let place = place_in(&seat.held, to);
        for step in 0..place {
            seat.seat.turn();
            seat.held.rotate_left(1);
        }
        let _ = seat.held.pop_front();
    }
}

/// The place of a number in a list that has it.
fn place_in(held: &VecDeque<u32>, to: u32) -> usize
    requires has { Contains held.now.items to }
    ensures place { (result < length held.now.items) × (slice_index_or held.now.items result 0 ≡ to) }
{
    for i in 0..held.len() {
        if held[i] == to {
            return i;
        }
    }
    unreachable!()
}
