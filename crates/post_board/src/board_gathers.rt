//! Gathering the seats.
ghost use Rattle.std.specs.Prelude.{◌≡◌, ◌⊎◌, ◌+◌, ◌<◌, [], ◌∷◌, All, true};
ghost use Rattle.post_board.specs.BoardRule.{both, spent};
ghost use Rattle.post_board.specs.BoardSeats.{first_ended};
ghost use Rattle.post_board.specs.BoardSteps.{LastLookTells, Squares, Halters};

use crate::board_views::View;
use crate::boards::{Board, BoardSeat};
use atomic_table::{Join, Play, Seat};
use rank_queue::Batch;

/// A seat takes another one in.
pub struct Gather;

impl Join<View> for Gather {
    ghost both = { both };

    ghost spent = { spent };
}

/// The last look, of a seat that took all others in.
pub struct Settle;

impl Play<Option<Batch>, View> for Settle {
    ghost then = { LastLookTells };
}

impl BoardSeat {
    /// The parts that a gathering needs: the seat of its words and, once rank 0 has come, whether that rank saw the end.
    pub(crate) fn apart(self, over: bool) -> (Seat<Option<Batch>, View>, bool)
        ensures { (result.0 ≡ self.seat) × (result.1 ≡ first_ended self.number self.ended over) }
    {
        let BoardSeat {
            seat,
            ended,
            number,
            n: _,
            colour: _,
            here: _,
            asked: _,
            held: _,
        } = self;
        (seat, if number == 0 { ended } else { over })
    }
}

impl Board {
    /// Takes another seat in.
    pub(crate) fn join_step(
        &self,
        seat: &mut Seat<Option<Batch>, View>,
        other: Seat<Option<Batch>, View>,
    )
        requires mine { (seat.old.table_id ≡ self.now.table.shared.table_id) × (seat.old.me.0.live ≡ true) }
        requires theirs { (other.table_id ≡ self.now.table.shared.table_id) × (other.me.0.live ≡ true) × (other.me.1 ≡ []) }
        ensures table { seat.new.table_id ≡ seat.old.table_id }
        ensures both { seat.new.me ≡ (both seat.old.me.0 other.me.0, seat.old.me.1) }
    {
        self.table.shared.join_seat::<Gather>(seat, other);
    }

    /// The seats that were taken in took from one another exactly the batches that they gave.
    pub(crate) fn settle_step(&self, seat: &mut Seat<Option<Batch>, View>)
        requires fits { seat.old.table_id ≡ self.now.table.shared.table_id }
        requires live { seat.old.me.0.live ≡ true }
        requires done { All (λ x. (x.ended ≡ true) ⊎ (x.stopped ≡ true)) (seat.old.me.0.own ∷ seat.old.me.0.kept) }
        ensures table { seat.new.table_id ≡ seat.old.table_id }
        ensures squares { Squares seat.old.me.0 }
        ensures halters { Halters seat.old.me.0 }
    {
        self.table.shared.load::<Settle>(seat, 1);
    }
}
