//! A rank reads the token and the halt, or the stops and its own mailbox. Each method is one look of [`Post`](crate::Post), by
//! the steps of `src/board_steps.rt`.
ghost use Rattle.std.specs.Prelude.{◌≡◌};
ghost use Rattle.post_board.specs.BoardWork.{Mine, Hears, Finds};
ghost use Rattle.post_board.specs.declared.board_views.OwnMailbox.TheVariants.{Open};

use crate::answers::Ring;
use crate::board_steps::has_bit;
use crate::board_views::View;
use crate::boards::Board;
use crate::ring_words::read_ring;
use atomic_table::Seat;
use rank_queue::Batch;

/// The answer that a rank with an open request finds.
#[derive(Clone, Copy, Debug, Drop, PartialEq, Eq)]
pub enum Reply {
    /// No answer yet.
    Waiting,
    /// A batch, in the slot.
    Full,
    /// A refusal.
    Refused,
    /// No answer from a rank that has stopped: the asker took the request back.
    Withdrawn,
}

impl Board {
    /// Looks where the token is and, unless all is over, whether all are to halt.
    pub(crate) fn hear(&self, seat: &mut Seat<Option<Batch>, View>, me: u32) -> Ring
        requires mine { Mine self.now seat.old.table_id seat.old.me me }
        ensures table { seat.new.table_id ≡ seat.old.table_id }
        ensures hears { Hears self.now.n me seat.old.me result seat.new.me }
    {
        let token = self.ring_step(seat, me);
        let heard = read_ring(token, me);
        if heard == Ring::Over {
            return Ring::Over;
        }
        let halt = self.hear_step(seat, me);
        if halt == 1 { Ring::Halted } else { heard }
    }

    /// Looks which ranks have stopped, and then for the answer of the rank `victim`. If that one has stopped and not answered, the
    /// request is taken back.
    pub(crate) fn find(&self, seat: &mut Seat<Option<Batch>, View>, me: u32, victim: u32) -> Reply
        requires mine { Mine self.now seat.old.table_id seat.old.me me }
        requires open { seat.old.me.0.own.own ≡ Open victim }
        ensures table { seat.new.table_id ≡ seat.old.table_id }
        ensures finds { Finds self.now.n me victim seat.old.me result seat.new.me }
    {
        let asks = 8 * (victim as u64) + 1;
        let stops = self.stops_step(seat, me);
        if has_bit(stops, victim) {
            let found = self.withdraw_step(seat, me, victim);
            if found == asks {
                Reply::Withdrawn
            } else if found == asks + 2 {
                Reply::Full
            } else {
                Reply::Refused
            }
        } else {
            let found = self.look_step(seat, me);
            if found == asks + 2 {
                Reply::Full
            } else if found == asks + 4 {
                Reply::Refused
            } else {
                Reply::Waiting
            }
        }
    }
}
