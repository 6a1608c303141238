//! Gathering the seats.
ghost use Rattle.std.specs.Prelude.{◌≡◌, ◌<◌, [], true};
ghost use Rattle.sum_tree.specs.TreeRule.{both, spent};
ghost use Rattle.sum_tree.specs.TreeSteps.{LastLookTells, Totals};
ghost use Rattle.sum_tree.specs.TreeSeats.{first_answer};

use crate::sum_trees::{SumSeat, SumTree};
use crate::tree_views::View;
use atomic_table::{Join, Play, Seat};

/// A seat takes another one in.
pub struct Gather;

impl Join<View> for Gather {
    ghost both = { both };

    ghost spent = { spent };
}

/// The last look, of a seat that took all others in.
pub struct LastLook;

impl Play<(), View> for LastLook {
    ghost then = { LastLookTells };
}

impl SumSeat {
    /// The parts that a gathering needs: the seat of its words and, once rank 0 has come, the answer of that rank.
    pub(crate) fn apart(self, known: u64) -> (Seat<(), View>, u64)
        ensures { (result.0 ≡ self.seat) × (result.1 ≡ first_answer self.number self.answer known) }
    {
        let SumSeat {
            seat,
            answer,
            number,
            n: _,
            width: _,
            count: _,
        } = self;
        let total = if number == 0 {
            answer.unwrap_or(0)
        } else {
            known
        };
        (seat, total)
    }
}

impl SumTree {
    /// Takes another seat in.
    pub(crate) fn join_step(&self, seat: &mut Seat<(), View>, other: Seat<(), View>)
        requires mine { (seat.old.table_id ≡ self.now.table.shared.table_id) × (seat.old.me.0.live ≡ true) }
        requires theirs { (other.table_id ≡ self.now.table.shared.table_id) × (other.me.0.live ≡ true) × (other.me.1 ≡ []) }
        requires some { 0 < self.now.n }
        ensures table { seat.new.table_id ≡ seat.old.table_id }
        ensures both { seat.new.me ≡ (both seat.old.me.0 other.me.0, seat.old.me.1) }
    {
        self.table.shared.join_seat::<Gather>(seat, other);
    }

    /// If all seats were taken in and are final, the sum of rank 0 is the sum of their counts.
    pub(crate) fn sum_step(&self, seat: &mut Seat<(), View>)
        requires fits { seat.old.table_id ≡ self.now.table.shared.table_id }
        requires some { 0 < self.now.n }
        requires live { seat.old.me.0.live ≡ true }
        ensures table { seat.new.table_id ≡ seat.old.table_id }
        ensures totals { Totals seat.old.me.0 }
    {
        self.table.shared.load::<LastLook>(seat, 0);
    }
}
