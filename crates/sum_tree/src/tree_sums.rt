//! The calls of ranks on sums that threads share.
ghost use Rattle.std.specs.Prelude.{◌≡◌, ◌<◌, Option, Some, None, length};
ghost use Rattle.std.specs.List.{Contains, sum_by};
ghost use Rattle.sum_tree.specs.Shown.{AllFinished};
ghost use Rattle.sum_tree.specs.Told.{SumTold};
ghost use Rattle.sum_tree.specs.TreeSeats.{shown_by, IsSeat};

use crate::sum_trees::{SumSeat, SumTree};
use crate::sums::Sums;

// A count stops here, so that the sum of 64 ranks stays within its type.
const MOST: u64 = (1 << 56) - 1;

impl<'b> Sums for &'b SumTree {
    type Seat = SumSeat;

    ghost shows = { shown_by };

    ghost reads = { λ s. Some s.seat.me.0.own.readings };

    ghost tells = { λ t. None };

    ghost seats = { λ t s. IsSeat t.now s };

    fn raise(&mut self, seat: &mut SumSeat, by: u64) {
        seat.count = seat.count.saturating_add(by).min(MOST);
    }

    fn refresh(&mut self, seat: &mut SumSeat) {
        let below = self.read_children(seat);
        self.store_step(
            &mut seat.seat,
            seat.number,
            seat.count,
            2 * (seat.count + below),
        );
    }

    fn finish(&mut self, seat: &mut SumSeat) -> Option<u64> {
        let Some(below) = self.read_finals(seat) else {
            return None;
        };
        let sum = seat.count + below;
        self.final_step(&mut seat.seat, seat.number, seat.count, 2 * sum + 1);
        seat.answer = Some(sum);
        Some(sum)
    }

    fn shown(&mut self, seat: &mut SumSeat) -> u64 {
        let found = self.load_step(&mut seat.seat, seat.number, seat.number as usize);
        found / 2
    }

    fn gather(&mut self, mut all: Vec<SumSeat>) -> u64
        requires some { 0 < length all.items }
        requires all { AllFinished shown_by (IsSeat self.old.now) all.items }
        ensures sum { result ≡ sum_by (λ seat. (shown_by seat).count) all.items }
        ensures first { (s : SumSeat) → Contains all.items s → (shown_by s).number ≡ 0 → (shown_by s).answer ≡ Some result }
        ensures told { ◌≡◌ {A = Option SumTold} None None }
    {
        let Some(last) = all.pop() else {
            unreachable!()
        };
        let (mut first, mut total) = last.apart(0);
        while let Some(other) = all.pop() {
            let (theirs, known) = other.apart(total);
            self.join_step(&mut first, theirs);
            total = known;
        }
        self.sum_step(&mut first);
        total
    }

    ghost agrees = { λ t s seat. tt };
}
