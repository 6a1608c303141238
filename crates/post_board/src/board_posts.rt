//! The calls of ranks on a board of atomic words, each by the steps of `src/board_steps.rt`.
ghost use Rattle.std.specs.Prelude.{◌≡◌, ◌<◌, Some, None, length};
ghost use Rattle.std.specs.List.{Contains};
ghost use Rattle.post_board.specs.Deeds.{Stays};
ghost use Rattle.post_board.specs.Calls.{AllDone, AllEven, Halters, NoneOnTheWay};
ghost use Rattle.post_board.specs.BoardSeats.{shown_by, IsSeat};

use crate::answers::{Answer, Gathered, Ring};
use crate::board_answers::Reply;
use crate::boards::{Board, BoardSeat};
use crate::plain_boards::shaded;
use crate::posts::Post;
use crate::ring_words::word_at;
use rank_queue::Batch;
use ring_core::{Colour, Token};

impl<'b> Post for &'b Board {
    type Seat = BoardSeat;

    ghost shows = { shown_by };

    ghost reads = { λ s. Some s.seat.me.0.own.readings };

    ghost tells = { λ b. None };

    ghost seats = { λ b s. IsSeat b.now s };

    fn ask(&mut self, seat: &mut BoardSeat, victim: u32) {
        self.ask_step(&mut seat.seat, seat.number, victim);
        seat.asked = Some(victim);
    }

    fn answer(&mut self, seat: &mut BoardSeat) -> Answer {
        let me = seat.number;
        let Some(victim) = seat.asked else {
            unreachable!()
        };
        match self.find(&mut seat.seat, me, victim) {
            Reply::Waiting => Answer::Pending,
            Reply::Full => {
                let batch = self.fetch(&mut seat.seat, me, victim);
                seat.asked = None;
                Answer::Work(batch)
            }
            Reply::Refused => {
                self.empty_step(&mut seat.seat, me, victim);
                seat.asked = None;
                Answer::Nothing
            }
            Reply::Withdrawn => {
                seat.asked = None;
                Answer::Nothing
            }
        }
    }

    fn next_request(&mut self, seat: &mut BoardSeat) -> Option<u32> {
        for r in 0..seat.n {
            if r != seat.number && self.look_at(&mut seat.seat, seat.number, r) {
                seat.seat.turn();
                if let Err(_) = seat.held.push_back(r) {
                    unreachable!()
                }
                return Some(r);
            }
        }
        None
    }

    fn give(&mut self, seat: &mut BoardSeat, to: u32, batch: Batch) {
        self.front_slot(seat, to);
        self.fill_slot(&mut seat.seat, to, batch);
        self.post_step(&mut seat.seat, seat.number, to);
        seat.colour = shaded(to > seat.number, seat.colour);
    }

    fn refuse(&mut self, seat: &mut BoardSeat, to: u32) {
        self.front_slot(seat, to);
        self.refuse_step(&mut seat.seat, seat.number, to);
    }

    fn ring(&mut self, seat: &mut BoardSeat) -> Ring {
        let heard = self.hear(&mut seat.seat, seat.number);
        seat.here = match heard {
            Ring::Here(colour) => Some(colour),
            _ => None,
        };
        seat.ended = match heard {
            Ring::Over => true,
            _ => false,
        };
        heard
    }

    fn pass(&mut self, seat: &mut BoardSeat) {
        let Some(token) = seat.here else {
            unreachable!()
        };
        let new = word_at(seat.number - 1, seat.colour.darker(token));
        self.pass_step(&mut seat.seat, seat.number, token, new);
        seat.colour = Colour::White;
        seat.here = None;
    }

    fn restart(&mut self, seat: &mut BoardSeat) {
        let Some(token) = seat.here else {
            unreachable!()
        };
        let new = word_at(seat.n - 1, Colour::White);
        self.restart_step(&mut seat.seat, token, new);
        seat.colour = Colour::White;
        seat.here = None;
    }

    fn conclude(&mut self, seat: &mut BoardSeat) {
        self.conclude_step(&mut seat.seat);
        seat.here = None;
        seat.ended = true;
    }

    fn halt(&mut self, seat: &mut BoardSeat) {
        self.halt_step(&mut seat.seat, seat.number);
    }

    fn stop(&mut self, seat: &mut BoardSeat) {
        self.stop_step(&mut seat.seat, seat.number);
    }

    fn gather(&mut self, mut all: Vec<BoardSeat>) -> Gathered
        requires some { 0 < length all.items }
        requires all { AllDone shown_by (IsSeat self.old.now) all.items }
        ensures over { (s : BoardSeat) → Contains all.items s → (shown_by s).number ≡ 0 → result.over ≡ (shown_by s).ended }
        ensures told { Stays NoneOnTheWay None None }
        ensures batches { AllEven shown_by (IsSeat self.old.now) all.items }
        ensures halters { Halters shown_by (IsSeat self.old.now) all.items }
    {
        let Some(last) = all.pop() else {
            unreachable!()
        };
        let (mut first, mut over) = last.apart(false);
        while let Some(other) = all.pop() {
            let (theirs, seen) = other.apart(over);
            self.join_step(&mut first, theirs);
            over = seen;
        }
        self.settle_step(&mut first);
        Gathered { over }
    }

    ghost agrees = { λ b s seat. tt };
}
