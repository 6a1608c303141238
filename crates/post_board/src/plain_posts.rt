//! The calls of ranks on a plain board.
ghost use Rattle.std.specs.Prelude.{◌≡◌, ◌<◌, Some, None, length};
ghost use Rattle.std.specs.List.{Contains};
ghost use Rattle.post_board.specs.Deeds.{Stays};
ghost use Rattle.post_board.specs.Calls.{AllDone, AllEven, Halters, NoneOnTheWay};
ghost use Rattle.post_board.specs.Plain.{shown_by, told_by, Seats};
ghost use Rattle.post_board.specs.Agreed.{agreed};
ghost use Rattle.post_board.specs.declared.plain_seats.PlainSeat.{PlainSeat};

use crate::answers::{Answer, Gathered, Ring};
use crate::plain_boards::{PlainBoard, shaded};
use crate::plain_ranks::PlainMailbox;
use crate::plain_seats::PlainSeat;
use crate::posts::Post;
use rank_queue::Batch;
use ring_core::{Colour, Token};
use std::mem;

impl Post for PlainBoard {
    type Seat = PlainSeat;

    ghost shows = { shown_by };

    ghost reads = { λ s. None };

    ghost tells = { λ b. Some (told_by b) };

    ghost seats = { Seats };

    fn ask(&mut self, seat: &mut PlainSeat, victim: u32) {
        self.askers.add(victim, seat.number);
        let rank = &mut self.ranks[seat.number as usize];
        rank.busy = false;
        rank.mailbox = PlainMailbox::Wants(victim);
        seat.busy = false;
        seat.asked = Some(victim);
    }

    fn answer(&mut self, seat: &mut PlainSeat) -> Answer {
        let Some(victim) = seat.asked else {
            unreachable!()
        };
        if self.stops[victim as usize] && self.asks(seat.number, victim) {
            self.withdraw(seat, victim);
            return Answer::Nothing;
        }
        let rank = &mut self.ranks[seat.number as usize];
        match mem::replace(&mut rank.mailbox, PlainMailbox::Rest) {
            PlainMailbox::Holds(_, batch) => {
                rank.busy = true;
                rank.tried = false;
                seat.asked = None;
                seat.busy = true;
                seat.tried = false;
                Answer::Work(batch)
            }
            PlainMailbox::Refused(_) => {
                rank.tried = true;
                seat.asked = None;
                seat.tried = true;
                Answer::Nothing
            }
            mailbox => {
                rank.mailbox = mailbox;
                Answer::Pending
            }
        }
    }

    fn next_request(&mut self, seat: &mut PlainSeat) -> Option<u32> {
        if self.askers.nobody_asks(seat.number) {
            return None;
        }
        for r in 0..seat.n {
            if r != seat.number && self.asks(r, seat.number) {
                self.take_up(seat, r);
                return Some(r);
            }
        }
        None
    }

    fn give(&mut self, seat: &mut PlainSeat, to: u32, batch: Batch) {
        seat.colour = shaded(to > seat.number, seat.colour);
        self.ranks[seat.number as usize].colour = seat.colour;
        self.ranks[to as usize].mailbox = PlainMailbox::Holds(seat.number, batch);
        seat.serves[to as usize] = false;
    }

    fn refuse(&mut self, seat: &mut PlainSeat, to: u32) {
        self.ranks[to as usize].mailbox = PlainMailbox::Refused(seat.number);
        seat.serves[to as usize] = false;
    }

    fn ring(&mut self, seat: &mut PlainSeat) -> Ring {
        match self.token {
            Token::Over => {
                self.ranks[seat.number as usize].ended = true;
                seat.here = None;
                seat.ended = true;
                Ring::Over
            }
            _ if self.halter.is_some() => {
                seat.here = None;
                seat.knows_halt = true;
                Ring::Halted
            }
            Token::At(place, colour) if place == seat.number => {
                seat.here = Some(colour);
                Ring::Here(colour)
            }
            _ => {
                seat.here = None;
                Ring::Elsewhere
            }
        }
    }

    fn pass(&mut self, seat: &mut PlainSeat) {
        let colour = seat.colour.darker(self.held());
        self.ranks[seat.number as usize].colour = Colour::White;
        self.token = Token::At(seat.number - 1, colour);
        seat.colour = Colour::White;
        seat.here = None;
    }

    fn restart(&mut self, seat: &mut PlainSeat) {
        let rank = &mut self.ranks[seat.number as usize];
        rank.busy = false;
        rank.colour = Colour::White;
        self.token = Token::At(seat.n - 1, Colour::White);
        seat.busy = false;
        seat.colour = Colour::White;
        seat.here = None;
    }

    fn conclude(&mut self, seat: &mut PlainSeat) {
        self.ranks[seat.number as usize].ended = true;
        self.token = Token::Over;
        seat.here = None;
        seat.ended = true;
    }

    fn halt(&mut self, seat: &mut PlainSeat) {
        self.halter = Some(seat.number);
        seat.halted = true;
    }

    fn stop(&mut self, seat: &mut PlainSeat) {
        self.stops[seat.number as usize] = true;
        seat.stopped = true;
    }

    fn gather(&mut self, all: Vec<PlainSeat>) -> Gathered
        requires some { 0 < length all.items }
        requires all { AllDone shown_by (Seats self.old) all.items }
        ensures over { (s : PlainSeat) → Contains all.items s → (shown_by s).number ≡ 0 → result.over ≡ (shown_by s).ended }
        ensures told { Stays NoneOnTheWay (Some (told_by self.old)) (Some (told_by self.new)) }
        ensures batches { AllEven shown_by (Seats self.old) all.items }
        ensures halters { Halters shown_by (Seats self.old) all.items }
    {
        Gathered {
            over: self.ranks[0].ended,
        }
    }

    ghost agrees = { agreed };
}
