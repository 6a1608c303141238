//! A board that one thread keeps.
ghost use Rattle.std.specs.Prelude.{◌≡◌, ◌≢◌, ◌<◌, ◌≤◌, true, false, length, slice_index_or, replicate, if◌then◌else◌, Some, None, IfOk};
ghost use Rattle.ring_core.specs.declared.states.Colour.TheVariants.{Black};
ghost use Rattle.post_board.specs.Shown.{victim_of};
ghost use Rattle.post_board.specs.Deeds.{withdraw as withdraw_of, TellsLate};
ghost use Rattle.post_board.specs.Calls.{serving, answered};
ghost use Rattle.post_board.specs.declared.answers.Answer.TheVariants.{Nothing};
ghost use Rattle.post_board.specs.Fresh.{fresh_told, AllFresh};
ghost use Rattle.post_board.specs.Plain.{plain, wants, token_colour, shown_by, told_by, Seats};
ghost use Rattle.post_board.specs.declared.plain_seats.PlainSeat.{PlainSeat};

use crate::askers::Askers;
use crate::plain_ranks::{PlainMailbox, PlainRank};
use crate::plain_seats::PlainSeat;
use path_text::OutOfMemory;
use ring_core::{Colour, Token};
use std::alloc::Global;

/// A board that one thread keeps, for ranks that act in turn. It tells its picture and the batches on the way.
#[derive(Drop)]
pub struct PlainBoard {
    pub(crate) ranks: Vec<PlainRank>,
    pub(crate) token: Token,
    pub(crate) askers: Askers,
    /// The rank that last told all to halt.
    pub(crate) halter: Option<u32>,
    /// For each rank, whether it has stopped.
    pub(crate) stops: Vec<bool>,
}

impl PlainBoard {
    /// A board of `n` ranks and their seats, in ascending number. Each rank begins busy, and the token lies black at rank 0.
    pub fn make(alloc: Global, n: u32) -> Result<(PlainBoard, Vec<PlainSeat>), OutOfMemory>
        requires one { 1 ≤ n }
        requires at_most_64 { n ≤ 64 }
        ensures told { IfOk result (λ made. told_by made.0 ≡ fresh_told n) }
        ensures seats { IfOk result (λ made. AllFresh shown_by (Seats made.0) n None made.1.items) }
    {
        let mut ranks = Vec::with_capacity(alloc, n as usize)?;
        let mut seats = Vec::with_capacity(alloc, n as usize)?;
        for number in 0..n {
            ranks.push(PlainRank::fresh())?;
            seats.push(PlainSeat::fresh(alloc, n, number)?)?;
        }
        let askers = Askers::none(alloc, n)?;
        let stops = no_stops(alloc, n)?;
        let token = Token::At(0, Colour::Black);
        let board = PlainBoard {
            ranks,
            token,
            askers,
            halter: None,
            stops,
        };
        Ok((board, seats))
    }

    /// Whether the mailbox of the rank `r` asks the rank `of`, which has not taken it up.
    pub(crate) fn asks(&self, r: u32, of: u32) -> bool
        requires { r < length self.now.ranks.items }
        ensures { result ≡ wants (plain self.now.ranks.items r).mailbox of }
    {
        match self.ranks[r as usize].mailbox {
            PlainMailbox::Wants(victim) => victim == of,
            _ => false,
        }
    }

    /// Takes up the request in the mailbox of the rank `r`, of which the board still tells the same.
    pub(crate) fn take_up(&mut self, seat: &mut PlainSeat, r: u32)
        requires seat { Seats self.old seat.old }
        requires live { seat.old.stopped ≡ false }
        requires asks { (r < length self.old.ranks.items) × (r ≢ seat.old.number) × (wants (plain self.old.ranks.items r).mailbox seat.old.number ≡ true) }
        ensures shown { shown_by seat.new ≡ serving (shown_by seat.old) (Some r) }
        ensures told { told_by self.new ≡ told_by self.old }
        ensures mine { Seats self.new seat.new }
        ensures others { (other : PlainSeat) → other.number ≢ seat.old.number → Seats self.old other → Seats self.new other }
    {
        self.askers.take_away(seat.number, r);
        self.ranks[r as usize].mailbox = PlainMailbox::Served(seat.number);
        seat.serves[r as usize] = true;
    }

    /// Takes back the request of this seat's rank to the rank `victim`, which has stopped.
    pub(crate) fn withdraw(&mut self, seat: &mut PlainSeat, victim: u32)
        requires seat { Seats self.old seat.old }
        requires live { (seat.old.ended ≡ false) × (seat.old.stopped ≡ false) }
        requires asked { seat.old.asked ≡ Some victim }
        requires asks { wants (plain self.old.ranks.items seat.old.number).mailbox victim ≡ true }
        requires left { slice_index_or self.old.stops.items victim false ≡ true }
        ensures shown { shown_by seat.new ≡ answered (shown_by seat.old) Nothing }
        ensures told { TellsLate seat.old.number (withdraw_of (victim_of (shown_by seat.old))) (Some (told_by self.old)) (Some (told_by self.new)) }
        ensures mine { Seats self.new seat.new }
        ensures others { (other : PlainSeat) → other.number ≢ seat.old.number → Seats self.old other → Seats self.new other }
    {
        self.askers.take_away(victim, seat.number);
        let rank = &mut self.ranks[seat.number as usize];
        rank.tried = true;
        rank.mailbox = PlainMailbox::Rest;
        seat.asked = None;
        seat.tried = true;
    }

    /// The token's colour.
    pub(crate) fn held(&self) -> Colour
        ensures { result ≡ token_colour self.now.token }
    {
        match self.token {
            Token::At(_, colour) => colour,
            Token::Over => Colour::Black,
        }
    }
}

/// Nobody of `n` ranks has stopped.
fn no_stops(alloc: Global, n: u32) -> Result<Vec<bool>, OutOfMemory>
    ensures { IfOk result (λ stops. stops.items ≡ replicate n false) }
{
    let mut stops = Vec::new(alloc);
    stops.resize(n as usize, false)?;
    Ok(stops)
}

/// Black if `black` is true, else the colour.
pub(crate) fn shaded(black: bool, colour: Colour) -> Colour
    ensures { result ≡ (if black then Black else colour) }
{
    if black { Colour::Black } else { colour }
}
