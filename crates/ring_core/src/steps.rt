//! One step of a world.
ghost use Rattle.std.specs.Prelude.{◌≡◌, ◌<◌, ◌||◌, ◌==◌, ◌∷◌, [], not, false, true, ℕ, List, length, IfOk, IfErr, OnOk, OnErr, Some, None};
ghost use Rattle.std.specs.Result.{result_err};
ghost use Rattle.ring_core.specs.declared.events.Event.TheVariants.{Handle, Ask, Give, Refuse, Take, TakeNone, Pass, Restart, Conclude, SeeOver};
ghost use Rattle.ring_core.specs.World.{rank_of};
ghost use Rattle.ring_core.specs.Private.{Takes};
ghost use Rattle.ring_core.specs.Step.{is_none_of, no_pair_of, is_busy, is_rest, is_at, is_untried, first_reason, refused, after};

use crate::events::{Event, Reason};
use crate::states::{Colour, Desk, RankState, Token};
use crate::worlds::World;

/// Takes one event. An event that is not legal is refused with the first reason, and changes nothing.
pub fn step(world: &mut World, event: &Event) -> Result<(), Reason>
    ensures reason { result_err result ≡ refused world.old event.now }
    ensures ok { OnOk result (world.new ≡ after world.old event.now) }
    ensures err { OnErr result (world.new ≡ world.old) }
{
    match event {
        Event::Handle {
            rank,
            path: _,
            kids,
        } => world.handle(*rank, *kids),
        Event::Ask { rank, victim } => world.ask(*rank, *victim),
        Event::Give { rank, to, count } => world.give(*rank, *to, *count),
        Event::Refuse { rank, to } => world.refuse(*rank, *to),
        Event::Take { rank, from, count } => world.take(*rank, *from, *count),
        Event::TakeNone { rank, from } => world.take_none(*rank, *from),
        Event::Pass { rank, colour } => world.pass(*rank, *colour),
        Event::Restart { rank } => world.restart(*rank),
        Event::Conclude { rank } => world.conclude(*rank),
        Event::SeeOver { rank } => world.see_over(*rank),
    }
}

impl World {
    // The acting rank, if it exists and has not ended.
    fn acting(&self, rank: u32) -> Result<RankState, Reason>
        ensures ok { IfOk result (λ me. (rank < length self.now.0) × (me ≡ rank_of self.now.0 rank) × (me.ended ≡ false)) }
        ensures err { IfErr result (λ e. first_reason ((is_none_of self.now.0 rank, Reason.BadRank)
            ∷ ((rank_of self.now.0 rank).ended, Reason.Ended) ∷ []) ≡ Some e) }
    {
        if rank as usize >= self.ranks.len() {
            return Err(Reason::BadRank);
        }
        let me = self.ranks[rank as usize];
        if me.ended {
            return Err(Reason::Ended);
        }
        Ok(me)
    }

    // The acting rank and the other one that the event names.
    fn acting_with(&self, rank: u32, other: u32) -> Result<(RankState, RankState), Reason>
        ensures ok { IfOk result (λ x. (rank < length self.now.0) × (other < length self.now.0) × (no_pair_of self.now.0 rank other ≡ false)
            × (x.0 ≡ rank_of self.now.0 rank) × (x.1 ≡ rank_of self.now.0 other) × ((x.0).ended ≡ false)) }
        ensures err { IfErr result (λ e. first_reason ((no_pair_of self.now.0 rank other, Reason.BadRank)
            ∷ ((rank_of self.now.0 rank).ended, Reason.Ended) ∷ []) ≡ Some e) }
    {
        if other as usize >= self.ranks.len() || rank == other {
            return Err(Reason::BadRank);
        }
        let me = self.acting(rank)?;
        Ok((me, self.ranks[other as usize]))
    }

    // The acting rank, if it has no string and no request open.
    fn idle(&self, rank: u32) -> Result<RankState, Reason>
        ensures ok { IfOk result (λ me. (rank < length self.now.0) × (me ≡ rank_of self.now.0 rank) × (me.ended ≡ false)
            × (is_busy me ≡ false) × (is_rest me.desk ≡ true)) }
        ensures err { IfErr result (λ e. first_reason ((is_none_of self.now.0 rank, Reason.BadRank)
            ∷ ((rank_of self.now.0 rank).ended, Reason.Ended)
            ∷ (is_busy (rank_of self.now.0 rank), Reason.Busy)
            ∷ (not (is_rest (rank_of self.now.0 rank).desk), Reason.OpenDesk) ∷ []) ≡ Some e) }
    {
        let me = self.acting(rank)?;
        if me.queued > 0 {
            return Err(Reason::Busy);
        }
        if me.desk != Desk::Rest {
            return Err(Reason::OpenDesk);
        }
        Ok(me)
    }

    // The acting rank and the colour of the token, if the rank may move the token on.
    fn token_holder(&self, rank: u32) -> Result<(RankState, Colour), Reason>
        ensures ok { IfOk result (λ x. (rank < length self.now.0) × (self.now.1 ≡ Token.At rank x.1) × (x.0 ≡ rank_of self.now.0 rank)
            × ((x.0).ended ≡ false) × (is_busy x.0 ≡ false) × (is_rest (x.0).desk ≡ true) × (is_untried self.now.0 x.0 ≡ false)) }
        ensures err { IfErr result (λ e. first_reason ((is_none_of self.now.0 rank, Reason.BadRank)
            ∷ ((rank_of self.now.0 rank).ended, Reason.Ended)
            ∷ (is_busy (rank_of self.now.0 rank), Reason.Busy)
            ∷ (not (is_rest (rank_of self.now.0 rank).desk), Reason.OpenDesk)
            ∷ (not (is_at self.now.1 rank), Reason.NoToken)
            ∷ (is_untried self.now.0 (rank_of self.now.0 rank), Reason.NotTried) ∷ []) ≡ Some e) }
    {
        let me = self.idle(rank)?;
        let colour = match self.token {
            Token::At(place, colour) if place == rank => colour,
            _ => return Err(Reason::NoToken),
        };
        if self.ranks.len() > 1 && !me.tried {
            return Err(Reason::NotTried);
        }
        Ok((me, colour))
    }

    // The path that was handled does not matter.
    fn handle(&mut self, rank: u32, kids: u64) -> Result<(), Reason>
        ensures { Takes self.old (Handle rank [] kids) result self.new }
    {
        let me = self.acting(rank)?;
        if me.queued == 0 {
            return Err(Reason::Count);
        }
        let Some(queued) = (me.queued - 1).checked_add(kids) else {
            return Err(Reason::Count);
        };
        self.ranks[rank as usize] = RankState { queued, ..me };
        Ok(())
    }

    fn ask(&mut self, rank: u32, victim: u32) -> Result<(), Reason>
        ensures { Takes self.old (Ask rank victim) result self.new }
    {
        if victim as usize >= self.ranks.len() || rank == victim {
            return Err(Reason::BadRank);
        }
        let me = self.idle(rank)?;
        self.ranks[rank as usize] = RankState {
            desk: Desk::Asked(victim),
            ..me
        };
        Ok(())
    }

    fn give(&mut self, rank: u32, to: u32, count: u64) -> Result<(), Reason>
        ensures { Takes self.old (Give rank to count) result self.new }
    {
        let (me, asker) = self.acting_with(rank, to)?;
        if count == 0 || count >= me.queued {
            return Err(Reason::Count);
        }
        if asker.desk != Desk::Asked(rank) {
            return Err(Reason::WrongDesk);
        }
        self.ranks[rank as usize] = RankState {
            queued: me.queued - count,
            colour: if rank < to { Colour::Black } else { me.colour },
            ..me
        };
        self.ranks[to as usize] = RankState {
            desk: Desk::Full(rank, count),
            ..asker
        };
        Ok(())
    }

    fn refuse(&mut self, rank: u32, to: u32) -> Result<(), Reason>
        ensures { Takes self.old (Refuse rank to) result self.new }
    {
        let (_, asker) = self.acting_with(rank, to)?;
        if asker.desk != Desk::Asked(rank) {
            return Err(Reason::WrongDesk);
        }
        self.ranks[to as usize] = RankState {
            desk: Desk::Empty(rank),
            ..asker
        };
        Ok(())
    }

    fn take(&mut self, rank: u32, from: u32, count: u64) -> Result<(), Reason>
        ensures { Takes self.old (Take rank from count) result self.new }
    {
        let (me, _) = self.acting_with(rank, from)?;
        let Some(queued) = me.queued.checked_add(count) else {
            return Err(Reason::Count);
        };
        if me.desk != Desk::Full(from, count) {
            return Err(Reason::WrongDesk);
        }
        self.ranks[rank as usize] = RankState {
            queued,
            ..me.answered(false)
        };
        Ok(())
    }

    fn take_none(&mut self, rank: u32, from: u32) -> Result<(), Reason>
        ensures { Takes self.old (TakeNone rank from) result self.new }
    {
        let (me, _) = self.acting_with(rank, from)?;
        if me.desk != Desk::Empty(from) {
            return Err(Reason::WrongDesk);
        }
        self.ranks[rank as usize] = me.answered(true);
        Ok(())
    }

    fn pass(&mut self, rank: u32, colour: Colour) -> Result<(), Reason>
        ensures { Takes self.old (Pass rank colour) result self.new }
    {
        if rank == 0 {
            return Err(Reason::BadRank);
        }
        let (me, token) = self.token_holder(rank)?;
        if colour != me.colour.darker(token) {
            return Err(Reason::WrongColour);
        }
        self.ranks[rank as usize] = me.whitened();
        self.token = Token::At(rank - 1, colour);
        Ok(())
    }

    fn restart(&mut self, rank: u32) -> Result<(), Reason>
        ensures { Takes self.old (Restart rank) result self.new }
    {
        if rank != 0 {
            return Err(Reason::BadRank);
        }
        let (me, token) = self.token_holder(0)?;
        if me.colour.darker(token) == Colour::White {
            return Err(Reason::WrongColour);
        }
        self.ranks[0] = me.whitened();
        self.token = Token::At(self.ranks.len() as u32 - 1, Colour::White);
        Ok(())
    }

    fn conclude(&mut self, rank: u32) -> Result<(), Reason>
        ensures { Takes self.old (Conclude rank) result self.new }
    {
        if rank != 0 {
            return Err(Reason::BadRank);
        }
        let (me, token) = self.token_holder(0)?;
        if me.colour.darker(token) == Colour::Black {
            return Err(Reason::WrongColour);
        }
        self.ranks[0] = RankState { ended: true, ..me };
        self.token = Token::Over;
        Ok(())
    }

    fn see_over(&mut self, rank: u32) -> Result<(), Reason>
        ensures { Takes self.old (SeeOver rank) result self.new }
    {
        let me = self.acting(rank)?;
        if self.token != Token::Over {
            return Err(Reason::NoToken);
        }
        self.ranks[rank as usize] = RankState { ended: true, ..me };
        Ok(())
    }
}

impl RankState {
    // After its request was answered.
    fn answered(self, tried: bool) -> RankState
        ensures { result ≡ record self { desk = Desk.Rest; tried = tried } }
    {
        RankState {
            desk: Desk::Rest,
            tried,
            ..self
        }
    }

    // After the token left it.
    fn whitened(self) -> RankState
        ensures { result ≡ record self { colour = Colour.White } }
    {
        RankState {
            colour: Colour::White,
            ..self
        }
    }
}
