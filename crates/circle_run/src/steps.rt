//! The steps of a turn by which a rank goes on.
ghost use Rattle.std.specs.Prelude.{◌≡◌, ◌≢◌, ◌+◌, ◌-◌, ◌<◌, ◌⊎◌, [], length, true, false, Some, None};
ghost use Rattle.post_board.specs.Shown.{is_here};
ghost use Rattle.post_board.specs.declared.answers.Ring.TheVariants.{Over as HeardOver, Elsewhere as HeardElsewhere, Halted as HeardHalted};
ghost use Rattle.circle_run.specs.Choices.{to_handle, to_look, to_move, to_ask, choice, standing, IsRing, held_of, held_after, heard_after};
ghost use Rattle.circle_run.specs.Moves.{MayHandle, NobodyAsks, IsHalted};
ghost use Rattle.circle_run.specs.Private.Steps.{AtWork, Came, HandledNewest};
ghost use Rattle.circle_run.specs.Turns.{Waits};
ghost use Rattle.circle_run.specs.Private.Steps.{Heard};
ghost use Rattle.circle_run.specs.Private.Steps.{Follows};
ghost use Rattle.circle_run.specs.declared.steps.Did.TheVariants.{Handled as DidHandle, Acted as DidAct, Waited as DidWait, Stopped as DidStop};

use crate::jobs::Job;
use crate::ranks::RankState;
use post_board::{Answer, Post, Ring};
use rank_queue::victim;
use ring_core::{Colour, Event};

/// The action of a rank after its service.
#[derive(Clone, Copy, Debug, Drop, PartialEq, Eq)]
pub(crate) enum Did {
    /// It handled a string.
    Handled,
    /// It asked, took an answer or moved the token.
    Acted,
    /// The answer to its request has not come.
    Waited,
    /// It stopped.
    Stopped,
}

impl<J: Job, S, T> RankState<J, S, T> {
    /// Reads the ring.
    pub(crate) fn hear<P: Post<Seat = S>>(&mut self, post: &mut P) -> Ring
        requires { AtWork P.shows P.seats self.old post.old }
        ensures came { Came J.log J.plain P.shows P.tells P.seats (Heard result) self.old post.old self.new post.new }
        ensures over { result ≡ HeardOver → self.new.ended ≡ true }
        ensures more { result ≢ HeardOver → self.new.ended ≡ false }
        ensures job { self.new.job ≡ self.old.job }
        ensures elsewhere { result ≡ HeardElsewhere → 1 < self.new.options.ranks }
        ensures read { IsRing self.old.me (P.tells post.old) result }
        ensures held { (P.shows self.new.seat).here ≡ held_of result }
        ensures halted { (P.shows self.new.seat).halted ≡ (P.shows self.old.seat).halted }
        ensures knows_halt { result ≡ HeardHalted → (P.shows self.new.seat).knows_halt ≡ true }
        ensures told { result ≡ HeardHalted → IsHalted (P.tells post.new) }
        ensures same { self.new ≡ record self.old { seat = self.new.seat; ended = self.new.ended; book = self.new.book } }
    {
        let ring = post.ring(&mut self.seat);
        if let Ring::Over = ring {
            self.ended = true;
            let rank = self.me;
            self.book.note(self.options.trace, Event::SeeOver { rank });
        }
        ring
    }

    /// Handles the newest string and queues the strings that the job pushed.
    fn handle_newest(&mut self)
        requires some { 0 < length self.old.queue }
        requires fresh { self.old.fresh ≡ [] }
        ensures newest { HandledNewest J.log J.plain self.old self.new }
        ensures heard { self.new.book.lost ≡ false → J.heard self.new.job ≡ heard_after to_handle (length self.old.queue - 1) (J.heard self.old.job) }
    {
        let Some(path) = self.queue.take() else {
            unreachable!()
        };
        let waiting = self.queue.len();
        let Ok(()) = self.job.handle(&path, waiting as u64, &mut self.fresh) else {
            self.book.lost = true;
            return;
        };
        let Ok(()) = self.queue.push_all(&mut self.fresh) else {
            self.fresh.clear();
            self.book.lost = true;
            return;
        };
        let rank = self.me;
        let kids = (self.queue.len() - waiting) as u64;
        self.book
            .note(self.options.trace, Event::Handle { rank, path, kids });
    }

    /// Looks for the answer to the open request, and queues the strings that came.
    pub(crate) fn look<P: Post<Seat = S>>(&mut self, post: &mut P, victim: u32) -> Did
        requires ready { AtWork P.shows P.seats self.old post.old }
        requires empty { self.old.queue ≡ [] }
        requires open { self.old.asked ≡ Some victim }
        ensures came { Came J.log J.plain P.shows P.tells P.seats (Follows result self.old.me (to_look victim)) self.old post.old self.new post.new }
        ensures held { (P.shows self.new.seat).here ≡ (P.shows self.old.seat).here }
        ensures waits { result ≡ DidWait → Waits self.new.me (P.tells post.new) }
        ensures job { self.new.job ≡ self.old.job }
        ensures other { result ≢ DidHandle }
        ensures goes { (result ≢ DidStop) × (self.new.stopped ≡ false) }
        ensures halted { (P.shows self.new.seat).halted ≡ (P.shows self.old.seat).halted }
        ensures knows_halt { (P.shows self.new.seat).knows_halt ≡ (P.shows self.old.seat).knows_halt }
    {
        let rank = self.me;
        let trace = self.options.trace;
        match post.answer(&mut self.seat) {
            Answer::Pending => Did::Waited,
            Answer::Nothing => {
                self.asked = None;
                self.tried = true;
                let from = victim;
                self.book.note(trace, Event::TakeNone { rank, from });
                Did::Acted
            }
            Answer::Work(batch) => {
                let mut batch = batch;
                self.asked = None;
                self.tried = false;
                let from = victim;
                let count = batch.len() as u64;
                let Ok(()) = self.queue.push_all(&mut batch) else {
                    self.book.lost = true;
                    return Did::Acted;
                };
                self.book.note(trace, Event::Take { rank, from, count });
                Did::Acted
            }
        }
    }

    /// Passes the token on, sends it round once more, or ends the run.
    fn move_token<P: Post<Seat = S>>(&mut self, post: &mut P, held: Colour)
        requires ready { AtWork P.shows P.seats self.old post.old }
        requires empty { self.old.queue ≡ [] }
        requires rest { self.old.asked ≡ None }
        requires here { (P.shows self.old.seat).here ≡ Some held }
        requires tried { (self.old.options.ranks ≡ 1) ⊎ (self.old.tried ≡ true) }
        ensures came { Came J.log J.plain P.shows P.tells P.seats (Follows DidAct self.old.me (to_move held)) self.old post.old self.new post.new }
        ensures gone { (P.shows self.new.seat).here ≡ None }
        ensures job { self.new.job ≡ self.old.job }
        ensures goes { self.new.stopped ≡ false }
        ensures halted { (P.shows self.new.seat).halted ≡ (P.shows self.old.seat).halted }
    {
        let rank = self.me;
        let trace = self.options.trace;
        let colour = self.colour.darker(held);
        if rank > 0 {
            post.pass(&mut self.seat);
            self.colour = Colour::White;
            self.book.note(trace, Event::Pass { rank, colour });
            return;
        }
        match colour {
            Colour::Black => {
                post.restart(&mut self.seat);
                self.colour = Colour::White;
                self.book.note(trace, Event::Restart { rank });
            }
            Colour::White => {
                post.conclude(&mut self.seat);
                self.ended = true;
                self.book.note(trace, Event::Conclude { rank });
            }
        }
    }

    /// Asks another rank for strings.
    fn ask_next<P: Post<Seat = S>>(&mut self, post: &mut P)
        requires ready { AtWork P.shows P.seats self.old post.old }
        requires empty { self.old.queue ≡ [] }
        requires rest { self.old.asked ≡ None }
        requires many { 1 < self.old.options.ranks }
        ensures came { Came J.log J.plain P.shows P.tells P.seats (Follows DidAct self.old.me to_ask) self.old post.old self.new post.new }
        ensures held { (P.shows self.new.seat).here ≡ (P.shows self.old.seat).here }
        ensures job { self.new.job ≡ self.old.job }
        ensures goes { self.new.stopped ≡ false }
        ensures halted { (P.shows self.new.seat).halted ≡ (P.shows self.old.seat).halted }
    {
        let rank = self.me;
        let victim = victim(&mut self.draws, rank, self.options.ranks);
        post.ask(&mut self.seat, victim);
        self.asked = Some(victim);
        self.book
            .note(self.options.trace, Event::Ask { rank, victim });
    }

    /// Does the first that applies: handles a string, looks for an answer, moves the token, asks.
    pub(crate) fn go_on<P: Post<Seat = S>>(&mut self, post: &mut P, ring: Ring) -> Did
        requires ready { AtWork P.shows P.seats self.old post.old }
        requires unasked { NobodyAsks self.old.me (P.tells post.old) }
        requires may { self.old.book.lost ≡ false → MayHandle self.old.options (length (J.log self.old.job)) }
        requires over { ring ≢ HeardOver }
        requires halt { ring ≢ HeardHalted }
        requires elsewhere { ring ≡ HeardElsewhere → 1 < self.old.options.ranks }
        requires held { (P.shows self.old.seat).here ≡ held_of ring }
        ensures came { Came J.log J.plain P.shows P.tells P.seats
            (Follows result self.old.me (choice self.old.options.ranks (standing ring self.old))) self.old post.old self.new post.new }
        ensures held { (P.shows self.new.seat).here ≡ held_after (choice self.old.options.ranks (standing ring self.old)) ring }
        ensures heard { self.new.book.lost ≡ false
            → J.heard self.new.job ≡ heard_after (choice self.old.options.ranks (standing ring self.old)) (length self.old.queue - 1) (J.heard self.old.job) }
        ensures waits { result ≡ DidWait → Waits self.new.me (P.tells post.new) }
        ensures handled { result ≡ DidHandle → self.new.book.lost ≡ false → length (J.log self.new.job) ≡ length (J.log self.old.job) + 1 }
        ensures other { result ≢ DidHandle → J.log self.new.job ≡ J.log self.old.job }
        ensures goes { (result ≢ DidStop) × (self.new.stopped ≡ false) }
        ensures live { result ≡ DidHandle → self.new.ended ≡ false }
        ensures halted { (P.shows self.new.seat).halted ≡ (P.shows self.old.seat).halted }
    {
        if self.queue.len() > 0 {
            self.handle_newest();
            return Did::Handled;
        }
        if let Some(victim) = self.asked {
            return self.look(post, victim);
        }
        if let Ring::Here(held) = ring {
            if self.tried || self.options.ranks == 1 {
                self.move_token(post, held);
                return Did::Acted;
            }
        }
        self.ask_next(post);
        Did::Acted
    }
}
