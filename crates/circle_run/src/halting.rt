//! The turn of a rank that is to halt.
ghost use Rattle.std.specs.Prelude.{◌≡◌, ◌≢◌, ◌-◌, ◌^◌, ◌≤◌, ◌⊎◌, ◌||◌, ◌&&◌, not, length, true, false, Some, None, IfSome};
ghost use Rattle.circle_run.specs.Choices.{has_done_all, is_halt};
ghost use Rattle.circle_run.specs.Moves.{IsHalted};
ghost use Rattle.circle_run.specs.Ranks.{Knows, ServesNone};
ghost use Rattle.circle_run.specs.Private.Steps.{AtWork, Came, Halts, Ends, WoundUp, halts_by};
ghost use Rattle.circle_run.specs.Turns.{Waits};
ghost use Rattle.circle_run.specs.declared.steps.Did.TheVariants.{Handled as DidHandle, Waited as DidWait, Stopped as DidStop};

use crate::jobs::Job;
use crate::ranks::RankState;
use crate::steps::Did;
use crate::turns::in_all;
use post_board::{Post, Ring};

impl<J: Job, S, T> RankState<J, S, T> {
    /// Whether it has handled all that it may.
    pub(crate) fn has_done_all(&self) -> bool
        ensures done { result ≡ has_done_all self.now }
        ensures few { IfSome self.now.options.stop_after (λ k. k ≤ 2 ^ 64 - 1) }
    {
        match self.options.stop_after {
            None => false,
            Some(k) => k <= self.book.share.handled,
        }
    }

    /// Refuses all that ask. Then it looks for the answer to its open request, or stops if it has none. A rank that reads of no halt
    /// tells all to halt first.
    pub(crate) fn wind_up<P: Post<Seat = S>>(&mut self, post: &mut P, first: bool) -> Did
        requires ready { AtWork P.shows P.seats self.old post.old }
        requires due { first ≡ true → self.old.book.lost ≡ false → self.old.options.stop_after ≡ Some (length (J.log self.old.job)) }
        requires halted { first ≡ false → IsHalted (P.tells post.old) × ((P.shows self.old.seat).knows_halt ≡ true) }
        ensures came { Came J.log J.plain P.shows P.tells P.seats
            (WoundUp result self.old.options self.old.me first self.old.asked) self.old post.old self.new post.new }
        ensures job { self.new.job ≡ self.old.job }
        ensures waits { result ≡ DidWait → Waits self.new.me (P.tells post.new) }
        ensures other { result ≢ DidHandle }
        ensures stopped { result ≡ DidStop → self.new.stopped ≡ true }
        ensures goes { result ≢ DidStop → self.new.stopped ≡ false }
        ensures halts { first ≡ false → (P.shows self.new.seat).halted ≡ (P.shows self.old.seat).halted }
        ensures knows_halt { ((P.shows self.new.seat).halted ≡ true) ⊎ ((P.shows self.new.seat).knows_halt ≡ true) }
    {
        self.tell_halt(post, first);
        let gives = self.options.stop_after.is_none();
        let some = self.serve(post, gives);
        let did = self.close(post);
        in_all(some, did)
    }

    /// Tells all to halt, if that is due.
    pub(crate) fn tell_halt<P: Post<Seat = S>>(&mut self, post: &mut P, due: bool)
        requires seat { P.seats post.old self.old.seat }
        requires knows { Knows P.shows self.old }
        requires none { ServesNone P.shows self.old }
        requires live { due ≡ true → self.old.ended ≡ false }
        requires going { self.old.stopped ≡ false }
        requires due { due ≡ true → self.old.book.lost ≡ false → self.old.options.stop_after ≡ Some (length (J.log self.old.job)) }
        ensures came { Came J.log J.plain P.shows P.tells P.seats (Halts due) self.old post.old self.new post.new }
        ensures same { self.new ≡ record self.old { seat = self.new.seat } }
        ensures here { (P.shows self.new.seat).here ≡ (P.shows self.old.seat).here }
        ensures told { due ≡ true → IsHalted (P.tells post.new) }
        ensures halted { due ≡ true → (P.shows self.new.seat).halted ≡ true }
        ensures all { due ≡ true → self.new.book.lost ≡ false → self.new.options.stop_after ≡ Some (length (J.log self.new.job)) }
        ensures seat { due ≡ false → self.new.seat ≡ self.old.seat }
        ensures still { due ≡ false → post.new ≡ post.old }
    {
        if due {
            post.halt(&mut self.seat);
        }
    }

    /// Looks for the answer to its open request, or stops if it has none.
    fn close<P: Post<Seat = S>>(&mut self, post: &mut P) -> Did
        requires ready { AtWork P.shows P.seats self.old post.old }
        requires halted { self.old.book.lost ≡ false → IsHalted (P.tells post.old) }
        ensures came { Came J.log J.plain P.shows P.tells P.seats (Ends result self.old.me self.old.asked) self.old post.old self.new post.new }
        ensures job { self.new.job ≡ self.old.job }
        ensures waits { result ≡ DidWait → Waits self.new.me (P.tells post.new) }
        ensures other { result ≢ DidHandle }
        ensures stopped { result ≡ DidStop → self.new.stopped ≡ true }
        ensures goes { result ≢ DidStop → self.new.stopped ≡ false }
        ensures halted { (P.shows self.new.seat).halted ≡ (P.shows self.old.seat).halted }
        ensures knows_halt { (P.shows self.new.seat).knows_halt ≡ (P.shows self.old.seat).knows_halt }
    {
        if let Some(victim) = self.asked {
            return self.look(post, victim);
        }
        post.stop(&mut self.seat);
        self.stopped = true;
        Did::Stopped
    }
}

/// Whether a rank that is to halt tells all to halt. It has handled all that it may (`due`), or reads this of the ring.
pub(crate) fn tells_first(due: bool, ring: Ring) -> bool
    ensures { result ≡ (due && not (is_halt ring)) }
{
    due && !matches!(ring, Ring::Halted)
}

/// Whether a rank tells all to halt after it did this. It has then handled all that it may (`due`), or has not.
pub(crate) fn halts_by(did: Did, due: bool) -> bool
    ensures { result ≡ halts_by did due }
{
    match did {
        Did::Handled => due,
        _ => false,
    }
}

/// Whether a rank is to halt. It has handled all that it may (`due`), or reads this of the ring.
pub(crate) fn is_to_halt(due: bool, ring: Ring) -> bool
    ensures { result ≡ (due || is_halt ring) }
{
    due || matches!(ring, Ring::Halted)
}
