//! The service at the beginning of a turn: all ranks that ask get their answers.
ghost use Rattle.std.specs.Prelude.{◌≡◌, ◌≢◌, ◌<◌, ◌≤◌, ◌++◌, ◌⊎◌, [], take, length, true, false, if◌then◌else◌, IfSome, IfNone, None};
ghost use Rattle.ring_core.specs.declared.states.Colour.TheVariants.{Black};
ghost use Rattle.post_board.specs.Shown.{is_served};
ghost use Rattle.circle_run.specs.Moves.{AreAskers, NobodyAsks, IsHalted};
ghost use Rattle.circle_run.specs.Ranks.{Knows};
ghost use Rattle.circle_run.specs.Private.Steps.{AtWork, Came, Served};
ghost use Rattle.circle_run.specs.Private.Services.{Taken, Awaits, Answered};

use crate::books::Book;
use crate::jobs::Job;
use crate::lots::Lot;
use crate::ranks::RankState;
use post_board::Post;
use rank_queue::{Batch, RankQueue};
use ring_core::{Colour, Event};

impl<J: Job, S, T> RankState<J, S, T> {
    /// Takes up all requests and answers each of them: it gives, or refuses all. Says whether there was one.
    pub(crate) fn serve<P: Post<Seat = S>>(&mut self, post: &mut P, gives: bool) -> bool
        requires ready { AtWork P.shows P.seats self.old post.old }
        requires refuses { gives ≡ false → (self.old.options.stop_after ≢ None) × IsHalted (P.tells post.old) }
        ensures came { Came J.log J.plain P.shows P.tells P.seats (Served gives result) self.old post.old self.new post.new }
        ensures unasked { NobodyAsks self.old.me (P.tells post.new) }
        ensures job { self.new.job ≡ self.old.job }
        ensures ended { self.new.ended ≡ false }
        ensures asked { self.new.asked ≡ self.old.asked }
        ensures tried { self.new.tried ≡ self.old.tried }
        ensures here { (P.shows self.new.seat).here ≡ (P.shows self.old.seat).here }
        ensures goes { self.new.stopped ≡ false }
        ensures halted { (P.shows self.new.seat).halted ≡ (P.shows self.old.seat).halted }
        ensures knows_halt { (P.shows self.new.seat).knows_halt ≡ (P.shows self.old.seat).knows_halt }
    {
        let mut asks = [0; 64];
        let count = self.take_up(post, &mut asks);
        let queued = self.queue.len() as u64;
        let mut lot = Lot::of(gives, self.options.split, queued, count as u64);
        for k in 0..count {
            let share = lot.next(&mut self.draws);
            self.answer_one(post, asks[k], share);
        }
        count > 0
    }

    /// Takes up requests until there is none more.
    fn take_up<P: Post<Seat = S>>(&mut self, post: &mut P, asks: &mut [u32; 64]) -> usize
        requires { AtWork P.shows P.seats self.old post.old }
        ensures taken { Taken J.log P.shows P.tells P.seats self.old post.old self.new post.new asks.new result }
        ensures awaits { Awaits (P.shows self.new.seat) (P.tells post.new) }
        ensures askers { AreAskers self.old.me (P.tells post.new) (take result asks.new) }
        ensures few { result ≤ 64 }
    {
        let mut count = 0;
        while let Some(to) = post.next_request(&mut self.seat) {
            asks[count] = to;
            count += 1;
        }
        count
    }

    /// Gives so many of the oldest strings to a rank that is being served, or refuses it if that is none.
    fn answer_one<P: Post<Seat = S>>(&mut self, post: &mut P, to: u32, share: u64)
        requires seat { P.seats post.old self.old.seat }
        requires knows { Knows P.shows self.old }
        requires live { self.old.ended ≡ false }
        requires going { self.old.stopped ≡ false }
        requires served { is_served (P.shows self.old.seat) to ≡ true }
        requires awaits { Awaits (P.shows self.old.seat) (P.tells post.old) }
        ensures { Answered J.log P.shows P.tells P.seats to share self.old post.old self.new post.new }
    {
        let rank = self.me;
        let trace = self.options.trace;
        match portion(&mut self.queue, &mut self.book, share) {
            Some(batch) => {
                let count = batch.len() as u64;
                post.give(&mut self.seat, to, batch);
                self.colour = shaded(to > rank, self.colour);
                self.book.note(trace, Event::Give { rank, to, count });
            }
            None => {
                post.refuse(&mut self.seat, to);
                self.book.note(trace, Event::Refuse { rank, to });
            }
        }
    }
}

// So many of the oldest strings. `None` if `share` is 0, if the queue does not have more than `share`, or out of memory.
fn portion(queue: &mut RankQueue, book: &mut Book, share: u64) -> Option<Batch>
    ensures oldest { IfSome result (λ batch. queue.old ≡ batch ++ queue.new) }
    ensures amount { IfSome result (λ batch. (length batch ≡ share) × (0 < share) × (0 < length queue.new)) }
    ensures had { IfSome result (λ batch. book.new ≡ book.old) }
    ensures rest { IfNone result (queue.new ≡ queue.old) }
    ensures none { IfNone result (book.new.lost ≡ false → (share ≡ 0) ⊎ (length queue.old ≤ share)) }
    ensures same { IfNone result (book.new ≡ record book.old { lost = book.new.lost }) }
    ensures lost { book.old.lost ≡ true → book.new.lost ≡ true }
{
    if share == 0 || share >= queue.len() as u64 {
        return None;
    }
    let Ok(batch) = queue.give(share as usize) else {
        book.lost = true;
        return None;
    };
    Some(batch)
}

// The colour of a rank that gave, which is black if it gave to a higher rank.
fn shaded(higher: bool, colour: Colour) -> Colour
    ensures { result ≡ (if higher then Black else colour) }
{
    if higher { Colour::Black } else { colour }
}
