//! A rank's turns.
ghost use Rattle.std.specs.Prelude.{◌≡◌, ◌≢◌, ℕ, ◌+◌, ◌++◌, ◌∷◌, ◌<◌, ◌≤◌, [], length, true, false, Some, None, IfSome};
ghost use Rattle.sum_tree.specs.Shown.{IsLeaf, refreshed};
ghost use Rattle.sum_tree.specs.Told.{Finishes};
ghost use Rattle.circle_run.specs.Progress.{newest};
ghost use Rattle.circle_run.specs.Private.Steps.{AtWork, Came, Works};
ghost use Rattle.circle_run.specs.Turns.{Waits, AddsUp};
ghost use Rattle.circle_run.specs.Private.Steps.{with_service, turn_of, tallied};
ghost use Rattle.circle_run.specs.Ready.{IsNew, Bounded, Ready, SumsReady, Turned};
ghost use Rattle.circle_run.specs.Choices.{is_done};
ghost use Rattle.circle_run.specs.declared.steps.Did.TheVariants.{Handled as DidHandle, Waited as DidWait, Stopped as DidStop};
ghost use Rattle.circle_run.specs.declared.ranks.Turn.TheVariants.{Went as TurnWent, Waited as TurnWaited, Stopped as TurnStopped, Ended as TurnEnded};

use crate::books::Book;
use crate::halting::{halts_by, is_to_halt, tells_first};
use crate::jobs::Job;
use crate::outcomes::Share;
use crate::ranks::{Rank, RankState, Turn};
use crate::settings::Options;
use crate::steps::Did;
use post_board::{Post, Ring};
use rank_queue::{Batch, RankQueue, generator};
use ring_core::{Colour, Event};
use std::alloc::Global;
use sum_tree::Sums;

impl<J: Job, S, T> Rank<J, S, T> {
    /// The rank `me`, which has not had a turn yet. Its job has handled nothing, `queue` has the starts that it was dealt, and its
    /// seats are unused.
    pub fn make(
        alloc: Global,
        job: J,
        seat: S,
        sums_seat: T,
        queue: RankQueue,
        options: &Options,
        me: u32,
    ) -> Rank<J, S, T>
        requires { J.log job ≡ [] }
        ensures { IsNew job seat sums_seat queue options.now me result }
    {
        let share = Share {
            handled: 0,
            given: 0,
            taken: 0,
        };
        let book = Book {
            events: Vec::new(alloc),
            share,
            sums: Vec::new(alloc),
            lost: false,
        };
        let state = RankState {
            job,
            seat,
            sums_seat,
            queue,
            draws: generator(options.seed, me),
            me,
            options: *options,
            colour: Colour::White,
            tried: false,
            asked: None,
            ended: false,
            stopped: false,
            book,
            fresh: Batch::make(alloc),
            alloc,
        };
        Rank { state }
    }

    /// Its events so far, in order, if the options have a trace.
    pub fn events(&self) -> &[Event]
        ensures { result.now ≡ self.now.book.events.items }
    {
        &self.state.book.events
    }

    /// Its number.
    pub fn number(&self) -> u32
        ensures { result ≡ self.now.me }
    {
        self.state.me
    }

    /// Whether it ever ran out of memory.
    pub fn is_lost(&self) -> bool
        ensures { result ≡ self.now.book.lost }
    {
        self.state.book.lost
    }

    /// How many strings it handled, gave and took so far.
    pub fn share(&self) -> Share
        ensures { result ≡ self.now.book.share }
    {
        self.state.book.share
    }

    /// One turn.
    pub fn turn<P: Post<Seat = S>, Q: Sums<Seat = T>>(&mut self, post: &mut P, sums: &mut Q) -> Turn
        requires ready { Ready J.log P.shows P.seats Q.shows Q.seats self.old post.old sums.old }
        requires unfinished { (Q.shows self.old.sums_seat).answer ≡ None }
        ensures ready { Ready J.log P.shows P.seats Q.shows Q.seats self.new post.new sums.new }
        ensures turned { Turned J.log J.heard J.plain P.shows P.tells P.seats result self.old post.old self.new post.new }
        ensures others { (other : S) → (P.shows other).number ≢ self.old.me → P.seats post.old other → P.seats post.new other }
        ensures sums_others { (other : T) → (Q.shows other).number ≢ self.old.me → Q.seats sums.old other → Q.seats sums.new other }
        ensures sums_still { Q.tells sums.old ≡ None → sums.new ≡ sums.old }

        // It waits for an answer before it is done, and for final sums after that. Once it is done nothing happens at the board.
        ensures waits { result ≡ TurnWaited → is_done self.old ≡ false → Waits self.old.me (P.tells post.new) }
        ensures ended { result ≡ TurnEnded → (is_done self.new ≡ true) × ((Q.shows self.new.sums_seat).answer ≢ None) }
        ensures unfinished { result ≢ TurnEnded → (Q.shows self.new.sums_seat).answer ≡ None }
        ensures stopped { result ≡ TurnStopped → self.new.stopped ≡ true }
        ensures goes { result ≢ TurnStopped → self.new.stopped ≡ self.old.stopped }
        ensures late { result ≡ TurnWaited → is_done self.old ≡ true → IfSome (Q.tells sums.old) (Finishes (Q.shows self.old.sums_seat).number None) }

        // Before it is done a rank with others below it at the sums shows in each turn the counts of itself and of them. Any rank
        // does so after it handled a string.
        ensures sums { is_done self.old ≡ false → (IsLeaf (Q.shows self.old.sums_seat) → length (J.log self.old.job) < length (J.log self.new.job))
            → IfSome (Q.tells sums.old) (AddsUp (Q.shows self.new.sums_seat)) }
        ensures over { is_done self.old ≡ true → (result ≢ TurnWent) × (result ≢ TurnStopped) × (is_done self.new ≡ true) × (post.new ≡ post.old) }
    {
        let done = self.state.is_done();
        if done {
            let turn = self.state.finish(sums);
            settle(&mut self.state.queue, &self.state.book, self.state.alloc);
            return turn;
        }
        let did = self.state.work(post);
        self.state.tally(sums, did);
        settle(&mut self.state.queue, &self.state.book, self.state.alloc);
        as_turn(did)
    }
}

impl<J: Job, S, T> RankState<J, S, T> {
    /// Whether it does nothing more at the board.
    fn is_done(&self) -> bool
        ensures { result ≡ is_done self.now }
    {
        self.ended || self.stopped
    }

    /// The part of a turn at the board, before the rank is done.
    fn work<P: Post<Seat = S>>(&mut self, post: &mut P) -> Did
        requires ready { AtWork P.shows P.seats self.old post.old }
        requires bounded { self.old.book.lost ≡ false → Bounded J.log P.shows self.old }
        ensures came { Came J.log J.plain P.shows P.tells P.seats
            (Works J.heard P.shows P.tells result self.old post.old self.new) self.old post.old self.new post.new }
        ensures bounded { self.new.book.lost ≡ false → Bounded J.log P.shows self.new }
        ensures waits { result ≡ DidWait → Waits self.old.me (P.tells post.new) }
        ensures handled { result ≡ DidHandle → self.new.book.lost ≡ false → length (J.log self.new.job) ≡ length (J.log self.old.job) + 1 }
        ensures other { result ≢ DidHandle → J.log self.new.job ≡ J.log self.old.job }
        ensures stopped { result ≡ DidStop → self.new.stopped ≡ true }
        ensures goes { result ≢ DidStop → self.new.stopped ≡ false }
    {
        let due = self.has_done_all();
        let ring = self.hear(post);
        if let Ring::Over = ring {
            return Did::Acted;
        }
        let halts = is_to_halt(due, ring);
        if halts {
            return self.wind_up(post, tells_first(due, ring));
        }
        let some = self.serve(post, true);
        settle(&mut self.queue, &self.book, self.alloc);
        let did = self.go_on(post, ring);
        let all = self.has_done_all();
        let last = halts_by(did, all);
        self.tell_halt(post, last);
        in_all(some, did)
    }

    /// Counts a string that was handled, and shows the counts of this rank and those below it.
    fn tally<Q: Sums<Seat = T>>(&mut self, sums: &mut Q, did: Did)
        requires seat { Q.seats sums.old self.old.sums_seat }
        requires number { (Q.shows self.old.sums_seat).number ≡ self.old.me }
        requires unfinished { (Q.shows self.old.sums_seat).answer ≡ None }
        requires few { self.old.me < 64 }
        requires narrow { self.old.options.width ≤ 64 }
        requires ranks { (Q.shows self.old.sums_seat).n ≡ self.old.options.ranks }
        requires width { (Q.shows self.old.sums_seat).width ≡ self.old.options.width }
        ensures same { self.new ≡ record self.old { sums_seat = self.new.sums_seat; book = self.new.book } }
        ensures book { self.new.book ≡ record self.old.book { sums = self.new.book.sums; lost = self.new.book.lost } }
        ensures lost { self.old.book.lost ≡ true → self.new.book.lost ≡ true }
        ensures unfinished { (Q.shows self.new.sums_seat).answer ≡ None }
        ensures ready { (strings : ℕ) → SumsReady Q.shows Q.seats strings self.old sums.old
            → SumsReady Q.shows Q.seats (tallied did strings) self.new sums.new }
        ensures adds_up { (IsLeaf (Q.shows self.old.sums_seat) → did ≡ DidHandle) → IfSome (Q.tells sums.old) (AddsUp (Q.shows self.new.sums_seat)) }
        ensures others { (other : T) → (Q.shows other).number ≢ self.old.me → Q.seats sums.old other → Q.seats sums.new other }
        ensures still { Q.tells sums.old ≡ None → sums.new ≡ sums.old }
    {
        match did {
            Did::Handled => {
                sums.raise(&mut self.sums_seat, 1);
                self.show(sums);
            }
            _ => {
                if self.me * self.options.width + 1 < self.options.ranks {
                    self.show(sums);
                }
            }
        }
    }

    /// Shows the counts of this rank and those below it. Rank 0 keeps their sum as a number of progress.
    fn show<Q: Sums<Seat = T>>(&mut self, sums: &mut Q)
        requires seat { Q.seats sums.old self.old.sums_seat }
        requires unfinished { (Q.shows self.old.sums_seat).answer ≡ None }
        ensures same { self.new ≡ record self.old { sums_seat = self.new.sums_seat; book = self.new.book } }
        ensures book { self.new.book ≡ record self.old.book { sums = self.new.book.sums; lost = self.new.book.lost } }
        ensures lost { self.old.book.lost ≡ true → self.new.book.lost ≡ true }
        ensures mine { Q.seats sums.new self.new.sums_seat }
        ensures others { (other : T) → (Q.shows other).number ≢ (Q.shows self.old.sums_seat).number → Q.seats sums.old other → Q.seats sums.new other }
        ensures still { Q.tells sums.old ≡ None → sums.new ≡ sums.old }
        ensures shown { Q.shows self.new.sums_seat ≡ refreshed (Q.shows self.new.sums_seat).word (Q.shows self.old.sums_seat) }
        ensures rises { (Q.shows self.old.sums_seat).word ≤ (Q.shows self.new.sums_seat).word }
        ensures adds_up { IfSome (Q.tells sums.old) (AddsUp (Q.shows self.new.sums_seat)) }
        ensures alone { IsLeaf (Q.shows self.old.sums_seat) → (Q.shows self.new.sums_seat).word ≡ (Q.shows self.old.sums_seat).count }
        ensures more { self.old.me ≡ 0 → self.new.book.lost ≡ false → newest 0 self.old.book.sums.items + 1000 ≤ (Q.shows self.new.sums_seat).word
            → self.new.book.sums.items ≡ self.old.book.sums.items ++ (Q.shows self.new.sums_seat).word ∷ [] }
        ensures few { self.old.me ≡ 0 → self.new.book.lost ≡ false → (Q.shows self.new.sums_seat).word < newest 0 self.old.book.sums.items + 1000
            → self.new.book.sums.items ≡ self.old.book.sums.items }
        ensures rest { self.old.me ≢ 0 → self.new.book ≡ self.old.book }
    {
        sums.refresh(&mut self.sums_seat);
        if self.me > 0 {
            return;
        }
        let word = sums.shown(&mut self.sums_seat);
        self.book.keep(word);
    }

    /// Asks for the final sum. Rank 0 keeps it as the last number of progress.
    fn finish<Q: Sums<Seat = T>>(&mut self, sums: &mut Q) -> Turn
        requires seat { Q.seats sums.old self.old.sums_seat }
        requires unfinished { (Q.shows self.old.sums_seat).answer ≡ None }
        ensures same { self.new ≡ record self.old { sums_seat = self.new.sums_seat; book = self.new.book } }
        ensures book { self.new.book ≡ record self.old.book { sums = self.new.book.sums; lost = self.new.book.lost } }
        ensures lost { self.old.book.lost ≡ true → self.new.book.lost ≡ true }
        ensures ready { (strings : ℕ) → SumsReady Q.shows Q.seats strings self.old sums.old → SumsReady Q.shows Q.seats strings self.new sums.new }
        ensures others { (other : T) → (Q.shows other).number ≢ (Q.shows self.old.sums_seat).number → Q.seats sums.old other → Q.seats sums.new other }
        ensures still { Q.tells sums.old ≡ None → sums.new ≡ sums.old }
        ensures ended { result ≡ TurnEnded → (Q.shows self.new.sums_seat).answer ≢ None }
        ensures unfinished { result ≢ TurnEnded → (Q.shows self.new.sums_seat).answer ≡ None }
        ensures late { result ≡ TurnWaited → IfSome (Q.tells sums.old) (Finishes (Q.shows self.old.sums_seat).number None) }
        ensures over { (result ≢ TurnWent) × (result ≢ TurnStopped) }
    {
        match sums.finish(&mut self.sums_seat) {
            None => Turn::Waited,
            Some(sum) => {
                if self.me == 0 {
                    self.book.keep_last(sum);
                }
                Turn::Ended
            }
        }
    }
}

// The result of a turn before the end.
fn as_turn(did: Did) -> Turn
    ensures { result ≡ turn_of did }
{
    match did {
        Did::Waited => Turn::Waited,
        Did::Stopped => Turn::Stopped,
        _ => Turn::Went,
    }
}

/// The action of a rank in its whole turn: `some` says whether any rank asked it.
pub(crate) fn in_all(some: bool, did: Did) -> Did
    ensures { result ≡ with_service some did }
{
    match did {
        Did::Waited => { if some { Did::Acted } else { Did::Waited } }
        _ => did,
    }
}

// A rank that ran out of memory has no string.
fn settle(queue: &mut RankQueue, book: &Book, alloc: Global)
    ensures lost { book.now.lost ≡ true → queue.new ≡ [] }
    ensures kept { book.now.lost ≡ false → queue.new ≡ queue.old }
{
    if book.lost {
        *queue = RankQueue::make(alloc);
    }
}
