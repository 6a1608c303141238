//! Ranks that have their turns in rounds on one thread.
ghost use Rattle.std.specs.Prelude.{◌≡◌, ◌≢◌, ℕ, ◌++◌, ◌<◌, ◌≤◌, [], length, true, false, Some, slice_index_or, OnOk, IfOk, None};
ghost use Rattle.post_board.specs.Told.{Told};
ghost use Rattle.circle_run.specs.Hosts.{IsAscending, NoneLost, NoneWrote, AreAll, Same, Placed, AllReady, AllEnded, Took, Ran, KeptByEach};
ghost use Rattle.circle_run.specs.Hosts.{KeptInOrder, AllAlone};
ghost use Rattle.circle_run.specs.declared.settings.Options.{Options};

use crate::idle::Idle;
use crate::jobs::Job;
use crate::ranks::{Rank, Turn};
use path_text::OutOfMemory;
use post_board::Post;
use ring_core::Event;
use std::marker::Model;
use std::sync::Wait;
use sum_tree::Sums;

/// Ranks that have their turns on one thread, in rounds and in ascending order. A contract sees it as their list.
pub struct Host<J, S, T> {
    ranks: Vec<Rank<J, S, T>>,
}

impl<J, S, T> Model for Host<J, S, T> {
    ghost use Rattle.std.specs.Prelude.{List};
    ghost use Rattle.circle_run.specs.declared.ranks.Rank.{Rank};

    ghost Value = { List (Rank J S T) };

    ghost view = { λ h. h.ranks.items };
}

impl<J: Job, S, T> Host<J, S, T> {
    /// A host of these ranks, in ascending order.
    pub fn make(ranks: Vec<Rank<J, S, T>>) -> Host<J, S, T>
        requires { IsAscending ranks.items }
        ensures { result ≡ ranks.items }
    {
        Host { ranks }
    }

    /// Rounds in which each rank that is not done has a turn, until all are done. The ranks come back in their order.
    pub fn run<R: Wait, P: Post<Seat = S>, Q: Sums<Seat = T>>(
        self,
        rt: &R,
        post: &mut P,
        sums: &mut Q,
    ) -> Vec<Rank<J, S, T>>
        requires order { IsAscending self }
        requires ready { AllReady J.log P.shows P.seats Q.shows Q.seats self post.old sums.old }
        ensures ended { AllEnded J.log P.shows P.seats Q.shows Q.seats result.items post.new sums.new }
        ensures same { Same J.plain self result.items }

        // Over a board that tells its places, if these are all ranks and none ran out of memory: the turns are played.
        ensures ran { (o : Options) (t : Told) → AreAll o self → P.tells post.old ≡ Some t → NoneLost result.items
            → Ran J.log P.tells (KeptByEach o self result.items) o t self result.items post.new }

        // A board, and sums, that tell nothing stay the same value.
        ensures still { P.tells post.old ≡ None → post.new ≡ post.old }
        ensures sums_still { Q.tells sums.old ≡ None → sums.new ≡ sums.old }

        // Over a board that tells nothing: each that did not run out of memory made moves of its own, whether others did or not.
        ensures alone { P.tells post.old ≡ None → (P.tells post.new ≡ None) × AllAlone J.log P.shows self result.items }
    {
        let Host { mut ranks } = self;
        let mut done = unset();
        let mut idle = Idle::make();
        for _ in rt.forever() {
            for k in 0..ranks.len() {
                ranks[k].step(&mut done[k], post, sums);
            }
            if all_set(&done, ranks.len()) {
                return ranks;
            }
            idle.rest(rt, &ranks);
        }
        unreachable!()
    }

    /// The same, with all events in their order, which move from the ranks behind `events` after each turn. Fails once a rank has
    /// run out of memory, or if there is none for the events.
    pub(crate) fn run_traced<R: Wait, P: Post<Seat = S>, Q: Sums<Seat = T>>(
        self,
        rt: &R,
        post: &mut P,
        sums: &mut Q,
        events: &mut Vec<Event>,
    ) -> Result<Vec<Rank<J, S, T>>, OutOfMemory>
    where
        J: Drop,
        S: Drop,
        T: Drop,
        requires order { IsAscending self }
        requires ready { AllReady J.log P.shows P.seats Q.shows Q.seats self post.old sums.old }
        requires unwritten { NoneWrote self }
        requires empty { events.old.items ≡ [] }
        ensures ended { IfOk result (λ ranks. AllEnded J.log P.shows P.seats Q.shows Q.seats ranks.items post.new sums.new) }
        ensures same { IfOk result (λ ranks. Same J.plain self ranks.items) }
        ensures unwritten { IfOk result (λ ranks. NoneWrote ranks.items) }
        ensures ran { IfOk result (λ ranks. (o : Options) (t : Told) → AreAll o self → P.tells post.old ≡ Some t
            → Ran J.log P.tells (KeptInOrder o events.new.items) o t self ranks.items post.new) }
    {
        let Host { mut ranks } = self;
        let mut done = unset();
        for _ in rt.forever() {
            for k in 0..ranks.len() {
                let rank = &mut ranks[k];
                rank.step(&mut done[k], post, sums);
                rank.hand_over(events)?;
            }
            if all_set(&done, ranks.len()) {
                return Ok(ranks);
            }
        }
        unreachable!()
    }
}

impl<J: Job, S, T> Rank<J, S, T> {
    /// A turn, unless the rank is done. Notes when it is.
    pub(crate) fn step<P: Post<Seat = S>, Q: Sums<Seat = T>>(
        &mut self,
        done: &mut bool,
        post: &mut P,
        sums: &mut Q,
    )
        requires { Placed J.log P.shows P.seats Q.shows Q.seats done.old self.old post.old sums.old }
        ensures placed { Placed J.log P.shows P.seats Q.shows Q.seats done.new self.new post.new sums.new }
        ensures took { Took J.log J.plain P.shows P.tells P.seats self.old post.old self.new post.new }
        ensures others { (other : S) → (P.shows other).number ≢ self.old.me → P.seats post.old other → P.seats post.new other }
        ensures sums_others { (other : T) → (Q.shows other).number ≢ self.old.me → Q.seats sums.old other → Q.seats sums.new other }
        ensures sums_still { Q.tells sums.old ≡ None → sums.new ≡ sums.old }
    {
        if *done {
            return;
        }
        match self.turn(post, sums) {
            Turn::Ended => *done = true,
            _ => {}
        }
    }

    /// Moves its events behind these.
    pub(crate) fn hand_over(&mut self, events: &mut Vec<Event>) -> Result<(), OutOfMemory>
        ensures rest { self.new ≡ record self.old { book = record self.old.book { events = self.new.book.events } } }
        ensures found { OnOk result (self.old.book.lost ≡ false) }
        ensures moved { OnOk result (events.new.items ≡ events.old.items ++ self.old.book.events.items) }
        ensures emptied { OnOk result (self.new.book.events.items ≡ []) }
    {
        if self.state.book.lost {
            return Err(OutOfMemory);
        }
        events.append(&mut self.state.book.events)?;
        Ok(())
    }
}

// Flags of as many ranks as there may be, none of which is set.
fn unset() -> [bool; 64]
    ensures long { length result ≡ 64 }
    ensures unset { (k : ℕ) → slice_index_or result k false ≡ false }
{
    [false; 64]
}

// Whether all these flags are set.
fn are_set(flags: &[bool]) -> bool
    ensures { result ≡ true → (k : ℕ) → k < length flags.now → slice_index_or flags.now k false ≡ true }
{
    flags.iter().all(|flag| *flag)
}

// Whether the flags of so many ranks are set.
fn all_set(flags: &[bool; 64], ranks: usize) -> bool
    requires { ranks ≤ length flags.now }
    ensures { result ≡ true → (k : ℕ) → k < ranks → slice_index_or flags.now k false ≡ true }
{
    are_set(&flags[..ranks])
}
