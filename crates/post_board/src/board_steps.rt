//! The steps of calls on the words of a board: each method is one step on one word, or on the slot that the seat took last.
//!
//! The codes of words are those of `specs/Words.antt`: `8 * rank + 1` asks the rank, `+ 2` is served by it, `+ 3` was filled by it,
//! `+ 4` is being emptied of what it gave, `+ 5` was refused by it, and 0 rests.
ghost use Rattle.std.specs.Prelude.{◌≡◌, ◌≢◌, ℕ, ◌+◌, ◌-◌, ◌^◌, ◌<◌, ◌≤◌, ◌⊎◌, ◌∷◌, ◌==◌, true, false, Some, None};
ghost use Rattle.atomic_table.specs.Table.{rest};
ghost use Rattle.ring_core.specs.World.{darker, is_over};
ghost use Rattle.ring_core.specs.Step.{is_at};
ghost use Rattle.ring_core.specs.declared.states.Colour.{Colour};
ghost use Rattle.ring_core.specs.declared.states.Colour.TheVariants.{White, Black};
ghost use Rattle.ring_core.specs.declared.states.Token.TheVariants.{At, Over};
ghost use Rattle.post_board.specs.Shown.{Strings};
ghost use Rattle.post_board.specs.Words.{sign, resting, asking, serving, full, fetching, emptied, word_of, token_read, word_of_token, has_bit as has_bit_of};
ghost use Rattle.post_board.specs.BoardRule.{serves, OwnFits};
ghost use Rattle.post_board.specs.BoardSteps.{SeatState, noted, knows, knowing, after_ask, after_look, front, after_post};
ghost use Rattle.post_board.specs.BoardSteps.{after_refusing, after_fetch, after_rest, heard_at, after_pass, after_restart, after_conclude};
ghost use Rattle.post_board.specs.LateSteps.{after_halt, halt_seen, after_stop, after_stops};
ghost use Rattle.post_board.specs.BoardWork.{Mine, TookUp, TookNone};
ghost use Rattle.post_board.specs.declared.board_views.OwnMailbox.TheVariants.{Resting, Open, Left, Filled, Emptied, Getting};

use crate::board_rules::{
    Ask, Conclude, Fetch, LoadHalt, LoadRing, LoadStops, Look, Pass, PostBatch, PostNone, Rest,
    RestEmpty, Restart, Scan, SetHalt, Stop, TakeUp, Withdraw,
};
use crate::board_views::View;
use crate::boards::Board;
use atomic_table::Seat;
use rank_queue::Batch;

impl Board {
    /// Asks the rank `victim`.
    pub(crate) fn ask_step(&self, seat: &mut Seat<Option<Batch>, View>, me: u32, victim: u32)
        requires mine { Mine self.now seat.old.table_id seat.old.me me }
        requires rests { seat.old.me.0.own.own ≡ Resting }
        requires victim { (victim < self.now.n) × (victim ≢ me) }
        ensures table { seat.new.table_id ≡ seat.old.table_id }
        ensures after { (found : ℕ) × (sign found ≡ resting) × (seat.new.me ≡ knowing seat.old.me (after_ask seat.old.me.0.own victim (me + 1) found)) }
    {
        let word = me as usize + 1;
        self.table
            .shared
            .swap::<Ask>(seat, word, 8 * (victim as u64) + 1);
    }

    /// Looks at the own mailbox, with an open request.
    pub(crate) fn look_step(&self, seat: &mut Seat<Option<Batch>, View>, me: u32) -> u64
        requires mine { Mine self.now seat.old.table_id seat.old.me me }
        requires open { (v : ℕ) × (seat.old.me.0.own.own ≡ Open v) }
        ensures table { seat.new.table_id ≡ seat.old.table_id }
        ensures fits { OwnFits seat.old.me.0.own.own (sign result) }
        ensures after { seat.new.me ≡ knowing seat.old.me (after_look seat.old.me.0.own (me + 1) result) }
    {
        let word = me as usize + 1;
        self.table.shared.load::<Look>(seat, word)
    }

    /// Takes up the request of the rank `r`, if there is one. Answers whether there was.
    pub(crate) fn take_step(&self, seat: &mut Seat<Option<Batch>, View>, me: u32, r: u32) -> bool
        requires mine { Mine self.now seat.old.table_id seat.old.me me }
        requires other { (r < self.now.n) × (r ≢ me) }
        ensures table { seat.new.table_id ≡ seat.old.table_id }
        ensures hit { result ≡ true → TookUp me r seat.old.me seat.new.me }
        ensures miss { result ≡ false → TookNone me r seat.old.me seat.new.me }
    {
        let asks = 8 * (me as u64) + 1;
        let word = r as usize + 1;
        let found = self
            .table
            .shared
            .compare_exchange::<TakeUp>(seat, word, asks, 8 * (me as u64) + 2);
        found == asks
    }

    /// Looks at the mailbox of the rank `r`.
    pub(crate) fn scan_step(&self, seat: &mut Seat<Option<Batch>, View>, me: u32, r: u32) -> u64
        requires mine { Mine self.now seat.old.table_id seat.old.me me }
        requires other { r < self.now.n }
        ensures table { seat.new.table_id ≡ seat.old.table_id }
        ensures hit { result ≡ word_of (asking me) → seat.new.me ≡ seat.old.me }
        ensures miss { result ≢ word_of (asking me) → seat.new.me ≡ knowing seat.old.me (noted seat.old.me.0.own (r + 1) result result) }
    {
        let word = r as usize + 1;
        self.table.shared.load::<Scan>(seat, word)
    }

    /// Looks at the mailbox of the rank `r`, and takes its request up if it asks this rank. Answers whether it did.
    pub(crate) fn look_at(&self, seat: &mut Seat<Option<Batch>, View>, me: u32, r: u32) -> bool
        requires mine { Mine self.now seat.old.table_id seat.old.me me }
        requires other { (r < self.now.n) × (r ≢ me) }
        ensures table { seat.new.table_id ≡ seat.old.table_id }
        ensures hit { result ≡ true → TookUp me r seat.old.me seat.new.me }
        ensures miss { result ≡ false → TookNone me r seat.old.me seat.new.me }
    {
        let found = self.scan_step(seat, me, r);
        if found != 8 * (me as u64) + 1 {
            return false;
        }
        self.take_step(seat, me, r)
    }

    /// Lays a batch into the slot that was taken last.
    pub(crate) fn fill_slot(&self, seat: &mut Seat<Option<Batch>, View>, to: u32, batch: Batch)
        requires table { seat.old.table_id ≡ self.now.table.shared.table_id }
        requires slot { seat.old.me.1 ≡ (to, None) ∷ rest seat.old.me.1 }
        ensures table { seat.new.table_id ≡ seat.old.table_id }
        ensures filled { seat.new.me ≡ (seat.old.me.0, (to, Some batch) ∷ rest seat.old.me.1) }
    {
        let _ = self.table.shared.exchange(seat, to as usize, Some(batch));
    }

    /// Gives the slot back, and tells the rank `to` that it is full.
    pub(crate) fn post_step(&self, seat: &mut Seat<Option<Batch>, View>, me: u32, to: u32)
        requires mine { Mine self.now seat.old.table_id seat.old.me me }
        requires to { (to < self.now.n) × (serves seat.old.me.0.own to ≡ true) }
        requires busy { seat.old.me.0.own.busy ≡ true }
        requires slot { (b : Strings) × (seat.old.me.1 ≡ (to, Some b) ∷ rest seat.old.me.1) }
        ensures table { seat.new.table_id ≡ seat.old.table_id }
        ensures after { (found : ℕ) × (sign found ≡ serving me)
            × (seat.new.me ≡ (knows seat.old.me.0 (after_post seat.old.me.0.own to (to + 1) found (front seat.old.me.1)), rest seat.old.me.1)) }
    {
        let word = to as usize + 1;
        self.table
            .shared
            .swap::<PostBatch>(seat, word, 8 * (me as u64) + 3);
    }

    /// Gives the slot back empty, and tells the rank `to` that there is nothing for it.
    pub(crate) fn refuse_step(&self, seat: &mut Seat<Option<Batch>, View>, me: u32, to: u32)
        requires mine { Mine self.now seat.old.table_id seat.old.me me }
        requires to { (to < self.now.n) × (serves seat.old.me.0.own to ≡ true) }
        requires slot { seat.old.me.1 ≡ (to, None) ∷ rest seat.old.me.1 }
        ensures table { seat.new.table_id ≡ seat.old.table_id }
        ensures after { (found : ℕ) × (sign found ≡ serving me)
            × (seat.new.me ≡ (knows seat.old.me.0 (after_refusing seat.old.me.0.own to (to + 1) found), rest seat.old.me.1)) }
    {
        let word = to as usize + 1;
        self.table
            .shared
            .swap::<PostNone>(seat, word, 8 * (me as u64) + 5);
    }

    /// Takes the own slot, into which the rank `from` laid a batch.
    pub(crate) fn fetch_step(&self, seat: &mut Seat<Option<Batch>, View>, me: u32, from: u32)
        requires mine { Mine self.now seat.old.table_id seat.old.me me }
        requires full { seat.old.me.0.own.own ≡ Filled from }
        ensures table { seat.new.table_id ≡ seat.old.table_id }
        ensures after { (found : ℕ) × (b : Strings) × (sign found ≡ full from)
            × (seat.new.me ≡ (knows seat.old.me.0 (after_fetch seat.old.me.0.own from (me + 1) found b), (me, Some b) ∷ seat.old.me.1)) }
    {
        let word = me as usize + 1;
        self.table
            .shared
            .swap::<Fetch>(seat, word, 8 * (from as u64) + 4);
    }

    /// Takes the batch out of the own slot.
    pub(crate) fn empty_slot(&self, seat: &mut Seat<Option<Batch>, View>, me: u32) -> Batch
        requires table { seat.old.table_id ≡ self.now.table.shared.table_id }
        requires full { (b : Strings) × (seat.old.me.1 ≡ (me, Some b) ∷ rest seat.old.me.1) }
        ensures table { seat.new.table_id ≡ seat.old.table_id }
        ensures was { seat.old.me.1 ≡ (me, Some result) ∷ rest seat.old.me.1 }
        ensures emptied { seat.new.me ≡ (seat.old.me.0, (me, None) ∷ rest seat.old.me.1) }
    {
        let slot = me as usize;
        let Some(batch) = self.table.shared.exchange(seat, slot, None) else {
            unreachable!()
        };
        batch
    }

    /// Gives the own slot back, and rests.
    pub(crate) fn rest_step(&self, seat: &mut Seat<Option<Batch>, View>, me: u32, from: u32)
        requires mine { Mine self.now seat.old.table_id seat.old.me me }
        requires gets { seat.old.me.0.own.own ≡ Getting from }
        requires slot { seat.old.me.1 ≡ (me, None) ∷ rest seat.old.me.1 }
        ensures table { seat.new.table_id ≡ seat.old.table_id }
        ensures after { (found : ℕ) × (sign found ≡ fetching from)
            × (seat.new.me ≡ (knows seat.old.me.0 (after_rest seat.old.me.0.own (me + 1) found seat.old.me.0.own.tried), rest seat.old.me.1)) }
    {
        let word = me as usize + 1;
        self.table.shared.swap::<Rest>(seat, word, 0);
    }

    /// Rests after a refusal.
    pub(crate) fn empty_step(&self, seat: &mut Seat<Option<Batch>, View>, me: u32, from: u32)
        requires mine { Mine self.now seat.old.table_id seat.old.me me }
        requires empty { seat.old.me.0.own.own ≡ Emptied from }
        ensures table { seat.new.table_id ≡ seat.old.table_id }
        ensures after { (found : ℕ) × (sign found ≡ emptied from) × (seat.new.me ≡ knowing seat.old.me (after_rest seat.old.me.0.own (me + 1) found true)) }
    {
        let word = me as usize + 1;
        self.table.shared.swap::<RestEmpty>(seat, word, 0);
    }

    /// Looks where the token is.
    pub(crate) fn ring_step(&self, seat: &mut Seat<Option<Batch>, View>, me: u32) -> u64
        requires mine { Mine self.now seat.old.table_id seat.old.me me }
        ensures table { seat.new.table_id ≡ seat.old.table_id }
        ensures after { seat.new.me ≡ knowing seat.old.me (heard_at (noted seat.old.me.0.own 0 result result) (token_read result)) }
        ensures over { token_read result ≡ Over → seat.old.me.0.own.busy ≡ false }
        ensures elsewhere { is_at (token_read result) me ≡ false → is_over (token_read result) ≡ false → 1 < self.now.n }
    {
        self.table.shared.load::<LoadRing>(seat, 0)
    }

    /// Passes the token on, as the word `new`.
    pub(crate) fn pass_step(
        &self,
        seat: &mut Seat<Option<Batch>, View>,
        me: u32,
        token: ring_core::Colour,
        new: u64,
    )
        requires mine { Mine self.now seat.old.table_id seat.old.me me }
        requires rests { seat.old.me.0.own.own ≡ Resting }
        requires tried { seat.old.me.0.own.tried ≡ true }
        requires here { seat.old.me.0.own.here ≡ Some token }
        requires above { 0 < me }
        requires word { new ≡ word_of_token (At (me - 1) (darker seat.old.me.0.own.colour token)) }
        ensures table { seat.new.table_id ≡ seat.old.table_id }
        ensures after { (found : ℕ) × (token_read found ≡ At me token) × (seat.new.me ≡ knowing seat.old.me (after_pass seat.old.me.0.own found new)) }
    {
        self.table.shared.swap::<Pass>(seat, 0, new);
    }

    /// Sends the token round once more, as the word `new`.
    pub(crate) fn restart_step(
        &self,
        seat: &mut Seat<Option<Batch>, View>,
        token: ring_core::Colour,
        new: u64,
    )
        requires mine { Mine self.now seat.old.table_id seat.old.me 0 }
        requires rests { seat.old.me.0.own.own ≡ Resting }
        requires tried { (self.now.n ≡ 1) ⊎ (seat.old.me.0.own.tried ≡ true) }
        requires here { seat.old.me.0.own.here ≡ Some token }
        requires black { darker seat.old.me.0.own.colour token ≡ Black }
        requires word { new ≡ word_of_token (At (self.now.n - 1) White) }
        ensures table { seat.new.table_id ≡ seat.old.table_id }
        ensures after { (found : ℕ) × (token_read found ≡ At 0 token) × (seat.new.me ≡ knowing seat.old.me (after_restart seat.old.me.0.own found new)) }
    {
        self.table.shared.swap::<Restart>(seat, 0, new);
    }

    /// Ends the run.
    pub(crate) fn conclude_step(&self, seat: &mut Seat<Option<Batch>, View>)
        requires mine { Mine self.now seat.old.table_id seat.old.me 0 }
        requires rests { seat.old.me.0.own.own ≡ Resting }
        requires tried { (self.now.n ≡ 1) ⊎ (seat.old.me.0.own.tried ≡ true) }
        requires here { seat.old.me.0.own.here ≡ Some White }
        requires white { seat.old.me.0.own.colour ≡ White }
        ensures table { seat.new.table_id ≡ seat.old.table_id }
        ensures after { (found : ℕ) × (token_read found ≡ At 0 White) × (seat.new.me ≡ knowing seat.old.me (after_conclude seat.old.me.0.own found 0)) }
    {
        self.table.shared.swap::<Conclude>(seat, 0, 0);
    }

    /// Tells all ranks to halt.
    pub(crate) fn halt_step(&self, seat: &mut Seat<Option<Batch>, View>, me: u32)
        requires mine { Mine self.now seat.old.table_id seat.old.me me }
        ensures table { seat.new.table_id ≡ seat.old.table_id }
        ensures after { (found : ℕ) × (seat.new.me ≡ knowing seat.old.me (after_halt seat.old.me.0.own (self.now.n + 1) found)) }
    {
        let word = self.n as usize + 1;
        self.table.shared.swap::<SetHalt>(seat, word, 1);
    }

    /// Looks whether all are to halt. A rank that told all to halt does see it.
    pub(crate) fn hear_step(&self, seat: &mut Seat<Option<Batch>, View>, me: u32) -> u64
        requires mine { Mine self.now seat.old.table_id seat.old.me me }
        ensures table { seat.new.table_id ≡ seat.old.table_id }
        ensures after { seat.new.me ≡ knowing seat.old.me (halt_seen (noted seat.old.me.0.own (self.now.n + 1) result result) (result == 1)) }
        ensures halted { seat.old.me.0.own.halted ≡ true → result ≡ 1 }
    {
        let word = self.n as usize + 1;
        self.table.shared.load::<LoadHalt>(seat, word)
    }

    /// Stops, at rest and serving nobody.
    pub(crate) fn stop_step(&self, seat: &mut Seat<Option<Batch>, View>, me: u32)
        requires mine { Mine self.now seat.old.table_id seat.old.me me }
        requires rests { seat.old.me.0.own.own ≡ Resting }
        requires idle { (r : ℕ) → serves seat.old.me.0.own r ≡ false }
        ensures table { seat.new.table_id ≡ seat.old.table_id }
        ensures after { (found : ℕ) × (seat.new.me ≡ knowing seat.old.me (after_stop seat.old.me.0.own (self.now.n + 2) found)) }
    {
        let word = self.n as usize + 2;
        self.table.shared.fetch_or::<Stop>(seat, word, bit_of(me));
    }

    /// Looks which ranks have stopped.
    pub(crate) fn stops_step(&self, seat: &mut Seat<Option<Batch>, View>, me: u32) -> u64
        requires mine { Mine self.now seat.old.table_id seat.old.me me }
        ensures table { seat.new.table_id ≡ seat.old.table_id }
        ensures after { seat.new.me ≡ knowing seat.old.me (after_stops seat.old.me.0.own (self.now.n + 2) result) }
        ensures inside { (v : ℕ) → seat.old.me.0.own.own ≡ Open v → v < self.now.n }
    {
        let word = self.n as usize + 2;
        self.table.shared.load::<LoadStops>(seat, word)
    }

    /// Takes back the request to the rank `victim`, which has stopped, if the own mailbox still asks it. Answers the word found there.
    pub(crate) fn withdraw_step(
        &self,
        seat: &mut Seat<Option<Batch>, View>,
        me: u32,
        victim: u32,
    ) -> u64
        requires mine { Mine self.now seat.old.table_id seat.old.me me }
        requires left { seat.old.me.0.own.own ≡ Left victim }
        ensures table { seat.new.table_id ≡ seat.old.table_id }
        ensures hit { result ≡ word_of (asking victim) → seat.new.me ≡ knowing seat.old.me (after_rest seat.old.me.0.own (me + 1) result true) }
        ensures miss { result ≢ word_of (asking victim) → ((sign result ≡ full victim) ⊎ (sign result ≡ emptied victim))
            × (seat.new.me ≡ knowing seat.old.me (after_look seat.old.me.0.own (me + 1) result)) }
    {
        let word = me as usize + 1;
        self.table
            .shared
            .compare_exchange::<Withdraw>(seat, word, 8 * (victim as u64) + 1, 0)
    }
}

/// The bit of the rank `r` in the word of the stops.
fn bit_of(r: u32) -> u64
    requires { r < 64 }
    ensures { result ≡ 2 ^ r }
{
    1 << r
}

/// Whether a word has the bit of the rank `r`.
pub(crate) fn has_bit(word: u64, r: u32) -> bool
    requires { r < 64 }
    ensures { result ≡ has_bit_of word r }
{
    (word >> r) % 2 == 1
}
