//! The board over which ranks share strings: mailboxes, in which one asks another for strings and gets some or is refused,
//! and the token, which finds that all is done.
//!
//! Each rank has a seat, and acts on the board by the calls of [`Post`]. A rank without strings *asks* another one, which
//! *takes the request up* ([`Post::next_request`]) and *gives* some or *refuses*; the asker finds the answer in its mailbox
//! ([`Post::answer`]). It looks where the token is ([`Post::ring`]), and *passes* it on; rank 0 sends it round once more
//! (*restart*) or ends the run (*conclude*). A rank may tell all to *halt*, and may *stop*; after a stop it does nothing more.
//! When all ranks have ended or stopped, their seats are *gathered*. The pure world of the crate `ring_core` says the meaning of
//! these events for the whole.
//!
//! - [`Post`] is the trait, whose contract each board meets: no call waits, and none takes memory.
//! - [`PlainBoard`] is a board for ranks that act in turn on one thread, and [`PlainSeat`] its seats.
//! - [`Board`] is a board of atomic words, which threads share: `Post` is implemented for `&Board`, and [`BoardSeat`] are its seats.
//! - Calls answer [`Answer`], [`Ring`] and [`Gathered`]; a [`Reading`] is a step on a word of a board.
//!
//! ```text
//! let (mut board, mut seats) = PlainBoard::make(alloc, 2)?;   // rank 0 and rank 1, both busy
//! let one = &mut seats[1];                                    // rank 1 has no strings any more
//! board.ask(one, 0);
//! match board.answer(one) {
//!     Answer::Pending => {}                                   // rank 0 has not answered yet
//!     Answer::Nothing => {}                                   // refused: rank 1 has tried
//!     Answer::Work(batch) => work_on(batch),                  // what rank 0 gave
//! }
//! ```
//!
//! # The contract
//!
//! A seat *shows* its rank's knowledge (`Shown` in `specs/Shown.antt`), and each call is one equation on it: all that the call
//! does to the seat, and that nothing else changes. A board may *tell* its picture, with the batches on their way (`Told`). Then
//! each call but `gather` is a *deed* (`specs/Deeds.antt`), or is *late*, which is not an event of the world: a halt, a stop, or a
//! request that is taken back from a rank that has stopped. It is legal on the told picture, and afterwards the board tells the
//! picture that it leaves. A seat may tell the *readings* that its calls made (`specs/Readings.antt`). So two clauses give the cause
//! of each answer, by the told picture and by the readings, and a board tells one or the other. Which seats are a board's own is a
//! member of the trait (`seats`). Each call keeps its own seat and every seat of another number, and a seat shows the facts that
//! its board tells.
//!
//! A rank hears of a *halt* when it looks for the token ([`Ring::Halted`]), unless it sees the end; one that told all to halt always
//! does. A rank that asked one that has *stopped* gets the batch that was given before the stop, or the refusal. Else its request
//! is taken back, and the answer is [`Answer::Nothing`], so it never waits for a rank that has stopped. The callers decide the
//! meaning of a halt. If a gathered seat knows of a halt, one of the gathered seats told all to halt.
//!
//! # The board of atomic words
//!
//! A [`Board`] has a word for the ring, a word for each rank's mailbox, and a slot for each rank, in which a batch for it waits. A
//! call is one atomic step on each word that it names, with no lock, no wait and no loop that tries again. The knowledge of its
//! seats, and the words and slots, keep a rule between any two steps, whatever the threads do (`specs/BoardRule.antt`; in
//! `specs/BoardMoments.antt` without the codes of words). [`board_is_sound_at_every_moment`] says that its picture came about by
//! legal deeds alone, and that the token invariant holds. The batches that each rank took from each other one, with those on the
//! way, are those that the other gave, in order. **No rank's seat sees the end while a rank is busy or a batch is on the way**.
//!
//! A slot is with the rank that serves its owner from the taking up until the answer, and with its owner while the owner takes the
//! batch out. A rank looks for requests by a load of each mailbox. If it read a request to itself, it takes it up by a
//! compare_exchange. A board of words tells no picture, since its words change all the time; its seats tell their readings and keep
//! their batches. Each step is one deed on the picture, or none ([`board_steps_are_deeds`]).
//!
//! The steps of a halt and of stops keep the rule too ([`late_steps_keep_the_rule`]). A look at the ring is followed by one at the
//! halt, unless it read the end, and a look at the own mailbox comes after one at the stops. If the bit of the asked rank is set
//! there, a compare_exchange that expects the request puts the mailbox to rest. It fails if an answer lies there, which is then
//! taken.
//!
//! # What is proved
//!
//! [`PlainBoard`] meets the contract and tells its picture. [`PlainBoard::make`] says exactly how board and seats begin. Three laws
//! hold for every board that tells its picture. A legal deed is its event on the picture ([`deeds_are_events`]). It keeps the token
//! invariant with the facts that go with it ([`deeds_keep_sound`]), and so does a late call ([`late_keeps_sound`]). A plain board
//! that has a seat always has that invariant ([`told_is_sound`]). So when a rank sees the end, no rank is busy and no batch is on
//! the way. Words of mailboxes and of the ring are read back as they were written ([`words_are_read_back`]).
//!
//! [`Board`] meets the same contract, by the rule of the part above; [`Board::make`] says exactly how its seats begin.
//!
//! Not promised: that a rank ever gets an answer, or that the token comes back. The seats of a plain board tell no readings and
//! keep no batches, since the board tells both better. No clause of a call says which board a reference to a `Board` names after
//! it; a seat of another rank shows that it is the same one.
#![tactic(auto)]

mod answers;
mod askers;
mod board_answers;
mod board_batches;
mod board_gathers;
mod board_makes;
mod board_posts;
mod board_rules;
mod board_steps;
mod board_views;
mod boards;
mod laws;
mod plain_boards;
mod plain_posts;
mod plain_ranks;
mod plain_seats;
mod posts;
mod ring_words;

pub use answers::{Answer, Gathered, Reading, Ring};
pub use boards::{Board, BoardSeat};
pub use laws::{
    board_is_sound_at_every_moment, board_steps_are_deeds, deeds_are_events, deeds_keep_sound,
    late_keeps_sound, late_steps_keep_the_rule, told_is_sound, words_are_read_back,
};
pub use plain_boards::PlainBoard;
pub use plain_seats::PlainSeat;
pub use posts::Post;
