//! The pure world in which a parallel run ends: ranks, their mailboxes and the token, with no thread and no handle.
//!
//! Some ranks share the work on a list of strings. A rank without strings *asks* another one, by a request in its own
//! mailbox, which is called its desk. The other rank lays strings into that mailbox or refuses, and the asker takes the answer
//! out. So a string waits at a rank or lies in a mailbox. The token of EWD840 (Dijkstra, Feijen, van Gasteren) finds that all
//! is done. It goes round the ring from rank to rank, and each idle rank passes it on. A rank that gave to a higher one is
//! black and blackens the token. Rank 0 concludes when the token comes back white.
//!
//! - [`World`] is the ranks and the token; [`World::start`] deals the strings out.
//! - An [`Event`] is one atomic action of one rank. [`step`] takes it, or answers the first [`Reason`] against it.
//! - [`check_run`] takes a whole list of events, and answers a [`Verdict`] or names the first event that is not legal.
//! - [`text_of`] is the line of an event in a trace.
//!
//! ```text
//! let events = [Event::Restart { rank: 0 }, Event::Conclude { rank: 0 }];
//! let verdict = check_run(alloc, &events, 1, 0)?;   // one rank, no strings
//! assert!(verdict.over && verdict.queued == 0 && verdict.on_way == 0);
//! ```
//!
//! # What is proved
//!
//! [`step`] answers exactly the first reason in the order of [`Reason`], and else leaves exactly the world of the definition
//! (`specs/Step.antt`, a table by events). [`check_run`] does so with one event after the other, and its totals are exact. No
//! string is lost and none comes twice: the strings queued, on the way and handled are those dealt and those that came with
//! handled strings.
//!
//! The token invariant (`specs/Invariant.antt`) says where work can be while the token is under way, and that nothing is
//! active when the token says that all is over. Each event alone keeps it, from every world that has it
//! ([`event_keeps_invariant_of_world`]). The start has it ([`start_has_invariant`]), so every run keeps it
//! ([`run_keeps_invariant`]). Therefore **no rank learns of the end while a string is queued or on the way, whatever the order
//! of events** ([`no_rank_ends_early`]), and a verdict that is over has nothing left.
//!
//! The same is proved of *pictures* ([`event_keeps_invariant_of_picture`]; `specs/Picture.antt`), in which a rank is busy or
//! not, and has no number of strings. A board on which ranks act at the same time has a picture too, so such a board rests on
//! these proofs. A legal event is a step of the picture of its world ([`legal_event_is_step_of_picture`]). For each kind of
//! event `proofs/PictureLemmas.antt` has a lemma to cite, `handle_keeps_invariant` and so on; `calm_change_keeps_invariant`
//! there is for a change that is not an event.
//!
//! A table over atomic words has a seat for each rank. `proofs/SeatLemmas.antt` says which seats there are after one comes to
//! know more, makes the next one, or takes another in. `proofs/TogetherLemmas.antt` is for seats that come together at the end.
//! `post_board` and `sum_tree` cite both.
//!
//! Not promised: that a run comes to its end, or that a rank ever gets an answer.
#![tactic(auto)]

mod events;
mod laws;
mod runs;
mod states;
mod steps;
mod texts;
mod worlds;

pub use events::{Event, Reason};
pub use laws::{
    event_keeps_invariant_of_picture, event_keeps_invariant_of_world,
    legal_event_is_step_of_picture, no_rank_ends_early, run_keeps_invariant, start_has_invariant,
};
pub use runs::{RunError, Verdict, check_run};
pub use states::{Colour, Desk, RankState, Token};
pub use steps::step;
pub use texts::{put_event, text_of};
pub use worlds::World;
