//! Work that ranks do together, each on a queue of strings of its own, in the manner of libcircle.
//!
//! A string is work, here a path. A [`Job`] handles each string of a rank, and pushes the strings that follow from it. [`begin`]
//! deals the starts to the ranks, has each rank handle the newest of its own until none is left anywhere, and gives the jobs
//! back with their results.
//!
//! ```text
//! starts ── deal ──> queue of a rank ── newest ──> Job::handle ──> its log
//!                         ^                             │
//!                         └────── strings pushed ───────┘
//! ```
//!
//! A contract sees a job as its *log*: the strings that it handled, in order, each with the strings pushed for it. A job also
//! has *plain data*, which no handling changes, so that a caller knows its jobs again.
//!
//! A [`Rank`] does the work of one rank beside others. It takes turns at a board, where ranks ask each other for strings and pass
//! a token that finds the end, and at sums, where they add up their counts of handled strings. It knows both by the contracts
//! of `Post` and `Sums` alone. In a [`Rank::turn`]:
//!
//! ```text
//! is all over? ──> serve all that ask ──> the first of these that applies: handle the newest string;
//!                  (the oldest strings)   look for the answer to a request; move the token; ask at random
//! ```
//!
//! Then the rank counts the string that it handled. After the end a turn asks for the final sum. In a run that stops after some
//! number, a rank that has handled as many tells all to halt. A rank that hears this refuses all that ask. Then it looks for the
//! answer to its open request, or stops if none is open.
//!
//! Proved of a turn, whatever the job, the board and the sums do, unless the rank ran out of memory: it is moves of a turn. The
//! rank saw the end; or it made a service and then the first move of the picture that applies, by the strings that wait after the
//! service and by the ring. The ring is as the board tells, or as the seat shows. The moves lead from its queue, log, drawn words
//! and the told board to those after the turn. The amounts are those of the split, the victims are drawn at random, and nobody is
//! left that asks. Its events, if they are kept, and its share are those of the moves. A job that keeps the numbers of waiting
//! strings heard the length of the queue without its string. A turn waits only for an answer or for a final sum that is not there.
//! Its count at the sums is the length of its log. A rank with ranks below it at the sums shows in each turn before its end the
//! counts of itself and of them. Each number of progress but the last is at least 1,000 above the one before it. The rank passes
//! over none of those that it was shown, and the last is the final sum. A rank that ran out of memory has no string and goes on to
//! the end.
//!
//! A [`Host`] has ranks and gives each that is not done a turn, in rounds and in ascending order, until all are done. Proved: the
//! ranks come back in their order, and plain data are as before. Each rank has seen the end or has stopped, and knows the final
//! sum. Over a board that tells its places, if the host has all ranks and none ran out of memory, their turns are played one after
//! the other, and each share counts the moves of its rank. A board, or sums, that tell nothing stay the same value; there each
//! rank made moves of its own, which its share counts.
//!
//! Proved of [`begin`], whatever the job does: the run is *balanced*. Each string was handled or is left as often as it was a
//! start or was pushed ([`balance_is_as_often`]), so no string is lost and none is handled more often. Nothing is left unless the
//! run stops after some number. Then no rank handles more strings than that, and something is left only if some rank handled as
//! many. The jobs come back in their order with their plain data, and a share counts the strings of its job's log. All ranks
//! together took as many strings as all gave. If the run does not stop early, the shares are those of the events of some whole
//! run (`IsTraced` in `specs/Traced.antt`), with a trace or without; with a trace those events are kept. Each number of progress
//! but the last is at least 1,000 above the one before it, and the last is the number of strings handled in all. Only memory can
//! fail. That a run ends is not proved: a job may push for ever.
//!
//! These proofs rest on laws over the moves of a run. In a *move* a rank handles a string, answers those that ask it, or asks,
//! takes or moves the token; or it takes a request back from a rank that has stopped, tells all to halt, or stops. Moves lead from
//! *stage* to stage, which is the queue, log and generator of each rank and the told board. Whoever makes the moves, in whatever
//! order, from the deal of the starts on:
//!
//! - the run is balanced at each stage, over the logs, the queues and the mailboxes ([`moves_are_balanced`]);
//! - the strings that were given were taken or lie in a mailbox ([`given_is_taken_or_mailed`]);
//! - a log holds the strings that its rank handled, in order, and the events tell the same ([`logs_are_handled`]);
//! - a rank tells all to halt only if some rank has handled its number of strings, and only then does any stop ([`moves_halt`]).
//!
//! If the options name no number after which the run stops, also:
//!
//! - their events are a legal run of the world of `ring_core`, to the world of the stage ([`moves_are_legal_run`]);
//! - if a rank has seen the end, nothing waits anywhere ([`nothing_waits_at_end`]);
//! - a rank handles a string only while no other asks it ([`moves_answer_first`]);
//! - if the ranks have their turns in rounds, the run is fair ([`rounds_are_fair`]).
//!
//! One host runs all ranks on the calling thread, over `PlainBoard` and `PlainSums`. Of several, host `h` has the ranks `r` with
//! `r` modulo `hosts` equal to `h`; each host from 1 up has a thread of a scope, and the caller runs host 0. They share a `Board`
//! and a `SumTree` of atomic words, which tell nothing. So a [`Host`] tells there the moves of each of its ranks by itself, and
//! the balance follows from the facts that the seats show when they are gathered ([`hosts_are_balanced`]). [`begin`] speaks of a
//! whole run and its events only for one host. The ranks of a host whose thread was refused run with those of host 0. All memory
//! for starting and joining is taken before the first start, and the caller does not return until host 0 is done: else the other
//! ranks would wait for its ranks for ever. A host whose ranks have no string yields its processor after a round, and sleeps if
//! that goes on, up to a millisecond after each. A run stops in the same way on one host and on several: if a seat knows that all
//! are to halt, some seat told all to halt.
//!
//! `specs/Balance.antt` defines a balance, `specs/Moves.antt` a rank's moves, and `specs/Choices.antt` which move a rank makes.
//! `specs/Ready.antt` has the facts of a rank between two turns and the result of a turn. `specs/Stages.antt` has the runs of all
//! ranks; the laws cite `specs/Worlds.antt`, `Waiting.antt`, `Shares.antt`, `Fair.antt` and `Stops.antt`. `specs/Hosts.antt` has
//! the result of rounds, and `specs/Traced.antt` defines a trace and the numbers of progress. The crate's own steps alone cite
//! `specs/Private`.
#![tactic(auto)]

mod backs;
mod books;
mod errors;
mod halting;
mod hosts;
mod idle;
mod jobs;
mod laws;
mod lots;
mod many_hosts;
mod outcomes;
mod parts;
mod pools;
mod ranks;
mod running;
mod serving;
mod settings;
mod spread;
mod started;
mod steps;
mod threads;
mod turns;

pub use errors::CircleError;
pub use hosts::Host;
pub use jobs::Job;
pub use laws::{
    balance_is_as_often, given_is_taken_or_mailed, hosts_are_balanced, logs_are_handled,
    moves_answer_first, moves_are_balanced, moves_are_legal_run, moves_halt, nothing_waits_at_end,
    rounds_are_fair,
};
pub use outcomes::{Finished, Share};
pub use ranks::{Rank, Turn};
pub use running::begin;
pub use settings::{Options, Split};
