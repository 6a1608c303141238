//! The strings that wait at one rank, the amounts that it gives and the words that it draws.
//!
//! A rank works on strings, here paths. It keeps those that wait in a [`RankQueue`]. It takes the newest to work on, and adds
//! the strings that it finds behind the newest. A rank that has none asks another, which gives it some of its oldest in a
//! [`Batch`]. Contracts see a queue and a batch each as the list of their paths, the oldest first.
//!
//! A rank gives [`equal_share`] or [`random_share`] strings, and an idle rank asks its [`victim`]. The last two draw a word of
//! the rank's own [`generator`], so a run with the same seed and the same order of events draws the same.
//!
//! ```text
//! let mut queue = RankQueue::make(alloc);
//! let mut batch = Batch::make(alloc);
//! batch.push(first)?;
//! batch.push(second)?;
//! queue.push_all(&mut batch)?;              // the batch is empty, and may be filled again
//! let oldest = queue.give(1)?;              // holds `first`
//! let newest = queue.take();                // is `second`
//! ```
//!
//! Proved: a queue and a batch are exactly the lists that the clauses say. No path is lost or doubled, even if memory runs
//! out. Amounts, victims and the generator after each draw are exactly those of `specs/Shares.antt`. To add a batch costs the
//! length of the batch, and to give costs the number given, whatever waits beside it; this holds by construction and is not
//! proved.
#![tactic(auto)]

mod batches;
mod drawing;
mod queues;

pub use batches::Batch;
pub use drawing::{equal_share, generator, random_share, victim};
pub use queues::RankQueue;
