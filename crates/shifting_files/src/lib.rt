//! Files for tests that tell no tree and change between two calls.
//!
//! [`Shifting`] has two sets of files in memory. A stat answers the kind of the node that the first set has. Names and the texts of
//! links come from the second set. So a test says which answers contradict one another. Each stat of a reader answers the number of that
//! stat as the time, and the size 0. No bytes are read. [`Closed::calls`] counts the calls of all readers that came back.
//!
//! ```text
//! let mut files = Closed::make(alloc, seen, found);
//! let looks = look_at_each(alloc, &mut files, paths)?;
//! files.calls().stats                       // the number of stats
//! ```
//!
//! [`Closed`] files may lend parts, but each write is out of memory. Proved: they keep the contract of every ground. Their answers are
//! tested.
#![tactic(auto)]

mod closed;
mod grounds;
mod readers;

pub use closed::{Closed, Place};
pub use grounds::Shifting;
pub use readers::{Calls, ShiftingReader};
