//! A checkpoint in a directory, written and read whole. It has the entries that a walk has done, and the paths that each of
//! its ranks has left.
//!
//! - [`write_checkpoint`] deletes an old `DIR/circle.list`. It then writes the files of the ranks, `DIR/circleR.txt`, and last
//!   `DIR/circle.list`, the list file of the done entries. So a directory with a new `circle.list` has all files of the checkpoint.
//! - [`read_checkpoint`] reads `DIR/circle.list` and then the files of the ranks. It refuses strings that cannot be left beside
//!   the done entries, or beside each other: [`first_misplaced`].
//!
//! Proved, over any files:
//!
//! - The answer is the list that `circle.list` spells and the lists that the files of the ranks spell. Each string in them is
//!   placed.
//! - After a checkpoint was written the files hold it. Whatever the writing answers, every path but those of its files is as
//!   before. If the files of the ranks were not written, `circle.list` is as before too.
//! - Each refusal comes by its cause, unless the call is out of memory. The cause is the first file that has one, in the order
//!   in which they are read or written, and then the first misplaced string.
//!
//! Laws: the files of a directory hold one checkpoint ([`checkpoints_are_one`]). If nothing is in the way, the reading stops
//! only if it is out of memory ([`fine_reads_stop_for_memory`]). So does the writing ([`fine_writes_stop_for_memory`]).
//!
//! Not claimed: the contents of the checkpoint's files after a refusal.
//!
//! `specs/Kept` defines the files of a directory, and `specs/Placing` the misplaced strings. `specs/Stopping` has the reasons
//! why nothing is read or written, and `specs/Laws` the laws. Only private clauses cite `Passing` and `Lefts`.
#![tactic(auto)]

mod laws;
mod naming;
mod passing;
mod placing;
mod reading;
mod writing;

pub use laws::{checkpoints_are_one, fine_reads_stop_for_memory, fine_writes_stop_for_memory};
pub use placing::first_misplaced;
pub use reading::{Checkpoint, read_checkpoint};
pub use writing::write_checkpoint;
