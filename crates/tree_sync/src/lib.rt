//! Makes a destination equal to a source.
//!
//! - [`sync_place`] says whether a source can be synced to a destination.
//! - [`sync`] compares the lists of the walks of both. With `delete` it removes the destination's entries that do not belong there.
//!   Then it copies the entries that the destination lacks. It answers a [`SyncReport`]: the fates of the copies and of the
//!   removals, how many entries were kept, and the files that could not be read.
//!
//! ```text
//! sync_place(alloc, &mut reader, &pair.source, &pair.target)?;
//! let report = sync(rt, alloc, &source, &dest, &pair, delete, &mut ground, ranks, hosts)?;
//! for row in report.copies() {
//!     if row.1 == Fate::Failed {
//!         // ...
//!     }
//! }
//! ```
//!
//! An entry of the source is kept if the destination has a like node, else it is copied. A directory is like a directory, a file is
//! like a file with the same bytes, and a link is like a link with the same text. With `delete` an entry of the destination goes if
//! the source has no node or a node of another kind at its path. It stays if the source has a node there, or above it, that is never
//! copied: one that is not a directory, file or link. If the source itself has no stat, nothing is kept, removed or copied.
//!
//! # Parts
//!
//! - `planning` compares both lists and makes a plan.
//! - `dividing` goes once over the source's list beside the rows of the comparison, and `choosing` once over the destination's.
//! - `searching` has the searches through the rows, which never go back, and `telling` reads a row.
//! - `syncing` makes the three calls, and `reports` has their answer.
//! - `placing` says whether there can be a sync.
//!
//! # What is proved
//!
//! - The entries that are kept, removed and copied are those of `specs/Syncing`, over all files. That file has no search in it.
//! - If the files show their tree, the removal meets its own relation. The copy meets its own from the tree that the removal left.
//! - Whatever [`sync`] answers, every path that is neither the target nor under it is as before, also if it is out of memory.
//! - All failures were counted, and each file that is named as failed or changed was asked for.
//! - By [`sync_makes_equal`] and [`synced_rows_agree`] the destination is equal to the source off the paths that are named.
//!
//! Not claimed: the nodes at and under the target if the call is out of memory.
#![tactic(auto)]

mod choosing;
mod dividing;
mod errors;
mod laws;
mod placing;
mod planning;
mod reports;
mod searching;
mod syncing;
mod telling;

pub use errors::SyncError;
pub use laws::{sync_makes_equal, synced_rows_agree};
pub use placing::sync_place;
pub use reports::SyncReport;
pub use syncing::sync;
