//! The room of dsync: it makes a destination equal to a source.
//!
//! [`report_of_sync`] does a [`SyncTask`]. It tests whether the source can be synced to the destination, and walks both, each
//! by itself. It syncs by the two lists, and makes the texts.
//!
//! - `syncing` has these steps. `placing` has the look at the destination's parent, `walking` the walks, and `acting` the
//!   sync.
//! - `naming` has the notes, and `printing` the texts.
//! - `task` has the task that the call is given.
//! - `laws` says when it succeeds.
//!
//! Proved: it answers as its four definitions in `specs/Syncing` say. They are its report, the reasons to stop, the
//! paths that it may have changed, and the case in which nothing is in its way. `specs/Placing` defines whether there
//! is a place for the destination. Suppose the files tell their tree and the source has a stat. Then a comparison of
//! both trees afterwards differs only at and below the paths of the notes. Whatever it answers, also if it is out of
//! memory, every path that is neither the destination nor below it is as before. A law in `specs/Laws` says: if nothing
//! is in its way, it has no notes, and stops only if it is out of memory ([`fine_sync_succeeds`]).
#![tactic(auto)]

mod acting;
mod laws;
mod naming;
mod placing;
mod printing;
mod syncing;
mod task;
mod walking;

pub use laws::fine_sync_succeeds;
pub use syncing::report_of_sync;
pub use task::SyncTask;
