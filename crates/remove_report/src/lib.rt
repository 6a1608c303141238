//! The room of drm: it walks trees, and removes the entries that it chooses.
//!
//! [`report_of_remove`] does a [`RemoveTask`]. It walks the paths, chooses entries by the tests as dfind does, and makes the
//! texts. Unless it is a dry run, it removes the chosen entries, the deepest first.
//!
//! - `removing` has these steps, `choosing` the walk and the choice, and `acting` the removal.
//! - `naming` has the notes, and `printing` the texts.
//! - `task` has the task that the call is given.
//! - `laws` says when it succeeds.
//!
//! Proved: it answers as its four definitions in `specs/Removing` say. They are its report, the reasons to stop, the
//! paths that it may have changed, and the case in which nothing is in its way. `specs/Choosing` defines the chosen
//! entries and their fates. Whatever it answers, also if it is out of memory, every path that was not chosen is as
//! before. A law in `specs/Laws` says: if nothing is in its way, it has no notes, and stops only if it is out of memory
//! ([`fine_remove_succeeds`]).
#![tactic(auto)]

mod acting;
mod choosing;
mod laws;
mod naming;
mod printing;
mod removing;
mod task;

pub use laws::fine_remove_succeeds;
pub use removing::report_of_remove;
pub use task::RemoveTask;
