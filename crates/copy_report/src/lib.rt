//! The room of dcp: it walks trees, and copies them to a destination.
//!
//! [`report_of_copy`] does a [`CopyTask`]. It places the targets of the sources at the destination and walks the sources. Then it
//! copies each entry to its target, from the top level down, and makes the texts. If the task has a number of bytes, larger files
//! are copied by ranges ([`range_copy`]). The report does not depend on that.
//!
//! - `copying` has the task and all of its work.
//! - `placing` has the look at the destination, `walking` the walk of the sources, and `acting` the copy.
//! - `naming` has the notes, and `printing` the texts.
//! - `task` has the task that the call is given.
//! - `laws` says when it succeeds.
//!
//! Proved: it answers as its four definitions in `specs/Copying` say. They are its report, the reasons to stop, the paths that it
//! may have changed, and the case in which nothing is in its way. `specs/Placing` defines the targets of the sources. Whatever it
//! answers, every path that is not a target is as before, also if it is out of memory. A law in `specs/Laws` covers the case in
//! which nothing is in its way. There are no notes then, and only a lack of memory stops it ([`fine_copy_succeeds`]).
#![tactic(auto)]

mod acting;
mod copying;
mod laws;
mod naming;
mod placing;
mod printing;
mod task;
mod walking;

pub use copying::report_of_copy;
pub use laws::fine_copy_succeeds;
pub use task::CopyTask;
