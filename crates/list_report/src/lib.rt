//! The room of dwalk, dfind and dtest: each finds entries, chooses some, and prints them.
//!
//! [`report_of_list`] does a [`ListTask`], that of dwalk or dfind. It finds the entries, saves the chosen ones if asked, and
//! makes the texts. [`report_of_test`] does a [`TestTask`], that of dtest, over a made-up tree of its own. It prints only the
//! summary.
//!
//! - `lists` has the first, `made` the second, and `printing` the texts of both.
//! - `task` has the task of dwalk and dfind.
//! - `laws` says when they succeed.
//!
//! Proved: each answers as its four definitions in `specs/Lists` and `specs/Tests` say. They are its report, the reasons to
//! stop, the paths that it may have changed, and the case in which nothing is in its way. Two laws in `specs/Laws` say that in
//! this case there are no notes, and it stops only if it is out of memory ([`fine_list_succeeds`], [`fine_test_succeeds`]).
#![tactic(auto)]

mod laws;
mod lists;
mod made;
mod printing;
mod task;

pub use laws::{fine_list_succeeds, fine_test_succeeds};
pub use lists::report_of_list;
pub use made::{TestTask, report_of_test};
pub use printing::list_report;
pub use task::ListTask;
