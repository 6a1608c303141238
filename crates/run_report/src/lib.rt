//! How a run ends: its status, and the texts that it prints, or the one line that says why it prints none.
//!
//! Each tool makes a [`Report`], which has both of its texts and the number of failures in them. Or it makes a [`Stop`], the
//! reason why there is no report. [`Report::put`] prints a report, and [`end_stopped`] ends a run by a stop. [`end_refused`]
//! ends a run whose words are refused. Each answers a [`Status`], the program's exit status.
//!
//! - `statuses` has the statuses and their numbers.
//! - `stops` has the reasons to stop.
//! - `reports` has the texts, and prints them.
//! - `telling` has the one line of a run that prints no list.
//!
//! Proved, for any two sinks: with status 0 or 1 both hold their text. With status 4 the one that failed holds a prefix of it, and
//! after a fault of `out` nothing goes to `notes`. If no sink fails, a report without failures ends with status 0. A run that
//! stopped ends with the status of its reason and its line. If it is out of memory for that, it ends with the line of status 3.
//!
//! `specs/Sides` has the files and sinks of a run, and `specs/Ends` the contents of the sinks at its end. `specs/Statuses` has
//! the numbers, `specs/Lines` the lines, and `specs/Stops` the status and the line of each reason.
#![tactic(auto)]

mod reports;
mod statuses;
mod stops;
mod telling;

pub use reports::Report;
pub use statuses::Status;
pub use stops::{Stop, Trouble};
pub use telling::{end_refused, end_stopped};
