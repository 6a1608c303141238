//! The texts that the tools print: the lines of a list, its summary, and the notes of failures.
//!
//! - [`Text`] is text in the making, seen as its bytes. When it is whole, [`Text::put`] puts it to a sink, one piece after another.
//! - [`put_list`] appends a line for each entry that has a stat: the letter of its kind, its size right-aligned in 12 columns, and its path
//!   with escapes. For a link whose text is known ` -> ` and the text follow. [`put_summary`] appends the line of a
//!   [`Summary`](flat_list::Summary). [`list_text`] makes the lines of a list in several threads, each thread a piece of
//!   the text, and copies no line.
//! - [`notes_of`] makes the failure notes of a list, as many as its summary counts, and [`put_notes`] appends a line for each
//!   [`Note`].
//! - [`in_order`] puts notes from several places into one order, each once: in path order; at one path those of a destination
//!   come last, and then the order of [`Why`] decides.
//! - [`put_rows`] appends a comparison: for each row the signs of its four fields and its path, and then the counts.
//! - [`put_groups`] appends the groups of files with equal contents: for each group its line and a line for each of its paths,
//!   and then the counts.
//! - [`put_synced`] appends the line of dsync, with the numbers of [`SyncCounts`].
//! - [`put_trace`], [`put_shares`] and [`put_progress`] append the reports on a run: a line for each event, for the work of each rank, and
//!   for each count as it rose.
//! - [`put_line`] appends any other line, and [`put_path_line`] one with a path.
//!
//! ```text
//! let mut out = Text::make(alloc);
//! put_list(&mut out, &list)?;               // "d            0 /t\nf            5 /t/a\n"
//! put_summary(&mut out, &list.summary())?;  // "items 2 dirs 1 files 1 links 0 others 0 bytes 5 failed 0\n"
//! ```
//!
//! Proved: each call appends exactly the text of its definition, and a call that finds no memory leaves the text as
//! it was. A sink takes all bytes of a text, or a front of them if it fails. Laws: the notes of a list in path order are in order
//! ([`notes_stand_in_order`]), and notes have one order ([`order_is_unique`]), which is empty only for no notes ([`nothing_to_order`]).
//! The definitions are in `specs/`: `Lines` (entries and the summary), `Rows` (a comparison), `Groups` (files with equal contents),
//! `Synced` (dsync), `Notes`, `NoteOrder`, `Runs`.
#![tactic(auto)]

mod comparing;
mod drafts;
mod grouping;
mod halving;
mod laws;
mod listing;
mod noting;
mod numbers;
mod ordering;
mod running;
mod syncing;
mod texts;

pub use laws::{notes_stand_in_order, nothing_to_order, order_is_unique};
pub use noting::{Note, Why, notes_of};
pub use ordering::in_order;
pub use syncing::SyncCounts;
pub use texts::{
    Text, list_text, put_groups, put_line, put_list, put_notes, put_path_line, put_progress,
    put_rows, put_shares, put_summary, put_synced, put_trace,
};
