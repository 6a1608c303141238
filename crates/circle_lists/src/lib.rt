//! The files of a checkpoint: one text file a rank in a folder, with the paths that the rank has left when a walk stops.
//!
//! - [`write_lists`] writes the list of each rank R into `DIR/circleR.txt`. [`read_lists`] reads them all again. There are 1 to
//!   64 ranks.
//! - A file has whole lines: `circle 1 RANK RANKS`, then each path of the list as [`path_text::escape`] writes it, the oldest
//!   first, then `end COUNT`, and nothing more.
//! - [`ListsError`] says why lists are not written or read, and at which path. [`file_in`] gives the path of a rank's file.
//!
//! ```text
//! write_lists(alloc, &mut files, &dir, &left)?;        // DIR/circle0.txt: "circle 1 0 1\n/t/b\nend 1\n"
//! let left = read_lists(alloc, &mut reader, &dir)?;
//! ```
//!
//! Proved over files that tell their tree: after [`write_lists`] each file holds bytes that spell its rank's list. Every path
//! but those of the files is as before, also after an error. [`read_lists`] gives the lists that the files spell. Each error but
//! out of memory has its cause, that of the first rank that has one. The cause is a path that would be too long, a path without
//! place for a file, an absent file, or a damaged line. A damaged line is the first with which a text begins no file of its
//! rank. Over all files an error names the path of a rank below which no rank has a cause. A fault comes only if the count
//! rose.
//!
//! Laws: a rank's list has one file, a file is that of one list, and no file is a proper prefix of another
//! ([`spelling_is_unique`]). A text is damaged at one line at most ([`damage_is_exact`]). Reading gives the lists that were
//! written ([`reading_undoes_saving`]).
//!
//! The reader compares each line with the text that the writer would write there, so it parses no number. Reading is linear in
//! the text, which is not proved. Not claimed: the contents of the files after an error of [`write_lists`], and that out of
//! memory comes only if memory was refused.
//!
//! The definitions are in `specs/`. `Spelling` has the file of a rank, and damaged texts. `Checkpoint` has the files of a
//! folder, and why they are not written or read. `Private` has those that only private clauses cite. The words of lines and the
//! argument on whole lines are those of `whole_lines`.
#![tactic(auto)]

mod decoding;
mod encoding;
mod errors;
mod laws;
mod naming;
mod reading;
mod writing;

pub use errors::ListsError;
pub use laws::{damage_is_exact, reading_undoes_saving, spelling_is_unique};
pub use naming::file_in;
pub use reading::read_lists;
pub use writing::write_lists;
