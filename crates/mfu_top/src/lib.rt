//! The top call: the work of the program, by its words, over any files and any two sinks.
//!
//! [`run`] reads the words, does their command, and prints the report. It answers a [`Status`], the program's exit status.
//!
//! - `running` has the call.
//! - `reporting` has the work of each tool, a line a tool. Each has a room of its own: [`list_report`] is that of dwalk, dfind and
//!   dtest, [`compare_report`] that of dcmp, [`copy_report`] that of dcp, [`sync_report`] that of dsync, [`dup_report`] that of ddup, and
//!   [`remove_report`] that of drm.
//! - `walks` tells a dwalk that lists from a walk in stages, whose room is [`stage_report`].
//! - `laws` says when a run succeeds.
//!
//! # What is proved
//!
//! For all files, words and sinks, `run` meets its clauses. They hold for any number of ranks and hosts, split rule and seed. Of files that
//! tell their tree they say:
//!
//! - A run of status 0 or 1 printed the text of the chosen entries of the recursive walk of the roots, or of the entries that the list file
//!   spells. Each failed answer has a note, also if its entry is not chosen, and the files counted it.
//! - A file that the run wrote spells the chosen entries in path order, and every other path is as before.
//! - The tree of dtest is the map of its rule and never fails. A run over it leaves the files alone.
//! - dcmp printed a row for each path of its two walks that has one, with the contents of both files. Each list that it saved spells the
//!   entries of the rows that match.
//! - dcp copied each entry of the walk of its sources, or its note says why not. A file at its target has the bytes of the source, a link
//!   its text. Every path but the targets is as before, whatever the status. With `--range` the same holds.
//! - dsync kept the entries that are equal, with `--delete` removed those that the source does not have, and copied the rest. A comparison
//!   of both trees afterwards differs only at and below the paths of its notes, and, without `--delete`, at the entries that only the
//!   destination has. Every path that is neither the destination nor below it is as before, whatever the status.
//! - ddup printed the groups of files of its walk whose bytes are equal. A file that it could not read has a note and is in no group. The
//!   files are as before.
//! - drm chose as dfind does. Of the chosen paths each goes, or stays as its note says. Every other path is as before, whatever the status.
//! - A walk that stops leaves a checkpoint that is a cut of the recursive walk. The stage that continues from it and ends prints the text
//!   of one walk.
//!
//! Each other status but 3 comes by its cause. If nothing is in the way of a run and no sink fails, it ends with status 0, or
//! with 3 for want of memory. The trace is that of a run of these ranks from the roots, in which each path of the walk is handled once. The
//! shares are the counts of its events, and add up to the walk. The numbers of progress rise to its number of entries.
//!
//! `specs/Run` defines a run, a line a tool: its report, the reasons to stop, the paths that it leaves as before, and the case in which nothing
//! is in its way. Each word is defined in the tool's room. The end of a run is [`run_report`]'s, its entries are [`run_entries`]', and the
//! words are read as [`tool_words`] says. The proofs here follow from their contracts and laws.
//!
//! Not proved: that a run comes to an end, with any number of ranks.
#![tactic(auto)]

mod laws;
mod reporting;
mod running;
mod walks;

pub use run_report::Status;
pub use running::run;
