//! The walk of trees of files by ranks: every path at and under the starts, in path order.
//!
//! - [`walk`] looks at the starts and at all paths under them, and gives a [`WalkReport`]. The report has the entries as a
//!   list in path order, and the share of each rank. It also has the events of the run, if they are kept, and the growing
//!   number of entries.
//! - [`roots_of`] makes starts of any paths. It drops each path that is equal to or under another, so that no path is walked
//!   twice.
//! - A [`WalkJob`] is the work of one rank. The rank asks the files for the stat of a path, and then for the names in a
//!   directory or the text of a link. It keeps the entry and pushes the children. The ranks of [`circle_run`] hand paths to
//!   each other in any order.
//!
//! ```text
//! let starts = roots_of(words)?;
//! let report = walk(&rt, alloc, &mut files, starts, &options)?;
//! let mut cursor = report.list.cursor()?;
//! // ..
//! ```
//!
//! If the options have a stop, the walk may be [`Walked::Cut`]. Then the report has the entries that are done and the paths
//! that are left. They are a checkpoint from which another walk goes on, with any number of ranks.
//!
//! A failed call is not an error of the walk: the mark of the path's entry names it, and the files have counted it. The walk
//! refuses a list of more than [`MAX_ENTRIES`] entries, and it ends with an error if it is out of memory.
//!
//! Proved, over any files and for every order in which the ranks handle paths:
//!
//! - If the files tell their tree, the list is the recursive walk of the starts, with the failed answers that its marks name.
//! - Over all files each path of the list comes once, in path order, and is a start or under one.
//! - Each entry has its mark by an answer that a reader gave, and each fine link has the text that was read. The files
//!   counted each failed answer.
//! - This follows from the balance of the run alone: each path was handled as often as it was a start or was pushed. So the
//!   list is the same for every number of ranks, split and seed.
//!
//! Proved of the rest of a report:
//!
//! - On one host and without a stop, the ranks made some whole run by the options. In it they handle exactly the paths of
//!   the list, each once. The shares are the counts of that run, and with a trace the events are its own.
//! - If the files tell their tree, the ranks push the children with which the recursive walk goes on.
//! - All ranks together handled as many paths as the list has, and all gave as many as all took.
//! - The numbers of progress rise to the number of entries, and by the thousand if there is one rank.
//!
//! Proved of a walk that was cut:
//!
//! - If the files tell their tree, the done entries and the left paths are a cut of the recursive walk. The done entries are
//!   entries of that walk. Their paths and the left paths are, as often, the starts and the children of those entries.
//! - Over all files the done paths and the left paths all differ.
//! - No rank handled more paths than the stop says, one rank handled as many, and a path is left.
//!
//! Only tested: the walk asks once for the stat of each path, the names of each directory and the text of each link. Over
//! files that change, a directory may be another kind of entry when the walk asks for its names. Then its entry has the mark
//! `Changed`. So has the entry of a link that is another kind of entry when the walk asks for its text.
//!
//! That a walk ends is not proved: the runtime that runs its threads may wait.
//!
//! The recursive walk has laws of its own, each the contract of a function that does nothing. They are
//! [`walk_is_recursive`], [`walk_ascends`], [`walk_has_each_path_once`], [`walk_finds_all`], [`walk_lists_all`],
//! [`walk_without_faults_is_fine`], [`entries_are_told`], [`entries_have_parents`] and [`parents_are_listed`]. The roots
//! have the law [`roots_are_unique`]. A cut of the walk is some of its entries and the paths that are left. A walk of these
//! paths goes on, and with the entries it is the whole walk ([`restart_is_walk`], [`cut_goes_on`], [`left_is_apart`]).
//!
//! The directory `specs/` has the definitions:
//!
//! - `Walk`: the recursive walk and its failed answers;
//! - `Roots`: the roots of given paths;
//! - `Told`: the facts of the tree that entries give;
//! - `Answered`: the answers by which an entry has its mark and its text;
//! - `Found`: the result of a walk;
//! - `Cut`: the result of a walk that was cut, and how another walk goes on;
//! - `Traced`: the events, the shares and the progress;
//! - `Held`: the entries that a job keeps;
//! - `Looking`: an entry by the answers of the files, which no public clause cites.
#![tactic(auto)]

mod errors;
mod jobs;
mod keeping;
mod laws;
mod looking;
mod reports;
mod rooting;
mod walking;

pub use errors::WalkError;
pub use jobs::WalkJob;
pub use laws::{
    cut_goes_on, entries_are_told, entries_have_parents, left_is_apart, parents_are_listed,
    restart_is_walk, roots_are_unique, walk_ascends, walk_finds_all, walk_has_each_path_once,
    walk_is_recursive, walk_lists_all, walk_without_faults_is_fine,
};
pub use reports::{Cut, WalkReport, Walked};
pub use rooting::{is_in, roots_of};
pub use walking::{MAX_ENTRIES, walk};
