//! The removal of chosen paths.
//!
//! [`remove`] takes a list of entries and removes their nodes, the deepest level first, by work on levels ([`level_work`]). It
//! removes a directory by `remove_dir` and all else by `remove_file`, with one call an entry and no look beside it. It answers a
//! [`RemoveReport`]: the paths with their fates, and how many are gone.
//!
//! - `removals` has the call, and `reports` its answer.
//! - `unlinking` has the act at one path, and `items` the entries as items.
//! - `laws` says when all chosen paths go.
//!
//! A directory goes if it is empty once all chosen paths under it are gone; else its fate is `NotEmpty`. No other path is removed
//! to empty it. A path whose removal failed has the fate `Failed`. A path has the fate `Changed` if its node differs from its
//! entry. No path has that fate if the files show their tree and the entries are those of a walk of it.
//!
//! # What is proved
//!
//! If the files show their tree, [`remove`] meets the relation of `specs/Removing`:
//!
//! - A path with the fate `Done` is gone.
//! - A path with the fate `NotEmpty` is the same directory as before. A node is under it, or a child of it has too long a path.
//! - Every path that was not chosen is as before.
//! - A chosen path whose own removal did not fail goes exactly if no child of it has too long a path and all nodes under it go.
//!
//! Over all files the failed removals are at most as many as the files counted. The fate of each path is the one that the answer to
//! its removal means. If the call is out of memory, every path that was not chosen is as before. `specs/PrivateDeeds` has the
//! definitions for this crate's own contracts.
//!
//! Not claimed: the node at the path of a removal that failed, and the nodes at the chosen paths if the call is out of memory.
#![tactic(auto)]

mod items;
mod laws;
mod removals;
mod reports;
mod unlinking;

pub use laws::whole_choices_go;
pub use removals::remove;
pub use reports::RemoveReport;
