//! The copy of trees.
//!
//! - [`place`] pairs sources with the paths to which they go ([`Pair`]), as cp does. They go into a directory under their last
//!   names, or one source goes to a path of its own. [`PlaceError`] says why they can't.
//! - [`copy`] takes the list of a walk of the sources. It copies each entry to its target, level by level from the top down, by
//!   work on levels ([`level_work`]). It answers a [`CopyReport`]: the paths with their fates, how many came to `Done`, and their
//!   bytes.
//!
//! ```text
//! let pairs = place(alloc, &mut reader, &sources, &dest)?;
//! let report = copy(rt, alloc, &list, &pairs, &mut ground, ranks, hosts)?;
//! for k in 0..report.len() {
//!     if report.fate(k) == Fate::Conflict {
//!         // ...
//!     }
//! }
//! ```
//!
//! - A directory is made, or the one that is there is kept.
//! - A file is made anew, in place of a file that is there. It is filled with as many bytes as its entry's size, in pieces of
//!   64 KiB. It is opened once to be read and once to be written.
//! - A link is made anew, in place of a link that is there, with the text of its entry as it is. If the entry has no text, its fate
//!   is `Changed`.
//! - A node that is made at a free path costs no look. A node of another kind than its source is a `Conflict`, and stays.
//! - Other nodes are `Skipped`.
//! - Entries under one that did not come to `Done` are not tried, and have the fate `ParentFailed`.
//!
//! # Parts
//!
//! - `placing` finds the targets of sources, and `pairs` has the types of a pair and of an error.
//! - `targets` makes an item of each entry at its target.
//! - `working` hires actors, as many as there are threads, has them work and takes their readers back.
//! - `settling` puts the fates beside the entries and counts.
//! - `copying` is all of that.
//! - `acting` is the act at one target: `making` makes directories, `filling` files, and `linking` links. `anew` puts a new file or
//!   link in place of an old one.
//! - `reports` has the answer of a copy.
//! - `laws` has laws of pairs and of their targets, and says when all entries are copied.
//!
//! # What is proved
//!
//! [`place`] answers as `specs/Placing` says, by the answers to its looks, also over files that show no tree. If the files show
//! their tree, [`copy`] meets the relation of `specs/Copying`:
//!
//! - Each entry has the first fate that applies. Only `Failed` may come in place of `Done`, `Conflict` and `Changed`.
//! - A copied file has exactly the bytes of its source, and a copied link exactly its text.
//! - Every path that is not a target is as before, also if the call is out of memory.
//!
//! Over all files:
//!
//! - An entry has the fate `TooLong` if its target is too long, and `ParentFailed` if its parent was not copied. It has the fate
//!   `Skipped` if it is not a directory, file or link. No other entry has one of these fates.
//! - No link whose text is not known has the fate `Done`.
//! - Each entry that was tried has an answer at its source or at its target that shows its fate (`specs/Causes`). An empty file was
//!   made or the last bytes were written, a look found another kind, a read gave nothing, or a write was refused.
//! - Failed entries are at most as many as the files counted.
//!
//! Not claimed: the node at the target of an entry that failed, and the nodes at all targets if the call is out of memory. Nor is it
//! claimed that files are read in pieces, which times nodes have, or that threads ran side by side.
#![tactic(auto)]

mod acting;
mod anew;
mod copying;
mod filling;
mod laws;
mod linking;
mod making;
mod pairs;
mod placing;
mod reports;
mod settling;
mod targets;
mod working;

pub use copying::copy;
pub use filling::piece;
pub use laws::{fine_entries_are_copied, placed_are_apart, targets_are_apart, targets_are_long};
pub use pairs::{Pair, PlaceError};
pub use placing::place;
pub use reports::CopyReport;
