//! Files of equal content, grouped.
//!
//! - [`find_groups`] takes a list of a walk and readers of the files, and gives [`Groups`]: a [`Group`] for each content that two
//!   files or more have, the files whose reads failed, and the files that reads showed to have changed since they were listed.
//!   [`group_files`] does the same with readers that the files lend and take back.
//! - A [`Group`] has the size, the SHA-256 and the paths of its files, in path order. Groups are in the order of their first paths.
//!
//! ```text
//! let found = find_groups(rt, alloc, &list, &mut readers, hosts)?;
//! for k in 0..found.len() {
//!     let group = found.group(k);
//!     // ...
//! }
//! ```
//!
//! The candidates are the files that share their size with another file of the list. Each is read once for a fast hash of its bytes.
//! Empty files are not read. Files of one size and one hash are a run. They are compared byte by byte, all at the same pace, so each
//! is read once more at most. The piece of the first file that can be read, the lead, stays in one buffer, and the piece of each
//! other file comes into a second one. SHA-256 is taken of the lead's pieces alone, so no file is read for its digest.
//!
//! A file that differs goes to a next run, which only a collision of hashes makes. Whoever picks the bytes of files can make hashes
//! collide: then more is read, and the groups are the same. Pieces have 64 KiB. A failed read drops its own file and no other.
//!
//! Workers share both readings, each with a reader and two buffers of its own (`shared_reads`). A worker takes the next candidate that
//! none has taken, and later the next run, so others go on beside a large file. If a worker has no memory to keep an outcome, the
//! first reader reads those files at the end.
//!
//! # Parts
//!
//! `sizes` counts how many files have each size, and `candidates` lists the files that share theirs. `hashing` reads them for their
//! hashes. `runs` has a file with its hash and its standing in a run, and the order by content.
//! `comparing` compares the files of a run, and `sharing` lets workers do so. `dealing` deals the files out by their standings.
//! `grouping` does all that, run by run, and `groups` has the findings. `lending` takes readers from the files for all that, and
//! gives them back.
//!
//! # What is proved
//!
//! The findings are those of a definition that divides by bytes alone (`specs/Grouping.antt`, `IsGrouping`):
//!
//! - If the readers tell their tree, two candidates that were not missed are in one group exactly if their bytes are equal. A group
//!   has the SHA-256 of these bytes, and no file counts as changed. Nothing is assumed of collisions.
//! - Over all files, a group has two files or more, each a candidate of the group's size that was not missed. A path is in one group
//!   at most. Each file that was missed was to be read, and the answer of a read at its very path is the cause. Each file of a group
//!   was read up to its size (`HaveCauses`).
//! - Failed reads are at most as many as the readers' counts rose together, or one of these counts is at its end. No count falls, and
//!   each reader tells the same tree.
//!
//! The proofs keep one fact through each division: two candidates that were not missed, and whose bytes are equal, are in one pile
//! (`specs/Private/Sifting.antt`). A pile is divided by size and hash, and then by bytes, and never between equal bytes.
//!
//! Not claimed: that threads ran side by side, that out of memory comes only if the system refused memory, how much memory is taken,
//! and that a file is read once or twice.
#![tactic(auto)]

mod candidates;
mod comparing;
mod dealing;
mod errors;
mod grouping;
mod groups;
mod hashing;
mod lending;
mod runs;
mod sharing;
mod sizes;

pub use errors::DupError;
pub use grouping::find_groups;
pub use groups::{Group, Groups};
pub use lending::group_files;
