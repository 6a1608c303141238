//! The copy of trees, with large files by ranges of their bytes.
//!
//! - [`copy_wide`] copies a list as [`copy`](tree_copy::copy) does, but several readers at once write each file with more bytes than
//!   a piece. It answers a [`CopyReport`](tree_copy::CopyReport), too.
//! - [`ranges`] gives the cuts of such a file. [`RangeError`] says why there are none, or why nothing was copied.
//!
//! ```text
//! let report = copy_wide(rt, alloc, &list, &pairs, piece, &mut ground, ranks, hosts)?;
//! let cuts = ranges(alloc, 10, 4)?; // 0, 4, 8, 10
//! ```
//!
//! A file is not large if the list has another entry under it, which only files that show no tree can have. All other entries are
//! copied first. Then each large file is copied by itself. Every reader opens the source, an old file at the target is removed, and
//! an empty one is made and lent in spans. Each span is filled by the reader that it is dealt to. All spans are back before the next
//! file, also after a fault or if memory runs out. If one range fails, the file is `Failed`.
//!
//! # Parts
//!
//! `cutting` has the cuts, and `laws` the law that the ranges between them are the file.
//!
//! One large file:
//!
//! - `fillers` are readers that fill spans, `filling` is their work on one span, and `loads` are spans with their places.
//! - `turns` deals the spans and takes them back. In each turn every filler has one, so span `k` goes to filler `k` mod their number.
//! - `placing` makes the empty file, `spanning` lends and fills it, and `copying` is all of that.
//! - `came` and `filled` are the outcomes of a file and of a range.
//!
//! A list:
//!
//! - `parting` divides it into the large files and all other entries.
//! - `failing` has the targets of entries that were not copied.
//! - `folding` copies the large files one after the other.
//! - `merging` brings the fates of both parts together, and `widening` is all of that.
//!
//! # What is proved
//!
//! - The cuts ascend strictly from 0 to the size and are at most 4,097. All ranges but the last have equally many bytes ([`ranges`]).
//! - If a file is cut so, its ranges joined are its bytes ([`ranges_cover`]).
//! - A file that was lent in spans has its bytes once each span is back with its range. Every other path is as before
//!   ([`spans_come_back`]).
//! - [`copy_wide`] has the clauses of [`copy`](tree_copy::copy), word for word. If the files show their tree, a file that came to
//!   `Done` has exactly the bytes of its source, and a node of another kind stays. Every path that is not a target is as before, also
//!   if the call is out of memory. Failed entries are at most as many as the files counted.
//! - Each entry that was tried has evidence of its fate, over all files (`causes`). For a large file with the fate `Done` the ground
//!   made it empty and lent it in spans up to its size, and the source was read to the end of each range. Another fate comes from a
//!   look, a read, a refused write, or a count of the ground that rose since it made the file.
//!
//! The proof rests on a law of copies (`proofs/Composed`). Two parts have targets that are apart, and one is copied after the other.
//! Then their entries are copied as if all of them were copied at once.
//!
//! Not claimed: the node at the target of a file that failed; that threads ran side by side. Nor is it claimed that a large file is
//! copied by ranges at all, which a test on a failing lease shows.
#![tactic(auto)]

mod came;
mod copying;
mod cutting;
mod failing;
mod filled;
mod fillers;
mod filling;
mod folding;
mod laws;
mod loads;
mod merging;
mod parting;
mod placing;
mod spanning;
mod turns;
mod widening;

pub use cutting::{RangeError, ranges};
pub use laws::{ranges_cover, spans_come_back};
/// The report of a copy by ranges is that of a copy.
pub use tree_copy::CopyReport as WideReport;
pub use widening::copy_wide;
