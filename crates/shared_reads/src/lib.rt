//! Work that readers of files share, in threads.
//!
//! - A [`Job`] has places. A reader at a [`Desk`] reads for a place, and the reading gives an outcome.
//! - [`read_all`] hires workers, each with a reader and a desk of its own. A worker takes the next place that none has taken,
//!   by a shared count. So one large file does not keep the others waiting. All readers come back to their positions.
//! - [`Kept`] has the outcomes of the workers. [`Kept::take`] gives them out by place, from the last place down. If a worker
//!   had no memory for an outcome, there is none, and the caller reads for that place.
//! - [`readers_of`] makes readers of files, and [`take_back`] gives the files their counts.
//!
//! ```text
//! let mut kept = read_all(rt, alloc, &job, &mut readers, hosts)?;
//! for place in (0..n).rev() {
//!     let outcome = match kept.take(place) {
//!         Some(outcome) => outcome,
//!         None => ..,             // read by the caller
//!     };
//! }
//! ```
//!
//! # Proved
//!
//! The relation of the job says which outcomes a place may have, over the tree that the readers tell. [`Kept`] gives out for a
//! place only such an outcome. The kept outcomes report at most as many failed reads as the readers' counts rose together, or
//! one of these counts is at its end. No count falls. Each reader comes back to its position and tells the same tree.
//!
//! Nothing rests on the shared count: if two workers took one place, one of its outcomes would be dropped. Not claimed: that
//! threads ran side by side, that each place was taken, and that out of memory comes only if memory was refused.
#![tactic(auto)]

mod desks;
mod hiring;
mod jobs;
mod keeping;
mod lending;
mod pieces;
mod reading;
mod sharing;

pub use desks::Desk;
pub use jobs::{Job, Reading};
pub use keeping::{Found, Kept, make_room};
pub use lending::{readers_of, take_back};
pub use pieces::{PIECE, piece};
pub use reading::read_all;
