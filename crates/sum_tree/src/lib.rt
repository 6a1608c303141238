//! The counts of ranks, added up along a tree.
//!
//! Each of some ranks counts for itself, and rank 0 shows the sum of all counts, while they count and at the end. As in
//! libcircle's reduction the ranks form a tree: the children of rank `i` are the ranks `i * width + 1` to `i * width + width`,
//! if there are so many. Each rank has a *word*, which it alone writes and which its parent reads. A rank that refreshes adds
//! its own count and the words of its children, and writes the sum into its word. So numbers climb to rank 0, late but never
//! too high. A rank that counts no more finishes: once the words of its children are final, its own word becomes the final sum
//! of itself and all below it.
//!
//! - [`Sums`] is the trait. A rank acts through its seat: [`raise`](Sums::raise) counts, [`refresh`](Sums::refresh) and
//!   [`finish`](Sums::finish) write the word, [`shown`](Sums::shown) reads it, and [`gather`](Sums::gather) takes all seats
//!   back and answers the sum.
//! - [`PlainSums`] implements it for one thread, by a list of the ranks' counts and words.
//! - [`SumTree`] implements it for threads, by atomic words: each rank acts through a reference to the tree and a seat of its own.
//!
//! ```text
//! let (mut sums, mut seats) = PlainSums::make(alloc, 2, 2)?;   // rank 1 is the child of rank 0
//! sums.raise(&mut seats[0], 3);
//! sums.raise(&mut seats[1], 4);
//! sums.finish(&mut seats[0])      // None: rank 1 has not finished
//! sums.finish(&mut seats[1])      // Some(4)
//! sums.finish(&mut seats[0])      // Some(7)
//! sums.gather(seats)              // 7
//! ```
//!
//! # What the trait promises
//!
//! A seat shows its rank's number, count, word and, once it has finished, the final sum (`specs/Shown.antt`); every call is an
//! equation on these. In all implementations a rank's word never falls, neither by a refresh nor by the final sum. It is at
//! least the rank's count. A rank without children shows just its count. `gather` answers the sum of the counts that the seats
//! show, which is the final sum of rank 0.
//!
//! Sums may tell more: the counts and words of all ranks (`specs/Told.antt`). Then each call is exact on these. Between any two
//! calls a word holds at most the sum of its rank, and a final word holds exactly that sum ([`what_is_told_is_sound`]). A seat
//! may tell the steps that it made on the words (`specs/Steps.antt`). Plain sums tell the first; sums that threads share can
//! tell only the second.
//!
//! # What is proved
//!
//! Plain sums keep all of this. The sum of a rank is defined by recursion down the tree ([`sum_is_own_and_below`]), and that of
//! rank 0 is the sum of all counts ([`sum_of_rank_0_is_sum_of_all`]). A count stops at 2^56 - 1, and there are at most 64 ranks,
//! so no sum overflows. Only [`PlainSums::make`] and [`SumTree::make`] take memory.
//!
//! `&SumTree` meets the same contract word for word. Its seats tell the steps that they made on the words.
//! [`words_are_sums_at_every_moment`] holds of the words between any two steps, whatever the threads do. A count that is raised
//! is in the rank's word from its next refresh on; until then the word holds the count at its last writing.
//!
//! Not promised: that a rank ever finishes. That depends on the callers.
#![tactic(auto)]

mod laws;
mod plain;
mod ranks;
mod sum_trees;
mod sums;
mod tree_gathers;
mod tree_makes;
mod tree_reads;
mod tree_rules;
mod tree_steps;
mod tree_sums;
mod tree_views;

pub use laws::{
    sum_is_own_and_below, sum_of_rank_0_is_sum_of_all, what_is_told_is_sound,
    words_are_sums_at_every_moment,
};
pub use plain::{PlainSumSeat, PlainSums};
pub use ranks::{RankSum, Reading};
pub use sum_trees::{SumSeat, SumTree};
pub use sums::Sums;
