//! Ranks in threads of their own, over one board of atomic words and one tree of sums: the code that storms and measurements run.
//!
//! The job is made up: a tree of numbers ([`Sprout`]). [`run_all`] gives each rank a thread, and answers the counts of the run; [`look`]
//! has one rank of many look for requests.
//!
//! Proved: each rank, its seats and its turns meet the conditions of the runtime. The result of a run is measured and tested, and not
//! claimed here; the clauses of `circle_run`, `post_board` and `sum_tree` say it.
#![tactic(auto)]

mod dealing;
mod looking;
mod running;
mod sprouts;
mod workers;

pub use looking::look;
pub use running::{Outcome, Plan, run_all};
pub use sprouts::{Sprout, counts, spin};
