//! The work of a host in a thread of its own, and the ranks that it gives back.
ghost use Rattle.std.specs.Prelude.{◌≡◌, ◌≤◌, ℕ, ◌==◌, IsPermutation};
ghost use Rattle.std.specs.List.{sum_by};
ghost use Rattle.circle_run.specs.Hosts.{IsAscending};
ghost use Rattle.circle_run.specs.Private.Away.{HostRan, Gives, MayRun, one_if};

use crate::hosts::Host;
use crate::jobs::Job;
use crate::ranks::Rank;
use post_board::Post;
use std::snapshot::Snapshot;
use std::sync::Wait;
use std::sync::atomic::AtomicBool;
use std::sync::atomic::Ordering::SeqCst;
use std::thread::Promise;
use sum_tree::Sums;

/// Ranks, with their jobs and seats.
pub(crate) type Ranks<J, S, T> = Vec<Rank<J, S, T>>;

/// The ranks that a thread gives back.
#[derive(Drop)]
pub enum Back<J, S, T> {
    /// Its ranks, which ran to their end.
    Ran(Ranks<J, S, T>),
    /// Its ranks as they were.
    Untouched(Ranks<J, S, T>),
}

/// The promise of a thread: its ranks ran at this board and at these sums, or are as they were.
#[derive(Drop)]
pub struct RanFrom<J: Job, S, T, P: Post<Seat = S>, Q: Sums<Seat = T>>(
    pub Snapshot<Ranks<J, S, T>>,
    pub Snapshot<P>,
    pub Snapshot<Q>,
);

impl<J: Job, S, T, P: Post<Seat = S>, Q: Sums<Seat = T>> Promise<Back<J, S, T>>
    for RanFrom<J, S, T, P, Q> {
    ghost kept_by = { λ p r. Gives J.log J.plain P.shows P.seats Q.shows Q.seats p.1.value p.2.value p.0.value.items r };
}

/// Runs these ranks to their end.
pub(crate) fn run_host<W: Wait, J: Job, S, T, P: Post<Seat = S>, Q: Sums<Seat = T>>(
    rt: &W,
    ranks: Ranks<J, S, T>,
    post: &mut P,
    sums: &mut Q,
) -> Ranks<J, S, T>
    requires { MayRun J.log P.shows P.tells P.seats Q.shows Q.tells Q.seats post.old sums.old ranks.items }
    ensures ran { HostRan J.log J.plain P.shows P.seats Q.shows Q.seats post.old sums.old ranks.items result.items }
    ensures still { (post.new ≡ post.old) × (sums.new ≡ sums.old) }
{
    Host::make(ranks).run(rt, post, sums)
}

/// The work of a thread: it runs its ranks, unless its start was refused.
pub(crate) fn run_or_return<
    W: Wait,
    J: Job,
    S,
    T,
    P: Post<Seat = S> + Drop,
    Q: Sums<Seat = T> + Drop,
>(rt: &W, refused: &AtomicBool, ranks: Ranks<J, S, T>, mut post: P, mut sums: Q) -> Back<J, S, T>
    requires { MayRun J.log P.shows P.tells P.seats Q.shows Q.tells Q.seats post sums ranks.items }
    ensures { Gives J.log J.plain P.shows P.seats Q.shows Q.seats post sums ranks.items result }
{
    if refused.load(SeqCst) {
        Back::Untouched(ranks)
    } else {
        Back::Ran(run_host(rt, ranks, &mut post, &mut sums))
    }
}

/// The same ranks in ascending order.
pub(crate) fn in_order<J: Job, S, T>(ranks: Ranks<J, S, T>) -> Ranks<J, S, T>
    requires once { (v : ℕ) → sum_by (λ r. one_if (r.me == v)) ranks.items ≤ 1 }
    ensures order { IsAscending result.items }
    ensures same { IsPermutation ranks.items result.items }
{
    let mut ranks = ranks;
    ranks.sort_unstable_by_key(|rank| rank.number());
    ranks
}
