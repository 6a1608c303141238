//! Hosts in threads, and back.
ghost use Rattle.std.specs.Prelude.{◌≡◌, ◌≤◌, ◌<◌, ℕ, ◌+◌, [], length, IfOk, IfErr, All, None};
ghost use Rattle.std.specs.List.{sum_by};
ghost use Rattle.circle_run.specs.Hosts.{AllReady};
ghost use Rattle.circle_run.specs.Private.Away.{HostRan, Gives, MayRun, IsOne, IsHost, AreDone, InPlace};
ghost use Rattle.circle_run.specs.Private.Pooled.{pooled_numbers, Pooled, HasRoom, Fits};

use crate::backs::{Back, RanFrom, Ranks, in_order, run_host, run_or_return};
use crate::jobs::Job;
use crate::pools::{Pool, add_all, add_one};
use crate::started::Started;
use path_text::OutOfMemory;
use post_board::Post;
use std::alloc::Global;
use std::snapshot::Snapshot;
use std::sync::Wait;
use std::sync::atomic::AtomicBool;
use std::sync::atomic::Ordering::SeqCst;
use std::thread::{Scope, Threads};
use sum_tree::Sums;

/// Starts a thread for one host. If none can be made its closure comes back, and gives the ranks as they were once its flag is
/// set.
fn start<
    's,
    E,
    J: Job + Send + Drop + 's,
    S: Send + Drop + 's,
    T: Send + Drop + 's,
    P: Post<Seat = S> + Send + Drop + 's,
    Q: Sums<Seat = T> + Send + Drop + 's,
    W: Threads + Wait + Sync,
>(
    rt: &'s W,
    scope: &Scope<'s, E>,
    refused: &'s AtomicBool,
    ranks: Ranks<J, S, T>,
    post: P,
    sums: Q,
) -> Result<Started<J, S, T, P, Q>, Back<J, S, T>>
    requires host { MayRun J.log P.shows P.tells P.seats Q.shows Q.tells Q.seats post sums ranks.items }
    ensures started { IfOk result (λ s. (s.before.value.items ≡ ranks.items) × (s.child.promise.1.value ≡ post) × (s.child.promise.2.value ≡ sums)) }
    ensures back { IfErr result (λ v. Gives J.log J.plain P.shows P.seats Q.shows Q.seats post sums ranks.items v) }
{
    let before = Snapshot::of(&ranks);
    let promise = RanFrom(
        Snapshot::of(&ranks),
        Snapshot::of(&post),
        Snapshot::of(&sums),
    );
    match scope.spawn_with(promise, move || {
        run_or_return(rt, refused, ranks, post, sums)
    }) {
        Ok(child) => Ok(Started { child, before }),
        Err(error) => {
            refused.store(true, SeqCst);
            Err((error.value)())
        }
    }
}

/// Waits for a host. If it gives its ranks back untouched, which it never does, runs them here.
fn finish<
    J: Job + Drop,
    S: Drop,
    T: Drop,
    P: Post<Seat = S> + Drop,
    Q: Sums<Seat = T> + Drop,
    W: Threads + Wait,
>(rt: &W, started: Started<J, S, T, P, Q>, post: &mut P, sums: &mut Q) -> Ranks<J, S, T>
    requires at { (started.child.promise.1.value ≡ post.old) × (started.child.promise.2.value ≡ sums.old) }
    requires ready { MayRun J.log P.shows P.tells P.seats Q.shows Q.tells Q.seats post.old sums.old started.before.value.items }
    ensures ran { HostRan J.log J.plain P.shows P.seats Q.shows Q.seats post.old sums.old started.before.value.items result.items }
    ensures still { (post.new ≡ post.old) × (sums.new ≡ sums.old) }
{
    let Started { child, before: _ } = started;
    match child.join(rt) {
        Back::Ran(ranks) => ranks,
        Back::Untouched(ranks) => run_host(rt, ranks, post, sums),
    }
}

/// Starts a thread for a host, or else puts its ranks behind those that run here. If the closure of a refused thread has run them,
/// they are done.
fn add_host<
    's,
    E,
    J: Job + Send + Drop + 's,
    S: Send + Drop + 's,
    T: Send + Drop + 's,
    P: Post<Seat = S> + Copy + Send + Drop + 's,
    Q: Sums<Seat = T> + Copy + Send + Drop + 's,
    W: Threads + Wait + Sync,
>(
    rt: &'s W,
    scope: &Scope<'s, E>,
    flag: &'s AtomicBool,
    post: P,
    sums: Q,
    whole: &Snapshot<Ranks<J, S, T>>,
    pool: &mut Pool<J, S, T, P, Q>,
    ranks: Ranks<J, S, T>,
)
    requires untold { (P.tells post ≡ None) × (Q.tells sums ≡ None) }
    requires ready { AllReady J.log P.shows P.seats Q.shows Q.seats whole.now.value.items post sums }
    requires ranks { IsHost whole.now.value.items ranks.items }
    requires pooled { Pooled J.log J.plain P.shows P.seats Q.shows Q.seats whole.now.value.items post sums pool.old }
    requires fits { Fits (length ranks.items) pool.old }
    ensures pooled { Pooled J.log J.plain P.shows P.seats Q.shows Q.seats whole.now.value.items post sums pool.new }
    ensures numbers { (h : ℕ → ℕ) → pooled_numbers h pool.new ≡ pooled_numbers h pool.old + sum_by (λ r. h r.me) ranks.items }
    ensures room { (n hosts : ℕ) → HasRoom n hosts pool.old → HasRoom n hosts pool.new }
    ensures few { length pool.new.started.items ≤ length pool.old.started.items + 1 }
    ensures all { pool.new.all.items ≡ pool.old.all.items }
{
    match start(rt, scope, flag, ranks, post, sums) {
        Ok(host) => add_one(&mut pool.started, host),
        Err(Back::Untouched(ranks)) => add_all(&mut pool.mine, ranks),
        Err(Back::Ran(ranks)) => add_all(&mut pool.done, ranks),
    }
}

// The flag of a host.
fn flag_at(flags: &[AtomicBool], k: usize) -> &AtomicBool
    requires { k < length flags.now }
{
    &flags[k]
}

/// Takes the memory that starting and joining need, and then runs all hosts. There are `count` ranks.
pub(crate) fn run_all<
    's,
    E,
    J: Job + Send + Drop + 's,
    S: Send + Drop + 's,
    T: Send + Drop + 's,
    P: Post<Seat = S> + Copy + Send + Drop + 's,
    Q: Sums<Seat = T> + Copy + Send + Drop + 's,
    W: Threads + Wait + Sync,
>(
    rt: &'s W,
    alloc: Global,
    scope: &Scope<'s, E>,
    post: P,
    sums: Q,
    whole: &Snapshot<Ranks<J, S, T>>,
    flags: &'s [AtomicBool],
    count: usize,
    mine: Ranks<J, S, T>,
    others: Vec<Ranks<J, S, T>>,
) -> Result<Ranks<J, S, T>, OutOfMemory>
    requires untold { (P.tells post ≡ None) × (Q.tells sums ≡ None) }
    requires placed { InPlace whole.now.value.items }
    requires ready { AllReady J.log P.shows P.seats Q.shows Q.seats whole.now.value.items post sums }
    requires flags { length flags.now ≡ length others.items }
    requires count { count ≡ length whole.now.value.items }
    requires mine { IsHost whole.now.value.items mine.items }
    requires others { All (λ host. IsHost whole.now.value.items host.items) others.items }
    requires numbers { (h : ℕ → ℕ) → sum_by (λ r. h r.me) mine.items + sum_by (λ host. sum_by (λ r. h r.me) host.items) others.items
        ≡ sum_by (λ r. h r.me) whole.now.value.items }
    ensures done { IfOk result (λ v. AreDone J.log J.plain P.shows P.seats Q.shows Q.seats whole.now.value.items post sums v.items) }
    ensures numbers { IfOk result (λ v. (h : ℕ → ℕ) → sum_by (λ r. h r.me) v.items ≡ sum_by (λ r. h r.me) whole.now.value.items) }
{
    let pool = Pool::make(alloc, count, others.len(), mine)?;
    Ok(run_hosts(rt, scope, post, sums, whole, flags, pool, others))
}

/// Starts a thread for each host but the first, runs the first host's ranks here with those of hosts that got none, and waits for
/// all. No memory is taken.
fn run_hosts<
    's,
    E,
    J: Job + Send + Drop + 's,
    S: Send + Drop + 's,
    T: Send + Drop + 's,
    P: Post<Seat = S> + Copy + Send + Drop + 's,
    Q: Sums<Seat = T> + Copy + Send + Drop + 's,
    W: Threads + Wait + Sync,
>(
    rt: &'s W,
    scope: &Scope<'s, E>,
    post: P,
    sums: Q,
    whole: &Snapshot<Ranks<J, S, T>>,
    flags: &'s [AtomicBool],
    mut pool: Pool<J, S, T, P, Q>,
    others: Vec<Ranks<J, S, T>>,
) -> Ranks<J, S, T>
    requires untold { (P.tells post ≡ None) × (Q.tells sums ≡ None) }
    requires placed { InPlace whole.now.value.items }
    requires ready { AllReady J.log P.shows P.seats Q.shows Q.seats whole.now.value.items post sums }
    requires flags { length flags.now ≡ length others.items }
    requires mine { All (IsOne whole.now.value.items) pool.mine.items }
    requires empty { (pool.done.items ≡ []) × (pool.started.items ≡ []) × (pool.all.items ≡ []) }
    requires room { HasRoom (length whole.now.value.items) (length others.items) pool }
    requires others { All (λ host. IsHost whole.now.value.items host.items) others.items }
    requires numbers { (h : ℕ → ℕ) → sum_by (λ r. h r.me) pool.mine.items + sum_by (λ host. sum_by (λ r. h r.me) host.items) others.items
        ≡ sum_by (λ r. h r.me) whole.now.value.items }
    ensures done { AreDone J.log J.plain P.shows P.seats Q.shows Q.seats whole.now.value.items post sums result.items }
    ensures numbers { (h : ℕ → ℕ) → sum_by (λ r. h r.me) result.items ≡ sum_by (λ r. h r.me) whole.now.value.items }
{
    let mut k = 0;
    for ranks in others {
        let flag = flag_at(flags, k);
        add_host(rt, scope, flag, post, sums, whole, &mut pool, ranks);
        k += 1;
    }
    let Pool {
        mine,
        done,
        started,
        mut all,
    } = pool;
    let mut at = post;
    let mut counts = sums;
    add_all(&mut all, run_host(rt, in_order(mine), &mut at, &mut counts));
    add_all(&mut all, done);
    for host in started {
        add_all(&mut all, finish(rt, host, &mut at, &mut counts));
    }
    all
}
