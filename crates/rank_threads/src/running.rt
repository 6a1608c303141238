//! A run of ranks in threads.
ghost use Rattle.std.specs.Prelude.{◌≡◌, ◌≤◌, All};
ghost use Rattle.rank_threads.specs.Fits.{Fits};

use crate::dealing::{Place, deal};
use crate::workers::Worker;
use circle_run::{Options, Split};
use path_text::OutOfMemory;
use post_board::Board;
use std::alloc::Global;
use std::sync::Wait;
use std::sync::atomic::{AtomicU64, Ordering};
use std::thread;
use std::thread::Threads;
use sum_tree::SumTree;

/// The settings of a run.
#[derive(Clone, Copy, Debug, Drop, PartialEq, Eq)]
pub struct Plan {
    /// The number of ranks, each in a thread of its own.
    pub ranks: u32,
    /// How much an asked rank gives.
    pub split: Split,
    /// The seed of the random numbers.
    pub seed: u64,
    /// How many rounds of made-up work each string takes.
    pub rounds: u64,
}

/// The result of a run.
#[derive(Clone, Copy, Debug, Drop, PartialEq, Eq)]
pub struct Outcome {
    /// How many strings all ranks handled.
    pub handled: u64,
    /// How many strings they gave.
    pub given: u64,
    /// How many strings they took.
    pub taken: u64,
    /// The sum of the handled strings that rank 0 found.
    pub sum: u64,
}

/// The counts to which the threads add.
#[derive(Drop)]
struct Totals {
    stop: AtomicU64,
    handled: AtomicU64,
    given: AtomicU64,
    taken: AtomicU64,
    sum: AtomicU64,
}

impl Totals {
    fn none() -> Totals {
        Totals {
            stop: AtomicU64::new(0),
            handled: AtomicU64::new(0),
            given: AtomicU64::new(0),
            taken: AtomicU64::new(0),
            sum: AtomicU64::new(0),
        }
    }

    // Runs the worker to its end, and adds its counts.
    fn add<R: Wait>(&self, rt: &R, worker: Worker)
        requires { Fits worker }
    {
        let me = worker.me;
        let Some((share, sum)) = worker.go(rt, &self.stop) else {
            return;
        };
        self.handled.fetch_add(share.handled, Ordering::SeqCst);
        self.given.fetch_add(small(share.given), Ordering::SeqCst);
        self.taken.fetch_add(small(share.taken), Ordering::SeqCst);
        if me == 0 {
            self.sum.store(sum, Ordering::SeqCst);
        }
    }
}

fn small(count: u128) -> u64 {
    u64::try_from(count).unwrap_or(u64::MAX)
}

// Runs each worker to its end in a thread of its own.
fn go_all<'x, R: Threads + Wait + Sync>(rt: &'x R, totals: &'x Totals, workers: Vec<Worker<'x, 'x>>)
    requires { All Fits workers.items }
{
    thread::scope(
        thread::scope_env(),
        rt,
        |scope| -> ()
            requires { All Fits workers.items }
        {
            for worker in workers {
                let work = move || -> ()
                    requires { Fits worker }
                { totals.add(rt, worker) };
                if scope.spawn(work).is_err() {
                    totals.stop.store(1, Ordering::SeqCst);
                }
            }
        },
    );
}

/// Runs the made-up job in a thread for each rank, from the string `/0` on. `None` if a thread could not be started.
pub fn run_all<R: Threads + Wait + Sync>(
    rt: &R,
    alloc: Global,
    plan: &Plan,
    seen: &[AtomicU64],
) -> Result<Option<Outcome>, OutOfMemory>
    requires { (1 ≤ plan.now.ranks) × (plan.now.ranks ≤ 64) }
{
    let options = Options {
        ranks: plan.ranks,
        hosts: plan.ranks,
        split: plan.split,
        seed: plan.seed,
        width: 2,
        trace: false,
        stop_after: None,
    };
    let (board, seats) = Board::make(alloc, plan.ranks)?;
    let (sums, sums_seats) = SumTree::make(alloc, plan.ranks, 2)?;
    let (lasts, last_seats) = SumTree::make(alloc, plan.ranks, 2)?;
    let place = Place {
        board: &board,
        sums: &sums,
        lasts: &lasts,
    };
    let workers = deal(
        alloc,
        &options,
        place,
        seats,
        sums_seats,
        last_seats,
        seen,
        plan.rounds,
    )?;
    let totals = Totals::none();
    go_all(rt, &totals, workers);
    Ok(totals.outcome())
}

impl Totals {
    // The result of the run, if it came to its end.
    fn outcome(&self) -> Option<Outcome> {
        if self.stop.load(Ordering::SeqCst) != 0 {
            return None;
        }
        Some(Outcome {
            handled: self.handled.load(Ordering::SeqCst),
            given: self.given.load(Ordering::SeqCst),
            taken: self.taken.load(Ordering::SeqCst),
            sum: self.sum.load(Ordering::SeqCst),
        })
    }
}
