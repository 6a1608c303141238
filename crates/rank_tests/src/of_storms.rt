//! Storms: ranks in eight threads over one board of words and one tree of sums, by which each string is handled once.
ghost use Rattle.std.specs.Prelude.{◌≡◌, [], length, All, IfOk};

use circle_run::{Finished, Options, Split, begin};
use path_text::{OutOfMemory, Path};
use rank_threads::{Plan, Sprout, counts, run_all};
use std::alloc::Global;
use std::process::Abort;
use std::sync::Wait;
use std::sync::atomic::{AtomicU64, Ordering};
use std::test::Fail;
use std::thread::Threads;

const SEEDS: u64 = 100;

// bench/storms.sh runs these tests with more.
const STRINGS: u32 = 10_000;

// Each of eight ranks is in a thread of its own.
#[test]
fn eight_threads_handle_each_string_once(rt: HostRuntime) -> Result<(), Fail> {
    for seed in 0..SEEDS {
        let plan = Plan {
            ranks: 8,
            split: split_of(seed),
            seed,
            rounds: 0,
        };
        let seen = counts(rt.alloc(), STRINGS)?;
        let came = run_all(&rt, rt.alloc(), &plan, &seen)?.ok_or("eight threads")?;
        assert!(rt; are_ones(&seen), "seed {seed}");
        assert_eq!(rt; (came.handled, came.sum), (STRINGS as u64, STRINGS as u64));
        assert_eq!(rt; came.given, came.taken, "seed {seed}");
    }
    Ok(())
}

// Fifty seeds with one split and fifty with the other, as a test has a time limit.
#[test]
fn eight_threads_of_eight_ranks_share_in_equal_parts(rt: HostRuntime) -> Result<(), Fail> {
    for seed in 0..SEEDS / 2 {
        handle_all(&rt, Split::Equal, seed)?;
    }
    Ok(())
}

#[test]
fn eight_threads_of_eight_ranks_share_by_lot(rt: HostRuntime) -> Result<(), Fail> {
    for seed in SEEDS / 2..SEEDS {
        handle_all(&rt, Split::Random, seed)?;
    }
    Ok(())
}

// Each of eight threads has eight ranks, which together handle each string once.
fn handle_all<R: Threads + Wait + Sync + Abort + AllocGlobal>(
    rt: &R,
    split: Split,
    seed: u64,
) -> Result<(), Fail> {
    let seen = counts(rt.alloc(), STRINGS)?;
    let finished = spread(rt, split, seed, &seen)?;
    assert!(rt; are_ones(&seen), "seed {seed}");
    assert_eq!(rt; finished.sums.last().copied(), Some(STRINGS as u64));
    Ok(())
}

fn split_of(seed: u64) -> Split {
    if seed % 2 == 0 {
        Split::Equal
    } else {
        Split::Random
    }
}

fn are_ones(counts: &[AtomicU64]) -> bool {
    counts.iter().all(|count| count.load(Ordering::SeqCst) == 1)
}

fn spread<'s, R: Threads + Wait + Sync + AllocGlobal>(
    rt: &R,
    split: Split,
    seed: u64,
    seen: &'s [AtomicU64],
) -> Result<Finished<Sprout<'s>>, Fail> {
    let alloc = rt.alloc();
    let options = Options {
        ranks: 64,
        hosts: 8,
        split,
        seed,
        width: 2,
        trace: false,
        stop_after: None,
    };
    let mut starts = Vec::new(alloc);
    starts.push(Path::parse(alloc, "/0")?)?;
    let jobs = sprouts(alloc, seen, 64)?;
    Ok(begin(rt, alloc, &options, starts, jobs)?)
}

// So many jobs, none of which has handled anything.
fn sprouts<'s>(
    alloc: Global,
    seen: &'s [AtomicU64],
    count: u32,
) -> Result<Vec<Sprout<'s>>, OutOfMemory>
    ensures count { IfOk result (λ jobs. length jobs.items ≡ count) }
    ensures unused { IfOk result (λ jobs. All (λ s. s.steps.items ≡ []) jobs.items) }
{
    let mut jobs = Vec::new(alloc);
    while jobs.len() < count as usize {
        jobs.push(Sprout::make(alloc, seen, 0))?;
    }
    Ok(jobs)
}
