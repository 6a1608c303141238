//! A program for measurements: `board_time STRINGS` handles so many strings of a made-up job by ranks in 1, 2 and 4 threads, over a board
//! and sums of atomic words. It then does so by as many threads that share one queue under a lock.
//!
//! Standard output has the number of strings of each run, and standard error has the strings a second. The job does nothing with a
//! string, or works for some ten microseconds. At the end one of 64 ranks looks for requests as many times; there are none. The
//! default is 1,000 strings.
#![tactic(auto)]

mod locked;

use crate::locked::by_lock;
use circle_run::Split;
use path_text::OutOfMemory;
use rank_threads::{Plan, counts, look, run_all, spin};
use std::alloc::Global;
use std::rt::Clock;
use std::sync::Wait;
use std::thread::Threads;
use std::time::{Duration, Instant};
use std::{env, io};

fn main(rt: HostRuntime) -> io::Result<()> {
    let mut words = env::args(&rt)?;
    let _ = words.next();
    let strings = words
        .next()
        .and_then(|word| word.parse::<u32>().ok())
        .unwrap_or(1000);
    let work = rounds_of_ten_micros(&rt)?;
    for (name, rounds) in [("idle", 0), ("work", work)] {
        for threads in [1, 2, 4] {
            let start = Instant::now(&rt)?;
            let ranks = by_ranks(&rt, rt.alloc(), strings, threads, rounds).unwrap_or(0);
            let by_board = start.elapsed(&rt)?;
            let start = Instant::now(&rt)?;
            let locked = by_lock(&rt, rt.alloc(), strings, threads, rounds).unwrap_or(0);
            let by_lock = start.elapsed(&rt)?;
            println!(rt; "{name} threads {threads} board {ranks} lock {locked}")?;
            let (board, lock) = (a_second(ranks, by_board), a_second(locked, by_lock));
            eprintln!(rt; "{name} threads {threads} strings a second: board {board} lock {lock}")?;
        }
    }
    let start = Instant::now(&rt)?;
    let none = look(rt.alloc(), 64, strings).unwrap_or(0);
    let time = start.elapsed(&rt)?;
    println!(rt; "looks {none}")?;
    eprintln!(rt; "{none} looks of one of 64 ranks in {time:?}")
}

// How many strings the ranks handled, each of which has a thread.
fn by_ranks<R: Threads + Wait + Sync>(
    rt: &R,
    alloc: Global,
    strings: u32,
    ranks: u32,
    rounds: u64,
) -> Result<u64, OutOfMemory> {
    if ranks == 0 || ranks > 64 {
        return Ok(0);
    }
    let plan = Plan {
        ranks,
        split: Split::Equal,
        seed: 0,
        rounds,
    };
    let seen = counts(alloc, strings)?;
    match run_all(rt, alloc, &plan, &seen)? {
        Some(came) => Ok(came.handled),
        None => Ok(0),
    }
}

// How many rounds take some ten microseconds.
fn rounds_of_ten_micros(rt: &(impl Clock + Eprint)) -> io::Result<u64> {
    let start = Instant::now(rt)?;
    let end = spin(0, 1_000_000);
    let micros = start.elapsed(rt)?.as_micros().max(1);
    let rounds = u64::try_from(10_000_000 / micros).unwrap_or(1000);
    eprintln!(rt; "{rounds} rounds with a string come to some 10 microseconds ({end})")?;
    Ok(rounds)
}

fn a_second(count: u64, time: Duration) -> u64 {
    let micros = time.as_micros().max(1);
    u64::try_from(count as u128 * 1_000_000 / micros).unwrap_or(0)
}
