//! The same job by threads that share one queue under a lock, which is the plain way to write it.
ghost use Rattle.std.specs.Prelude.{◌≡◌, []};

use circle_run::Job;
use path_text::{OutOfMemory, Path};
use rank_queue::{Batch, RankQueue};
use rank_threads::{Sprout, counts};
use std::alloc::Global;
use std::sync::atomic::{AtomicU64, Ordering};
use std::sync::{Mutex, Wait};
use std::thread;
use std::thread::Threads;

/// The strings that wait, and how many wait or are being handled.
#[derive(Drop)]
struct Shared {
    queue: RankQueue,
    unfinished: u64,
}

/// The next step of a thread.
enum Next {
    Handle(Path),
    Wait,
    End,
}

/// How many strings these threads handled, from the string `/0` on.
pub fn by_lock<R: Threads + Wait + Sync>(
    rt: &R,
    alloc: Global,
    strings: u32,
    threads: u32,
    rounds: u64,
) -> Result<u64, OutOfMemory> {
    let seen = counts(alloc, strings)?;
    let shared = Mutex::new(started(alloc)?);
    let handled = AtomicU64::new(0);
    work_all(rt, alloc, &shared, &seen, &handled, threads, rounds);
    Ok(handled.load(Ordering::SeqCst))
}

fn started(alloc: Global) -> Result<Shared, OutOfMemory> {
    let mut starts = Batch::make(alloc);
    starts.push(Path::parse(alloc, "/0").map_err(|_| OutOfMemory)?)?;
    let mut queue = RankQueue::make(alloc);
    queue.push_all(&mut starts)?;
    Ok(Shared {
        queue,
        unfinished: 1,
    })
}

fn work_all<'x, R: Threads + Wait + Sync>(
    rt: &'x R,
    alloc: Global,
    shared: &'x Mutex<Shared>,
    seen: &'x [AtomicU64],
    handled: &'x AtomicU64,
    threads: u32,
    rounds: u64,
) {
    thread::scope(thread::scope_env(), rt, |scope| {
        for _ in 0..threads {
            let _ = scope.spawn(move || {
                let count = work(rt, alloc, shared, seen, rounds);
                handled.fetch_add(count, Ordering::SeqCst);
            });
        }
    });
}

// Handles strings until none is left.
fn work<R: Wait>(
    rt: &R,
    alloc: Global,
    shared: &Mutex<Shared>,
    seen: &[AtomicU64],
    rounds: u64,
) -> u64 {
    let mut job = Sprout::make(alloc, seen, rounds);
    let mut handled = 0u64;
    for _ in rt.forever() {
        match take_next(rt, shared) {
            Next::End => break,
            Next::Wait => thread::yield_now(),
            Next::Handle(path) => {
                let mut fresh = Batch::make(alloc);
                let _ = job.handle(&path, 0, &mut fresh);
                put(rt, shared, &mut fresh);
                handled = handled.saturating_add(1);
            }
        }
    }
    handled
}

fn take_next<R: Wait>(rt: &R, shared: &Mutex<Shared>) -> Next {
    let mut guard = shared.lock(rt);
    let shared = &mut *guard;
    match shared.queue.take() {
        Some(path) => Next::Handle(path),
        None if shared.unfinished == 0 => Next::End,
        None => Next::Wait,
    }
}

// Notes that a string was handled, and queues those that it pushed.
fn put<R: Wait>(rt: &R, shared: &Mutex<Shared>, fresh: &mut Batch) {
    let mut guard = shared.lock(rt);
    let shared = &mut *guard;
    let more = fresh.len() as u64;
    shared.unfinished = shared.unfinished.saturating_add(more).saturating_sub(1);
    let _ = shared.queue.push_all(fresh);
}
