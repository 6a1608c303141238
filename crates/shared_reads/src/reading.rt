//! All places of a job, shared among readers.
ghost use Rattle.std.specs.Prelude.{◌≡◌, ◌<◌, ◌≤◌, length, map, Option, IfOk, All};
ghost use Rattle.outside.specs.Tree.{Files};
ghost use Rattle.shared_reads.specs.Counts.{NoneFell, RoseTogether};
ghost use Rattle.shared_reads.specs.Kept.{Holds, held};

use crate::hiring::{desks, dismissed, hired};
use crate::jobs::Job;
use crate::keeping::Kept;
use crate::sharing::work_all;
use outside::Tree;
use path_text::OutOfMemory;
use std::alloc::Global;
use std::thread::Threads;

/// Reads for the places of a job, in as many threads as hosts at most, each with a reader and a desk of its own. All readers
/// are there again afterwards, in their order, even if the call was out of memory. Besides the outcomes it takes memory for a
/// desk and for some hundred bytes for each thread.
pub fn read_all<W: Threads + Sync, R: Tree + Send + Drop, O: Send + Drop, J: Job<R, O> + Sync>(
    rt: &W,
    alloc: Global,
    job: &J,
    readers: &mut Vec<R>,
    hosts: u32,
) -> Result<Kept<O>, OutOfMemory>
    requires some { 0 < length readers.old.items }
    requires hosts { 1 ≤ hosts }
    ensures told { IfOk result (λ kept. (tree : Option Files) → All (λ r. R.tree r ≡ tree) readers.old.items → Holds (J.told job.now tree) kept) }
    ensures counted { IfOk result (λ kept. RoseTogether (held J.faults kept) (map R.count readers.old.items) (map R.count readers.new.items)) }
    ensures none_fell { NoneFell (map R.count readers.old.items) (map R.count readers.new.items) }
    ensures same { map R.tree readers.new.items ≡ map R.tree readers.old.items }
{
    let number = worker_count(hosts, readers.len(), job.len());
    let desks = desks(alloc, number)?;
    let mut kept = Kept {
        lists: Vec::with_capacity(alloc, number)?,
    };
    let mut workers = hired(alloc, readers, desks)?;
    work_all(rt, &mut workers, job, number);
    dismissed(workers, readers, &mut kept);
    Ok(kept)
}

// How many workers are of use: no more than threads, than readers, and than places.
fn worker_count(hosts: u32, readers: usize, places: usize) -> usize
    requires hosts { 1 ≤ hosts }
    requires readers { 1 ≤ readers }
    ensures some { 1 ≤ result }
    ensures enough { result ≤ readers }
{
    readers.min(hosts as usize).min(places.max(1))
}
