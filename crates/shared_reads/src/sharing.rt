//! Workers that share the places of a job, in threads of their own. Each takes the next place that none has taken.
ghost use Rattle.std.specs.Prelude.{◌≡◌, ℕ, ◌<◌, [], length, All, slice_index_or};
ghost use Rattle.shared_reads.specs.Desks.{HasRoom};
ghost use Rattle.shared_reads.specs.Private.Sharing.{IsIdle, IsWorked};

use crate::desks::Desk;
use crate::jobs::Job;
use crate::keeping::{Found, keep};
use outside::Tree;
use path_text::OutOfMemory;
use std::sync::atomic::AtomicU64;
use std::sync::atomic::Ordering::SeqCst;
use std::thread;
use std::thread::Threads;

// A reader at a desk, and the outcomes that it found.
#[derive(Drop)]
pub(crate) struct Worker<R, O> {
    pub(crate) reader: R,
    pub(crate) desk: Desk,
    pub(crate) found: Vec<Found<O>>,
}

impl<R: Tree, O: Drop> Worker<R, O> {
    // Reads for places, each time for the next one that no worker has taken. It stops if it is out of memory.
    pub(crate) fn work<J: Job<R, O>>(&mut self, next: &AtomicU64, job: &J)
        requires { IsIdle self.old }
        ensures { IsWorked R.tree R.count (J.told job.now) J.faults self.old self.new }
    {
        let places = job.len();
        for _ in 0..places {
            let place = next.fetch_add(1, SeqCst);
            if place >= places as u64 {
                return;
            }
            let Ok(()) = self.read_at(place as usize, job) else {
                return;
            };
        }
    }

    // Reads for a place.
    fn read_at<J: Job<R, O>>(&mut self, place: usize, job: &J) -> Result<(), OutOfMemory>
        requires inside { place < J.places job.now }
        requires room { HasRoom self.old.desk }
        ensures on { (before : Worker R O) → IsWorked R.tree R.count (J.told job.now) J.faults before self.old
            → IsWorked R.tree R.count (J.told job.now) J.faults before self.new }
        ensures room { HasRoom self.new.desk }
    {
        if let Some(outcome) = job.read(place, &mut self.reader, &mut self.desk)? {
            keep(&mut self.found, Found { place, outcome })?;
        }
        Ok(())
    }
}

// Lets the workers read, in so many threads at most.
pub(crate) fn work_all<W: Threads + Sync, R: Tree + Send, O: Send + Drop, J: Job<R, O> + Sync>(
    rt: &W,
    workers: &mut [Worker<R, O>],
    job: &J,
    hosts: usize,
)
    requires hosts { 0 < hosts }
    requires idle { All IsIdle workers.old }
    ensures { (k : ℕ) (d : Worker R O) → k < length workers.old
        → IsWorked R.tree R.count (J.told job.now) J.faults (slice_index_or workers.old k d) (slice_index_or workers.new k d) }
{
    let next = AtomicU64::new(0);
    thread::for_each_mut(rt, workers, hosts, &|_, worker| worker.work(&next, job));
}
