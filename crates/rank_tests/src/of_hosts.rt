//! Runs whose ranks are spread over threads.
ghost use Rattle.std.specs.Prelude.{◌≡◌, ◌≤◌, [], length, All, IfOk};

use circle_run::{Job, Options, Split, begin};
use path_text::{OutOfMemory, Path};
use rank_queue::Batch;
use std::alloc::Global;
use std::sync::atomic::AtomicU64;
use std::sync::atomic::Ordering::SeqCst;
use std::sync::{Arc, Wait};
use std::test::Fail;
use std::thread;
use std::thread::Threads;

// How often a job looks whether the others came before it gives up. It yields after each look, since they may have no
// processor yet.
const MOST_LOOKS: u64 = 1_000_000;

// Says at each string that it came, waits until so many have come, and notes whether they did.
#[derive(Drop)]
struct Meeting {
    alloc: Global,
    came: Arc<AtomicU64, Global>,
    all: u64,
    met: bool,
    steps: Vec<(Path, Vec<Path>)>,
}

impl Job for Meeting {
    ghost use Rattle.std.specs.Prelude.{map, ⊤, None};

    ghost log = { λ m. map (λ s. (s.0, s.1.items)) m.steps.items };

    ghost heard = { λ m. None };

    ghost Plain = { ⊤ };

    ghost plain = { λ m. tt };

    fn handle(
        &mut self,
        item: &Path,
        _waiting: u64,
        _fresh: &mut Batch,
    ) -> Result<(), OutOfMemory> {
        self.came.fetch_add(1, SeqCst);
        self.met = come(&self.came, self.all);
        self.steps.push((item.copy()?, Vec::new(self.alloc)))?;
        Ok(())
    }
}

// Whether so many come before the looks are used up.
fn come(came: &AtomicU64, all: u64) -> bool {
    for _ in 0..MOST_LOOKS {
        if came.load(SeqCst) >= all {
            return true;
        }
        thread::yield_now();
    }
    false
}

// Whether each of so many hosts, with one rank and one string each, waited for all others, and all came.
fn meet<R: Threads + Wait + Sync + AllocGlobal>(rt: &R, hosts: u32) -> Result<bool, Fail>
    requires { (1 ≤ hosts) × (hosts ≤ 64) }
{
    let alloc = rt.alloc();
    let came = Arc::new(alloc, AtomicU64::new(0))?;
    let jobs = meetings(alloc, &came, hosts)?;
    let mut starts = Vec::new(alloc);
    for number in 0..hosts {
        let text = format!(in alloc; "/{number}")?;
        starts.push(Path::parse(alloc, &text)?)?;
    }
    let options = Options {
        ranks: hosts,
        hosts,
        split: Split::Equal,
        seed: 0,
        width: 2,
        trace: false,
        stop_after: None,
    };
    let finished = begin(rt, alloc, &options, starts, jobs)?;
    Ok(
        finished
            .jobs
            .iter()
            .all(|job| job.met && job.steps.len() == 1),
    )
}

fn meetings(
    alloc: Global,
    came: &Arc<AtomicU64, Global>,
    count: u32,
) -> Result<Vec<Meeting>, OutOfMemory>
    ensures count { IfOk result (λ jobs. length jobs.items ≡ count) }
    ensures unused { IfOk result (λ jobs. All (λ m. m.steps.items ≡ []) jobs.items) }
{
    let mut jobs = Vec::new(alloc);
    while jobs.len() < count as usize {
        jobs.push(Meeting {
            alloc,
            came: Arc::try_clone(came)?,
            all: count as u64,
            met: false,
            steps: Vec::new(alloc),
        })?;
    }
    Ok(jobs)
}

// A run on one thread cannot pass this: each of two jobs waits for the other.
#[test]
fn two_hosts_meet(rt: HostRuntime) -> Result<(), Fail> {
    assert!(rt; meet(&rt, 2)?);
    Ok(())
}

// A run on two threads cannot pass this: each of four jobs waits for the other three.
#[test]
fn four_hosts_meet(rt: HostRuntime) -> Result<(), Fail> {
    assert!(rt; meet(&rt, 4)?);
    Ok(())
}
