//! Runs over a table of children. The events of two ranks that share one start are a row of `worked_rows`.
ghost use Rattle.std.specs.Prelude.{◌≡◌, ◌≤◌, [], length, All, IfOk};

use circle_run::{CircleError, Finished, Job, Options, Split, begin};
use path_text::{OutOfMemory, Path};
use rank_queue::Batch;
use ring_core::{Verdict, check_run};
use std::alloc::Global;
use std::process::Abort;
use std::sync::Wait;
use std::test::Fail;
use std::thread::Threads;

pub(crate) const CHILDREN: [(&str, &str); 7] = [
    ("/b", "/b/x"),
    ("/b", "/b/y"),
    ("/b/y", "/b/y/z"),
    ("/a", "/a/x"),
    ("/bad", "/bad/x"),
    ("/u", "/u/a"),
    ("/u", "/u/b"),
];

// A string that was handled.
#[derive(Drop)]
pub(crate) struct Step {
    pub(crate) item: Path,
    waiting: u64,
    pushed: Vec<Path>,
}

// Pushes the children of a string by the table, and refuses the string `/bad`.
#[derive(Drop)]
pub(crate) struct Family {
    pub(crate) alloc: Global,
    pub(crate) steps: Vec<Step>,
}

impl Job for Family {
    ghost use Rattle.std.specs.Prelude.{map, ⊤, Some};

    ghost log = { λ f. map (λ s. (s.item, s.pushed.items)) f.steps.items };

    ghost heard = { λ f. Some (map (λ s. s.waiting) f.steps.items) };

    ghost Plain = { ⊤ };

    ghost plain = { λ f. tt };

    fn handle(&mut self, item: &Path, waiting: u64, fresh: &mut Batch) -> Result<(), OutOfMemory> {
        let Ok(step) = step_of(self.alloc, item, waiting, fresh) else {
            fresh.clear();
            return Err(OutOfMemory);
        };
        if self.steps.push(step).is_err() {
            fresh.clear();
            return Err(OutOfMemory);
        }
        Ok(())
    }
}

fn step_of(alloc: Global, item: &Path, waiting: u64, fresh: &mut Batch) -> Result<Step, OutOfMemory>
    requires { fresh.old ≡ [] }
    ensures item { IfOk result (λ s. s.item ≡ item.now) }
    ensures waiting { IfOk result (λ s. s.waiting ≡ waiting) }
    ensures pushed { IfOk result (λ s. s.pushed.items ≡ fresh.new) }
{
    if item.text() == "/bad" {
        return Err(OutOfMemory);
    }
    let pushed = put_children(alloc, item, fresh)?;
    let item = item.copy()?;
    Ok(Step {
        item,
        waiting,
        pushed,
    })
}

fn put_children(alloc: Global, item: &Path, fresh: &mut Batch) -> Result<Vec<Path>, OutOfMemory>
    requires { fresh.old ≡ [] }
    ensures { IfOk result (λ pushed. pushed.items ≡ fresh.new) }
{
    let mut pushed = Vec::new(alloc);
    for (parent, child) in CHILDREN {
        if item.text() == parent {
            let Ok(path) = Path::parse(alloc, child) else {
                return Err(OutOfMemory);
            };
            pushed.push(path.copy()?)?;
            fresh.push(path)?;
        }
    }
    Ok(pushed)
}

pub(crate) fn families(alloc: Global, count: u32) -> Result<Vec<Family>, OutOfMemory>
    ensures count { IfOk result (λ jobs. length jobs.items ≡ count) }
    ensures unused { IfOk result (λ jobs. All (λ f. f.steps.items ≡ []) jobs.items) }
{
    let mut jobs = Vec::new(alloc);
    while jobs.len() < count as usize {
        let steps = Vec::new(alloc);
        jobs.push(Family { alloc, steps })?;
    }
    Ok(jobs)
}

fn ran<R: Threads + Wait + Sync + Abort + AllocGlobal>(
    rt: &R,
    ranks: u32,
    split: Split,
    seed: u64,
    texts: &[&str],
) -> Result<Finished<Family>, CircleError>
    requires { (1 ≤ ranks) × (ranks ≤ 64) }
{
    let alloc = rt.alloc();
    let mut starts = Vec::new(alloc);
    for text in texts {
        starts.push(Path::parse(alloc, text).expect(rt, "a path"))?;
    }
    let jobs = families(alloc, ranks)?;
    let options = Options {
        ranks,
        hosts: 1,
        split,
        seed,
        width: 2,
        trace: true,
        stop_after: None,
    };
    begin(rt, alloc, &options, starts, jobs)
}

#[test]
fn the_newest_string_is_handled_first(rt: HostRuntime) -> Result<(), Fail> {
    let finished = ran(&rt, 1, Split::Equal, 0, &["/a", "/b"])?;
    let handled = [
        ("/b", 1),
        ("/b/y", 2),
        ("/b/y/z", 2),
        ("/b/x", 1),
        ("/a", 0),
        ("/a/x", 0),
    ];
    assert_eq!(rt; finished.jobs.len(), 1);
    let steps = &finished.jobs[0].steps;
    assert_eq!(rt; steps.len(), handled.len());
    for (step, (text, waiting)) in steps.iter().zip(handled) {
        assert_eq!(rt; step.item.text(), text);
        assert_eq!(rt; step.waiting, waiting, "{text}");
    }
    assert_eq!(rt; finished.sums.as_slice(), [6].as_slice());
    Ok(())
}

// The nine strings of three starts, whatever the ranks, the split and the seed.
#[test]
fn each_trace_is_a_run_to_the_end(rt: HostRuntime) -> Result<(), Fail> {
    for ranks in 1..6 {
        for split in [Split::Equal, Split::Random] {
            for seed in [1, 7] {
                replay(&rt, ranks, split, seed)?;
            }
        }
    }
    replay(&rt, 64, Split::Random, 3)
}

fn replay<R: Threads + Wait + Sync + Abort + AllocGlobal>(
    rt: &R,
    ranks: u32,
    split: Split,
    seed: u64,
) -> Result<(), Fail>
    requires { (1 ≤ ranks) × (ranks ≤ 64) }
{
    let finished = ran(rt, ranks, split, seed, &["/a", "/b", "/u"])?;
    let whole = Verdict {
        over: true,
        queued: 0,
        on_way: 0,
        handled: 9,
    };
    assert_eq!(rt; check_run(rt.alloc(), &finished.events, ranks, 3)?, whole);
    Ok(())
}

#[test]
fn without_a_start_nothing_is_handled(rt: HostRuntime) -> Result<(), Fail> {
    let finished = ran(&rt, 3, Split::Equal, 0, &[])?;
    assert_eq!(rt; finished.jobs.len(), 3);
    assert!(rt; finished.jobs[0].steps.is_empty());
    assert_eq!(rt; finished.left.len(), 3);
    assert_eq!(rt; finished.sums.as_slice(), [0].as_slice());
    Ok(())
}

#[test]
fn a_job_that_finds_no_memory_ends_the_run(rt: HostRuntime) {
    assert!(rt;
        ran(&rt, 2, Split::Equal, 0, &["/bad", "/a"]).err() == Some(CircleError::OutOfMemory)
    );
}
