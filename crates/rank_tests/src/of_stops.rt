//! Runs that stop after so many strings, over the table of children.
ghost use Rattle.std.specs.Prelude.{◌≡◌, ◌≤◌};

use crate::of_circle_run::{CHILDREN, Family, families};
use circle_run::{CircleError, Finished, Options, Split, begin};
use path_text::Path;
use std::process::Abort;
use std::sync::Wait;
use std::test::Fail;
use std::thread::Threads;

// The starts dealt to the ranks.
const STARTS: [&str; 3] = ["/a", "/b", "/u"];

// How many strings there are in all.
const ALL: u64 = 9;

fn stopped<R: Threads + Wait + Sync + Abort + AllocGlobal>(
    rt: &R,
    ranks: u32,
    hosts: u32,
    most: u64,
) -> Result<Finished<Family>, CircleError>
    requires ranks { (1 ≤ ranks) × (ranks ≤ 64) }
    requires hosts { (1 ≤ hosts) × (hosts ≤ 64) }
{
    let alloc = rt.alloc();
    let mut starts = Vec::new(alloc);
    for text in STARTS {
        starts.push(Path::parse(alloc, text).expect(rt, "a path"))?;
    }
    let jobs = families(alloc, ranks)?;
    let options = Options {
        ranks,
        hosts,
        split: Split::Random,
        seed: most,
        width: 2,
        trace: false,
        stop_after: Some(most),
    };
    begin(rt, alloc, &options, starts, jobs)
}

// How often a string was handled.
fn handled(finished: &Finished<Family>, text: &str) -> u64 {
    let mut times: u64 = 0;
    for job in &finished.jobs {
        for step in &job.steps {
            if step.item.text() == text {
                times = times.saturating_add(1);
            }
        }
    }
    times
}

// How often a string was handled or is left.
fn found(finished: &Finished<Family>, text: &str) -> u64 {
    let mut times = handled(finished, text);
    for list in &finished.left {
        for path in list {
            if path.text() == text {
                times = times.saturating_add(1);
            }
        }
    }
    times
}

// Whether each start, and each string of the table whose parent was handled, was handled once or is left once.
fn finds_each_once(finished: &Finished<Family>) -> bool {
    for text in STARTS {
        if found(finished, text) != 1 {
            return false;
        }
    }
    for (parent, child) in CHILDREN {
        if found(finished, child) != handled(finished, parent) {
            return false;
        }
    }
    true
}

// Whether no rank handled more, and nothing is left if nothing may be.
fn stops_in_time(finished: &Finished<Family>, most: u64) -> bool {
    for job in &finished.jobs {
        if job.steps.len() as u64 > most {
            return false;
        }
    }
    most <= ALL || finished.left.iter().all(|list| list.is_empty())
}

fn try_all<R: Threads + Wait + Sync + Abort + AllocGlobal>(
    rt: &R,
    ranks: u32,
    hosts: u32,
) -> Result<(), Fail>
    requires ranks { (1 ≤ ranks) × (ranks ≤ 64) }
    requires hosts { (1 ≤ hosts) × (hosts ≤ 64) }
{
    for most in 1..21 {
        let finished = stopped(rt, ranks, hosts, most)?;
        assert!(rt; finds_each_once(&finished), "{most}");
        assert!(rt; stops_in_time(&finished, most), "{most}");
    }
    Ok(())
}

#[test]
fn one_rank_stops_in_time(rt: HostRuntime) -> Result<(), Fail> {
    try_all(&rt, 1, 1)
}

#[test]
fn four_ranks_of_one_host_stop_in_time(rt: HostRuntime) -> Result<(), Fail> {
    try_all(&rt, 4, 1)
}

#[test]
fn four_ranks_of_four_hosts_stop_in_time(rt: HostRuntime) -> Result<(), Fail> {
    try_all(&rt, 4, 4)
}

// The only rank leaves the strings that it has not come to.
#[test]
fn one_rank_leaves_the_rest(rt: HostRuntime) -> Result<(), Fail> {
    let finished = stopped(&rt, 1, 1, 2)?;
    assert_eq!(rt; finished.jobs.len(), 1);
    assert_eq!(rt; finished.left.len(), 1);
    assert_eq!(rt; finished.jobs[0].steps.len(), 2);
    let texts = ["/a", "/b", "/u/a"];
    assert_eq!(rt; finished.left[0].len(), texts.len());
    for (path, text) in finished.left[0].iter().zip(texts) {
        assert_eq!(rt; path.text(), text);
    }
    Ok(())
}
