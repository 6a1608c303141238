//! The logs of a walk, cut into runs in several threads.
//!
//! The logs are halved, and the threads with them, until there is one thread or one log.
ghost use Rattle.std.specs.Prelude.{◌≡◌, ◌-◌, ◌<◌, ◌≤◌, IfOk};
ghost use Rattle.std.specs.List.{flat_map};
ghost use Rattle.std.specs.List.Sorted.{IsPermutation};
ghost use denote.Param.Send.{IsSync};

use crate::lists::FlatList;
use crate::merging::len_of;
use crate::runs::runs_of;
use path_text::OutOfMemory;
use std::alloc::Global;
use std::thread;
use std::thread::Threads;

// Below this number one thread puts the entries in order.
const FEW: usize = 4096;

/// All entries of the logs as runs, by up to `hosts` threads.
#[cycle(halves)]
pub(crate) fn runs_by<R: Threads + Sync>(
    rt: &R,
    alloc: Global,
    logs: Vec<FlatList>,
    hosts: u32,
) -> Result<Vec<FlatList>, OutOfMemory>
    requires { 1 ≤ hosts }
    ensures { IfOk result (λ runs. IsPermutation (flat_map (λ log. log) logs.items) (flat_map (λ run. run) runs.items)) }
{
    if hosts == 1 || logs.len() < 2 || len_of(&logs) < FEW {
        return runs_of(alloc, logs);
    }
    let mut logs = logs;
    let later = logs.split_off(logs.len() / 2)?;
    let few = hosts / 2;
    let front = move || -> Result<Vec<FlatList>, OutOfMemory>
        requires { IsSync R.row × (few < hosts) × (1 ≤ hosts - few) }
        ensures { IfOk result (λ runs. IsPermutation (flat_map (λ log. log) logs.items) (flat_map (λ run. run) runs.items)) }
    { runs_by(rt, alloc, logs, hosts - few) };
    let back = move || -> Result<Vec<FlatList>, OutOfMemory>
        requires { IsSync R.row × (1 ≤ few) }
        ensures { IfOk result (λ runs. IsPermutation (flat_map (λ log. log) later.items) (flat_map (λ run. run) runs.items)) }
    { runs_by(rt, alloc, later, few) };
    let (one, other) = thread::join(rt, front, back);
    let mut all = one?;
    let mut other = other?;
    all.append(&mut other)?;
    Ok(all)
}
