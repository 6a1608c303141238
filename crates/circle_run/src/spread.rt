//! Spreading ranks over hosts: rank `r` goes to host `r` modulo `hosts`.
ghost use Rattle.std.specs.Prelude.{◌≡◌, ◌+◌, ◌<◌, ◌%◌, ◌≤◌, ◌==◌, ℕ, All, IfOk, length};
ghost use Rattle.std.specs.List.{sum_by};
ghost use Rattle.circle_run.specs.Private.Away.{IsHost, one_if};

use crate::backs::Ranks;
use crate::jobs::Job;
use path_text::OutOfMemory;
use std::alloc::Global;
use std::snapshot::Snapshot;
use std::sync::atomic::AtomicBool;

/// The ranks of host 0, and those of each other host.
pub(crate) fn spread<J: Job + Drop, S: Drop, T: Drop>(
    alloc: Global,
    whole: &Snapshot<Ranks<J, S, T>>,
    ranks: Ranks<J, S, T>,
    hosts: u32,
) -> Result<(Ranks<J, S, T>, Vec<Ranks<J, S, T>>), OutOfMemory>
    requires some { 1 ≤ hosts }
    requires ranks { IsHost whole.now.value.items ranks.items }
    ensures mine { IfOk result (λ made. IsHost whole.now.value.items made.0.items) }
    ensures own { IfOk result (λ made. (j : ℕ) → 1 ≤ j → j < hosts → sum_by (λ r. one_if (r.me % hosts == j)) made.0.items ≡ 0) }
    ensures others { IfOk result (λ made. All (λ host. IsHost whole.now.value.items host.items) made.1.items) }
    ensures numbers { IfOk result (λ made. (h : ℕ → ℕ)
        → sum_by (λ r. h r.me) made.0.items + sum_by (λ host. sum_by (λ r. h r.me) host.items) made.1.items ≡ sum_by (λ r. h r.me) ranks.items) }
{
    let mut left = ranks;
    let mut others = Vec::with_capacity(alloc, hosts as usize)?;
    for host in 1..hosts {
        let (chosen, rest) = split(alloc, whole, left, host, hosts)?;
        others.push(chosen)?;
        left = rest;
    }
    Ok((left, others))
}

// The ranks of this host, and the others.
fn split<J: Job + Drop, S: Drop, T: Drop>(
    alloc: Global,
    whole: &Snapshot<Ranks<J, S, T>>,
    ranks: Ranks<J, S, T>,
    host: u32,
    hosts: u32,
) -> Result<(Ranks<J, S, T>, Ranks<J, S, T>), OutOfMemory>
    requires some { 1 ≤ hosts }
    requires ranks { IsHost whole.now.value.items ranks.items }
    ensures chosen { IfOk result (λ made. IsHost whole.now.value.items made.0.items) }
    ensures own { IfOk result (λ made. All (λ r. r.me % hosts ≡ host) made.0.items) }
    ensures rest { IfOk result (λ made. IsHost whole.now.value.items made.1.items) }
    ensures left { IfOk result (λ made. sum_by (λ r. one_if (r.me % hosts == host)) made.1.items ≡ 0) }
    ensures numbers { IfOk result (λ made. (h : ℕ → ℕ)
        → sum_by (λ r. h r.me) made.0.items + sum_by (λ r. h r.me) made.1.items ≡ sum_by (λ r. h r.me) ranks.items) }
{
    let mut chosen = Vec::new(alloc);
    let mut rest = Vec::with_capacity(alloc, ranks.len())?;
    for rank in ranks {
        if rank.number() % hosts == host {
            chosen.push(rank)?;
        } else {
            rest.push(rank)?;
        }
    }
    Ok((chosen, rest))
}

/// Flags that are not set.
pub(crate) fn unset(alloc: Global, count: usize) -> Result<Vec<AtomicBool>, OutOfMemory>
    ensures { IfOk result (λ flags. length flags.items ≡ count) }
{
    let mut flags = Vec::with_capacity(alloc, count)?;
    for number in 0..count {
        flags.push(AtomicBool::new(false))?;
    }
    Ok(flags)
}
