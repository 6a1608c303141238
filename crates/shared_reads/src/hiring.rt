//! Readers become workers, and readers again.
ghost use Rattle.std.specs.Prelude.{◌≡◌, ◌+◌, ◌≤◌, ◌++◌, length, map, reverse, All, IfOk, OnErr, vec_len, vec_capacity};
ghost use Rattle.shared_reads.specs.Desks.{HasRoom};
ghost use Rattle.shared_reads.specs.Private.Sharing.{IsIdle};

use crate::desks::Desk;
use crate::keeping::Kept;
use crate::sharing::Worker;
use path_text::OutOfMemory;
use std::alloc::Global;

// This many desks.
pub(crate) fn desks(alloc: Global, number: usize) -> Result<Vec<Desk>, OutOfMemory>
    ensures number { IfOk result (λ desks. length desks.items ≡ number) }
    ensures room { IfOk result (λ desks. All HasRoom desks.items) }
{
    let mut desks = Vec::with_capacity(alloc, number)?;
    while desks.len() < number {
        desks.push(Desk::make(alloc)?)?;
    }
    Ok(desks)
}

// A worker at each desk, with the last readers.
#[tactic(auto, using(crate::proofs::Hired::moved))]
pub(crate) fn hired<R: Drop, O: Drop>(
    alloc: Global,
    readers: &mut Vec<R>,
    mut desks: Vec<Desk>,
) -> Result<Vec<Worker<R, O>>, OutOfMemory>
    requires enough { length desks.items ≤ length readers.old.items }
    requires room { All HasRoom desks.items }
    ensures number { IfOk result (λ workers. length workers.items ≡ length desks.items) }
    ensures idle { IfOk result (λ workers. All IsIdle workers.items) }
    ensures readers { IfOk result (λ workers. readers.new.items ++ reverse (map (λ w. w.reader) workers.items) ≡ readers.old.items) }
    ensures room { IfOk result (λ workers. vec_len readers.new + vec_len workers ≤ vec_capacity readers.new) }
    ensures err { OnErr result (readers.new.items ≡ readers.old.items) }
{
    let mut workers = Vec::with_capacity(alloc, desks.len())?;
    while let Some(desk) = desks.pop() {
        let Some(reader) = readers.pop() else {
            unreachable!()
        };
        let found = Vec::new(alloc);
        let Ok(()) = workers.push(Worker {
            reader,
            desk,
            found,
        }) else {
            unreachable!()
        };
    }
    Ok(workers)
}

// The readers go back to their positions, and the outcomes of the workers are kept.
#[tactic(auto, using(crate::proofs::Hired::moved))]
pub(crate) fn dismissed<R: Drop, O: Drop>(
    mut workers: Vec<Worker<R, O>>,
    readers: &mut Vec<R>,
    kept: &mut Kept<O>,
)
    requires room { vec_len readers.old + vec_len workers ≤ vec_capacity readers.old }
    requires kept_room { vec_len kept.old.lists + vec_len workers ≤ vec_capacity kept.old.lists }
    ensures readers { readers.new.items ≡ readers.old.items ++ reverse (map (λ w. w.reader) workers.items) }
    ensures kept { kept.new.lists.items ≡ kept.old.lists.items ++ reverse (map (λ w. w.found) workers.items) }
{
    while let Some(worker) = workers.pop() {
        let Ok(()) = readers.push(worker.reader) else {
            unreachable!()
        };
        let Ok(()) = kept.lists.push(worker.found) else {
            unreachable!()
        };
    }
}
