//! The paths that wait at a rank.
ghost use Rattle.std.specs.Prelude.{◌≡◌, ◌==◌, ◌<◌, ◌≤◌, ◌++◌, ◌∷◌, [], length, take, drop, OnOk, OnErr, IfOk, IfSome, IfNone};

use crate::batches::Batch;
use path_text::{OutOfMemory, Path};
use std::alloc::{AllocError, Global};
use std::collections::VecDeque;
use std::marker::Model;

/// The paths that wait at a rank, seen as their list, oldest first.
#[derive(Drop)]
pub struct RankQueue {
    paths: VecDeque<Path>,
}

impl Model for RankQueue {
    ghost use Rattle.std.specs.Prelude.{List, ℕ};

    ghost Value = { List (List ℕ) };

    ghost view = { λ q. q.paths.items };
}

impl RankQueue {
    /// A queue in which no path waits.
    pub fn make(alloc: Global) -> RankQueue
        ensures { result ≡ [] }
    {
        RankQueue {
            paths: VecDeque::new(alloc),
        }
    }

    /// How many paths wait.
    pub fn len(&self) -> usize
        ensures { result ≡ length self.now }
    {
        self.paths.len()
    }

    /// Whether none waits.
    pub fn is_empty(&self) -> bool
        ensures { result ≡ (length self.now == 0) }
    {
        self.paths.is_empty()
    }

    /// Moves all paths of the batch behind the newest. The batch keeps its memory and can be filled again.
    pub fn push_all(&mut self, batch: &mut Batch) -> Result<(), OutOfMemory>
        ensures added { OnOk result (self.new ≡ self.old ++ batch.old) }
        ensures moved { OnOk result (batch.new ≡ []) }
        ensures queue_kept { OnErr result (self.new ≡ self.old) }
        ensures batch_kept { OnErr result (batch.new ≡ batch.old) }
    {
        self.paths.append(&mut batch.paths)?;
        Ok(())
    }

    /// Takes the newest.
    pub fn take(&mut self) -> Option<Path>
        ensures newest { IfSome result (λ path. self.old ≡ self.new ++ path ∷ []) }
        ensures none { IfNone result (self.old ≡ []) }
        ensures kept { IfNone result (self.new ≡ []) }
    {
        self.paths.pop_back()
    }

    /// Takes the `k` oldest, in order.
    pub fn give(&mut self, k: usize) -> Result<Batch, OutOfMemory>
        requires some { 1 ≤ k }
        requires fewer { k < length self.old }
        ensures given { IfOk result (λ batch. batch ≡ take k self.old) }
        ensures rest { OnOk result (self.new ≡ drop k self.old) }
        ensures err { OnErr result (self.new ≡ self.old) }
    {
        let paths = oldest(&mut self.paths, k)?;
        Ok(Batch { paths })
    }

    /// All that wait, oldest first.
    pub fn into_list(self) -> Vec<Path>
        ensures { result.items ≡ self }
    {
        self.paths.into_vec()
    }
}

// Takes the `k` oldest. It reserves the memory for them first, so a refusal loses none.
fn oldest(queue: &mut VecDeque<Path>, k: usize) -> Result<VecDeque<Path>, AllocError>
    requires { k < length queue.old.items }
    ensures given { IfOk result (λ batch. batch.items ≡ take k queue.old.items) }
    ensures rest { OnOk result (queue.new.items ≡ drop k queue.old.items) }
    ensures err { OnErr result (queue.new.items ≡ queue.old.items) }
{
    let mut batch = VecDeque::with_capacity(*queue.allocator(), k)?;
    for i in 0..k {
        match queue.pop_front() {
            Some(path) => batch.push_back_reserved(path),
            None => unreachable!(),
        }
    }
    Ok(batch)
}
