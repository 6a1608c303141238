//! The pool that keeps ranks while their hosts are started and joined.
ghost use Rattle.std.specs.Prelude.{◌≡◌, ◌≤◌, ◌+◌, ◌++◌, ◌∷◌, [], length, vec_capacity, IfOk};
ghost use Rattle.circle_run.specs.Private.Pooled.{HasRoom};

use crate::backs::Ranks;
use crate::jobs::Job;
use crate::started::Started;
use path_text::OutOfMemory;
use post_board::Post;
use std::alloc::Global;
use sum_tree::Sums;

/// A pool keeps ranks while their hosts are started and joined. It is made before the first start, with memory for all, so nothing
/// takes memory while threads run. A caller that returned early would let the others wait for its ranks for ever.
#[derive(Drop)]
pub struct Pool<J: Job, S, T, P: Post<Seat = S>, Q: Sums<Seat = T>> {
    /// The ranks that run on the calling thread.
    pub(crate) mine: Ranks<J, S, T>,
    /// Ranks that ran already, though their thread was refused.
    pub(crate) done: Ranks<J, S, T>,
    /// The hosts that have a thread.
    pub(crate) started: Vec<Started<J, S, T, P, Q>>,
    /// The ranks that have come back.
    pub(crate) all: Ranks<J, S, T>,
}

impl<J: Job + Drop, S: Drop, T: Drop, P: Post<Seat = S> + Drop, Q: Sums<Seat = T> + Drop> Pool<
    J,
    S,
    T,
    P,
    Q,
> {
    /// A pool with room for so many ranks and hosts, with the ranks of the first host.
    pub(crate) fn make(
        alloc: Global,
        ranks: usize,
        hosts: usize,
        first: Ranks<J, S, T>,
    ) -> Result<Pool<J, S, T, P, Q>, OutOfMemory>
        requires few { length first.items ≤ ranks }
        ensures first { IfOk result (λ pool. pool.mine.items ≡ first.items) }
        ensures empty { IfOk result (λ pool. (pool.done.items ≡ []) × (pool.started.items ≡ []) × (pool.all.items ≡ [])) }
        ensures room { IfOk result (λ pool. HasRoom ranks hosts pool) }
    {
        let mut mine = Vec::with_capacity(alloc, ranks)?;
        add_all(&mut mine, first);
        Ok(Pool {
            mine,
            done: Vec::with_capacity(alloc, ranks)?,
            started: Vec::with_capacity(alloc, hosts)?,
            all: Vec::with_capacity(alloc, ranks)?,
        })
    }
}

/// Puts these behind the list, which has room for them.
pub(crate) fn add_all<X: Drop>(list: &mut Vec<X>, more: Vec<X>)
    requires room { length list.old.items + length more.items ≤ vec_capacity list.old }
    ensures items { list.new.items ≡ list.old.items ++ more.items }
    ensures room { vec_capacity list.old ≤ vec_capacity list.new }
{
    for x in more {
        add_one(list, x);
    }
}

/// Puts one behind the list, which has room for it.
pub(crate) fn add_one<X: Drop>(list: &mut Vec<X>, x: X)
    requires room { length list.old.items + 1 ≤ vec_capacity list.old }
    ensures items { list.new.items ≡ list.old.items ++ x ∷ [] }
    ensures room { vec_capacity list.old ≤ vec_capacity list.new }
{
    if let Err(_) = list.push(x) {
        unreachable!()
    }
}
