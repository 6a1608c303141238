//! The ranks of a run as they begin, and their parts at its end.
ghost use Rattle.std.specs.Prelude.{◌≡◌, ◌<◌, ◌≤◌, [], map, length, replicate, All, IfOk};
ghost use Rattle.std.specs.List.{range_with_len};
ghost use Rattle.circle_run.specs.Stages.{dealt_to};
ghost use Rattle.circle_run.specs.Private.Outcomes.{AreNew, ArePartsOf};

use crate::books::Book;
use crate::jobs::Job;
use crate::outcomes::Finished;
use crate::ranks::Rank;
use crate::settings::Options;
use path_text::{OutOfMemory, Path};
use rank_queue::{Batch, RankQueue};
use std::alloc::Global;

/// The parts of ranks: their seats, in each list by rank, and what they leave as the result of the run, without its events.
#[derive(Drop)]
pub struct Parts<J, S, T> {
    pub(crate) seats: Vec<S>,
    pub(crate) sums_seats: Vec<T>,
    pub(crate) finished: Finished<J>,
}

/// The starts, dealt in turn to so many queues.
pub(crate) fn deal(
    alloc: Global,
    ranks: u32,
    starts: Vec<Path>,
) -> Result<Vec<RankQueue>, OutOfMemory>
    requires { 0 < ranks }
    ensures { IfOk result (λ queues. queues.items ≡ map (dealt_to ranks starts.items) (range_with_len 0 ranks)) }
{
    let mut batches = empty_batches(alloc, ranks)?;
    let mut next = 0;
    for path in starts {
        batches[next].push(path)?;
        next = (next + 1) % ranks as usize;
    }
    queues_of(alloc, batches)
}

fn empty_batches(alloc: Global, count: u32) -> Result<Vec<Batch>, OutOfMemory>
    ensures { IfOk result (λ batches. batches.items ≡ replicate count []) }
{
    let mut batches = Vec::with_capacity(alloc, count as usize)?;
    while batches.len() < count as usize {
        batches.push(Batch::make(alloc))?;
    }
    Ok(batches)
}

// A queue of each batch.
fn queues_of(alloc: Global, batches: Vec<Batch>) -> Result<Vec<RankQueue>, OutOfMemory>
    ensures { IfOk result (λ queues. queues.items ≡ batches.items) }
{
    let mut queues = Vec::with_capacity(alloc, batches.len())?;
    for mut batch in batches {
        let mut queue = RankQueue::make(alloc);
        queue.push_all(&mut batch)?;
        queues.push(queue)?;
    }
    Ok(queues)
}

/// The ranks of these jobs, seats and queues, in order.
pub(crate) fn new_ranks<J: Job + Drop, S: Drop, T: Drop>(
    alloc: Global,
    options: &Options,
    jobs: Vec<J>,
    seats: Vec<S>,
    sums_seats: Vec<T>,
    queues: Vec<RankQueue>,
) -> Result<Vec<Rank<J, S, T>>, OutOfMemory>
    requires unused { All (λ job. J.log job ≡ []) jobs.items }
    requires seats { length seats.items ≡ length jobs.items }
    requires sums { length sums_seats.items ≡ length jobs.items }
    requires queues { length queues.items ≡ length jobs.items }
    requires few { length jobs.items ≤ 64 }
    ensures { IfOk result (λ ranks. AreNew J.log options.now jobs.items seats.items sums_seats.items queues.items ranks.items) }
{
    let mut ranks = Vec::with_capacity(alloc, jobs.len())?;
    let mut seats_left = seats.into_iter();
    let mut sums_left = sums_seats.into_iter();
    let mut queues_left = queues.into_iter();
    let mut me = 0;
    for job in jobs {
        let Some(seat) = seats_left.next() else {
            unreachable!()
        };
        let Some(sums_seat) = sums_left.next() else {
            unreachable!()
        };
        let Some(queue) = queues_left.next() else {
            unreachable!()
        };
        ranks.push(Rank::make(alloc, job, seat, sums_seat, queue, options, me))?;
        me += 1;
    }
    Ok(ranks)
}

impl<J: Drop, S: Drop, T: Drop> Parts<J, S, T> {
    /// The parts of these ranks.
    pub(crate) fn of(
        alloc: Global,
        ranks: Vec<Rank<J, S, T>>,
    ) -> Result<Parts<J, S, T>, OutOfMemory>
        ensures { IfOk result (λ parts. ArePartsOf ranks.items parts) }
    {
        let n = ranks.len();
        let mut jobs = Vec::with_capacity(alloc, n)?;
        let mut seats = Vec::with_capacity(alloc, n)?;
        let mut sums_seats = Vec::with_capacity(alloc, n)?;
        let mut left = Vec::with_capacity(alloc, n)?;
        let mut shares = Vec::with_capacity(alloc, n)?;
        let mut numbers = Vec::new(alloc);
        for rank in ranks {
            let (job, seat, sums_seat, queue, book) = rank.take_apart();
            let Book {
                share,
                mut sums,
                ..
            } = book;
            jobs.push(job)?;
            seats.push(seat)?;
            sums_seats.push(sums_seat)?;
            left.push(queue.into_list())?;
            shares.push(share)?;
            numbers.append(&mut sums)?;
        }
        let finished = Finished {
            jobs,
            left,
            shares,
            events: Vec::new(alloc),
            sums: numbers,
        };
        Ok(Parts {
            seats,
            sums_seats,
            finished,
        })
    }
}
