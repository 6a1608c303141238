//! Deals seats to the ranks of a run.
ghost use Rattle.std.specs.Prelude.{◌≡◌, ◌<◌, ◌≤◌, [], Some, None, length, All, IfOk};
ghost use Rattle.post_board.specs.Fresh.{AllFresh as AllFreshAtBoard, fresh as fresh_seat};
ghost use Rattle.post_board.specs.BoardSeats.{IsSeat as IsBoardSeat, shown_by as board_shown, unused};
ghost use Rattle.sum_tree.specs.TreeSeats.{IsSeat as IsSumSeat, shown_by as sums_shown, AllFresh as AllFreshAtSums};
ghost use Rattle.rank_threads.specs.Fits.{Fits};
ghost use Rattle.sum_tree.specs.Plain.{fresh as fresh_sum};

use crate::sprouts::{Sprout, path_of};
use crate::workers::Worker;
use circle_run::{Options, Rank};
use path_text::OutOfMemory;
use post_board::{Board, BoardSeat};
use rank_queue::{Batch, RankQueue};
use std::alloc::Global;
use std::sync::atomic::AtomicU64;
use sum_tree::{SumSeat, SumTree};

/// The board and the sums of the ranks of a run.
#[derive(Clone, Copy, Drop)]
pub(crate) struct Place<'a> {
    pub(crate) board: &'a Board,
    pub(crate) sums: &'a SumTree,
    pub(crate) lasts: &'a SumTree,
}

impl<'s, 'a> Worker<'s, 'a> {
    fn make(
        alloc: Global,
        options: &Options,
        place: Place<'a>,
        me: u32,
        job: Sprout<'s>,
        seat: BoardSeat,
        sums_seat: SumSeat,
        last: SumSeat,
    ) -> Result<Worker<'s, 'a>, OutOfMemory>
        requires unused { job.steps.items ≡ [] }
        requires seat { IsBoardSeat place.board.now seat × (board_shown seat ≡ fresh_seat options.now.ranks me (Some (unused options.now.ranks))) }
        requires sums { IsSumSeat place.sums.now sums_seat × (sums_shown sums_seat ≡ fresh_sum options.now.ranks options.now.width me) }
        requires last { IsSumSeat place.lasts.now last × ((sums_shown last).answer ≡ None) }
        requires inside { (me < options.now.ranks) × (options.now.ranks ≤ 64) × (options.now.width ≤ 64) }
        ensures { IfOk result Fits }
    {
        let queue = first_queue(alloc, me)?;
        let rank = Rank::make(alloc, job, seat, sums_seat, queue, options, me);
        let Place { board, sums, lasts } = place;
        Ok(Worker {
            me,
            rank,
            board,
            sums,
            last,
            lasts,
        })
    }
}

/// A worker of each rank, from the last to the first.
pub(crate) fn deal<'s, 'a>(
    alloc: Global,
    options: &Options,
    place: Place<'a>,
    mut seats: Vec<BoardSeat>,
    mut sums_seats: Vec<SumSeat>,
    mut last_seats: Vec<SumSeat>,
    seen: &'s [AtomicU64],
    rounds: u64,
) -> Result<Vec<Worker<'s, 'a>>, OutOfMemory>
    requires seats { AllFreshAtBoard board_shown (IsBoardSeat place.board.now) options.now.ranks (Some (unused options.now.ranks)) seats.items }
    requires sums { AllFreshAtSums place.sums.now options.now.ranks options.now.width sums_seats.items }
    requires lasts { AllFreshAtSums place.lasts.now options.now.ranks options.now.width last_seats.items }
    requires inside { (options.now.ranks ≤ 64) × (options.now.width ≤ 64) }
    ensures { IfOk result (λ workers. All Fits workers.items) }
{
    let ranks = options.ranks;
    let mut workers = Vec::with_capacity(alloc, ranks as usize)?;
    for k in 0..ranks {
        let Some(seat) = seats.pop() else {
            unreachable!()
        };
        let Some(sums_seat) = sums_seats.pop() else {
            unreachable!()
        };
        let Some(last) = last_seats.pop() else {
            unreachable!()
        };
        let job = Sprout::make(alloc, seen, rounds);
        let me = ranks - 1 - k;
        workers.push(Worker::make(alloc, options, place, me, job, seat, sums_seat, last)?)?;
    }
    Ok(workers)
}

// Rank 0 begins with the string of the number 0, and each other one with nothing.
fn first_queue(alloc: Global, me: u32) -> Result<RankQueue, OutOfMemory> {
    let mut queue = RankQueue::make(alloc);
    if me == 0 {
        let mut starts = Batch::make(alloc);
        starts.push(path_of(alloc, 0)?)?;
        queue.push_all(&mut starts)?;
    }
    Ok(queue)
}
