//! A rank with everything that its thread needs.
ghost use Rattle.std.specs.Prelude.{◌≡◌, map, false, None};
ghost use Rattle.circle_run.specs.Hosts.{Placed};
ghost use Rattle.rank_threads.specs.Fits.{Fits};
ghost use Rattle.post_board.specs.BoardSeats.{IsSeat as IsBoardSeat, shown_by as board_shown};
ghost use Rattle.sum_tree.specs.TreeSeats.{IsSeat as IsSumSeat, shown_by as sums_shown};

use crate::sprouts::Sprout;
use circle_run::{Rank, Share, Turn};
use post_board::{Board, BoardSeat};
use std::sync::Wait;
use std::sync::atomic::{AtomicU64, Ordering};
use std::thread;
use sum_tree::{SumSeat, SumTree, Sums};

/// A rank, the board and the sums over which it acts, and a seat at further sums, for the number of strings that it handled.
#[derive(Drop)]
pub struct Worker<'s, 'b> {
    pub(crate) me: u32,
    pub(crate) rank: Rank<Sprout<'s>, BoardSeat, SumSeat>,
    pub(crate) board: &'b Board,
    pub(crate) sums: &'b SumTree,
    pub(crate) last: SumSeat,
    pub(crate) lasts: &'b SumTree,
}

impl<'s, 'b> Worker<'s, 'b> {
    /// Takes turns until the rank has ended. Answers the counts of the rank, and the sum of the strings that it and all ranks below it
    /// handled. `None` if `stop` was set before.
    pub(crate) fn go<R: Wait>(self, rt: &R, stop: &AtomicU64) -> Option<(Share, u64)>
        requires { Fits self }
    {
        let Worker {
            rank,
            board,
            sums,
            last,
            lasts,
            ..
        } = self;
        let share = turn_to_end(rt, rank, board, sums, stop)?;
        let sum = sum_of_all(rt, lasts, last, share.handled, stop)?;
        Some((share, sum))
    }
}

// Turns until the rank has ended.
fn turn_to_end<R: Wait>(
    rt: &R,
    mut rank: Rank<Sprout, BoardSeat, SumSeat>,
    board: &Board,
    sums: &SumTree,
    stop: &AtomicU64,
) -> Option<Share>
    requires { Placed (λ s. map (λ step. (step.item, step.pushed.items)) s.steps.items)
        board_shown (λ b s. IsBoardSeat b.now s) sums_shown (λ t s. IsSumSeat t.now s) false rank board sums }
{
    let mut post = board;
    let mut tree = sums;
    for _ in rt.forever() {
        match rank.turn(&mut post, &mut tree) {
            Turn::Ended => return Some(rank.share()),
            Turn::Waited => thread::yield_now(),
            Turn::Went | Turn::Stopped => {}
        }
        if stop.load(Ordering::SeqCst) != 0 {
            return None;
        }
    }
    unreachable!()
}

// The final sum of this rank and all below it, to which this one adds `count`.
fn sum_of_all<R: Wait>(
    rt: &R,
    tree: &SumTree,
    mut seat: SumSeat,
    count: u64,
    stop: &AtomicU64,
) -> Option<u64>
    requires seat { IsSumSeat tree.now seat }
    requires counting { (sums_shown seat).answer ≡ None }
{
    let mut sums = tree;
    sums.raise(&mut seat, count);
    sums.refresh(&mut seat);
    for _ in rt.forever() {
        if let Some(sum) = sums.finish(&mut seat) {
            return Some(sum);
        }
        if stop.load(Ordering::SeqCst) != 0 {
            return None;
        }
        thread::yield_now();
    }
    unreachable!()
}
