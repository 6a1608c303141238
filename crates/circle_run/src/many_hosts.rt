//! A run whose ranks are spread over several threads.
ghost use Rattle.std.specs.Prelude.{◌≡◌, ◌<◌, ◌≤◌, [], map, length, sum_by, All, IfOk, Some, true, false};
ghost use Rattle.std.specs.List.{Contains};
ghost use Rattle.post_board.specs.Calls.{AllDone, AllEven, Halters};
ghost use Rattle.post_board.specs.Fresh.{AllFresh};
ghost use Rattle.post_board.specs.BoardSeats.{IsSeat as IsBoardSeat, shown_by as board_shown, unused};
ghost use Rattle.sum_tree.specs.Shown.{AllFinished};
ghost use Rattle.sum_tree.specs.TreeSeats.{AllFresh as AllFreshSums, IsSeat as IsSumSeat, shown_by as sum_shown};
ghost use Rattle.circle_run.specs.ByRank.{PlayedApart};
ghost use Rattle.circle_run.specs.Hosts.{NoneLost};
ghost use Rattle.circle_run.specs.Private.Outcomes.{IsOutcome};
ghost use Rattle.circle_run.specs.Private.Parting.{Starting, MaySpread, AllJoined};

use crate::backs::{Ranks, in_order};
use crate::jobs::Job;
use crate::laws::hosts_are_balanced;
use crate::outcomes::Finished;
use crate::parts::{Parts, deal, new_ranks};
use crate::ranks::Rank;
use crate::settings::Options;
use crate::spread::{spread, unset};
use crate::threads::run_all;
use path_text::{OutOfMemory, Path};
use post_board::{Board, BoardSeat, Post};
use std::alloc::Global;
use std::snapshot::Snapshot;
use std::sync::Wait;
use std::sync::atomic::AtomicBool;
use std::thread;
use std::thread::Threads;
use sum_tree::{SumSeat, SumTree, Sums};

/// A whole run over a board and sums of atomic words, whose ranks are spread over threads.
pub(crate) fn run_spread<R: Threads + Wait + Sync, J: Job + Send + Drop>(
    rt: &R,
    alloc: Global,
    options: &Options,
    starts: Vec<Path>,
    jobs: Vec<J>,
) -> Result<Finished<J>, OutOfMemory>
    requires ranks { (1 ≤ options.now.ranks) × (options.now.ranks ≤ 64) }
    requires hosts { 1 ≤ options.now.hosts }
    requires width { (2 ≤ options.now.width) × (options.now.width ≤ 64) }
    requires jobs { length jobs.items ≡ options.now.ranks }
    requires unused { All (λ job. J.log job ≡ []) jobs.items }
    ensures outcome { IfOk result (λ f. IsOutcome J.log J.plain options.now starts.items jobs.items f) }
    ensures apart { IfOk result (λ f. PlayedApart options.now starts.items (map J.log f.jobs.items) (map (λ l. l.items) f.left.items) f.shares.items) }
{
    hosts_are_balanced();
    let (board, seats) = Board::make(alloc, options.ranks)?;
    let (tree, sums_seats) = SumTree::make(alloc, options.ranks, options.width)?;
    let ranks = new_whole(
        alloc, options, starts, jobs, &board, seats, &tree, sums_seats,
    )?;
    let whole = Snapshot::of(&ranks);
    let hosts = options.hosts.min(options.ranks);
    let (mine, others) = spread(alloc, &whole, ranks, hosts)?;
    let flags = unset(alloc, others.len())?;
    let count = options.ranks as usize;
    let ranks = in_threads(
        rt, alloc, &board, &tree, &whole, &flags, count, mine, others,
    )?;
    let ranks = in_order(ranks);
    if any_lost(&ranks) {
        return Err(OutOfMemory);
    }
    let parts = Parts::of(alloc, ranks)?;
    gather_all(&board, parts.seats, &tree, parts.sums_seats);
    Ok(parts.finished)
}

// The ranks of a run as they begin.
fn new_whole<J: Job + Drop>(
    alloc: Global,
    options: &Options,
    starts: Vec<Path>,
    jobs: Vec<J>,
    board: &Board,
    seats: Vec<BoardSeat>,
    tree: &SumTree,
    sums_seats: Vec<SumSeat>,
) -> Result<Ranks<J, BoardSeat, SumSeat>, OutOfMemory>
    requires ranks { (1 ≤ options.now.ranks) × (options.now.ranks ≤ 64) }
    requires width { options.now.width ≤ 64 }
    requires jobs { length jobs.items ≡ options.now.ranks }
    requires unused { All (λ job. J.log job ≡ []) jobs.items }
    requires seats { AllFresh board_shown (IsBoardSeat board.now) options.now.ranks (Some (unused options.now.ranks)) seats.items }
    requires sums { AllFreshSums tree.now options.now.ranks options.now.width sums_seats.items }
    ensures starting { IfOk result (λ ranks. Starting J.log board_shown IsBoardSeat sum_shown IsSumSeat
        options.now starts.items ranks.items board.now tree.now) }
    ensures jobs { IfOk result (λ ranks. map (λ r. r.job) ranks.items ≡ jobs.items) }
{
    let queues = deal(alloc, options.ranks, starts)?;
    Ok(new_ranks(alloc, options, jobs, seats, sums_seats, queues)?)
}

// Gathers all seats.
fn gather_all(board: &Board, seats: Vec<BoardSeat>, tree: &SumTree, sums_seats: Vec<SumSeat>) -> u64
    requires some { (0 < length seats.items) × (0 < length sums_seats.items) }
    requires all { AllDone board_shown (IsBoardSeat board.now) seats.items }
    requires finished { AllFinished sum_shown (IsSumSeat tree.now) sums_seats.items }
    ensures even { AllEven board_shown (IsBoardSeat board.now) seats.items }
    ensures halters { Halters board_shown (IsBoardSeat board.now) seats.items }
    ensures sum { result ≡ sum_by (λ seat. (sum_shown seat).count) sums_seats.items }
    ensures first { (s : SumSeat) → Contains sums_seats.items s → (sum_shown s).number ≡ 0 → (sum_shown s).answer ≡ Some result }
{
    let mut post = board;
    post.gather(seats);
    let mut sums = tree;
    Sums::gather(&mut sums, sums_seats)
}

// Runs all hosts in a scope of threads.
fn in_threads<R: Threads + Wait + Sync, J: Job + Send + Drop>(
    rt: &R,
    alloc: Global,
    board: &Board,
    tree: &SumTree,
    whole: &Snapshot<Ranks<J, BoardSeat, SumSeat>>,
    flags: &[AtomicBool],
    count: usize,
    mine: Ranks<J, BoardSeat, SumSeat>,
    others: Vec<Ranks<J, BoardSeat, SumSeat>>,
) -> Result<Ranks<J, BoardSeat, SumSeat>, OutOfMemory>
    requires spread { MaySpread J.log board_shown IsBoardSeat sum_shown IsSumSeat board.now tree.now whole.now.value.items mine.items others.items
        (length flags.now) count }
    ensures { IfOk result (λ v. AllJoined J.log J.plain board_shown IsBoardSeat sum_shown IsSumSeat board.now tree.now whole.now.value.items v.items) }
{
    thread::scope(
        thread::scope_env(),
        rt,
        move |scope| -> Result<Ranks<J, BoardSeat, SumSeat>, OutOfMemory>
            requires { MaySpread J.log board_shown IsBoardSeat sum_shown IsSumSeat board.now tree.now whole.now.value.items mine.items others.items
                (length flags.now) count }
            ensures { IfOk result (λ v. AllJoined J.log J.plain board_shown IsBoardSeat sum_shown IsSumSeat
                board.entry.now tree.entry.now whole.entry.now.value.items v.items) }
        {
            run_all(
                rt, alloc, scope, board, tree, whole, flags, count, mine, others,
            )
        },
    )
}

// Whether some rank ran out of memory.
fn any_lost<J: Job, S, T>(ranks: &[Rank<J, S, T>]) -> bool
    ensures { result ≡ false → NoneLost ranks.now }
{
    for k in 0..ranks.len() {
        if ranks[k].is_lost() {
            return true;
        }
    }
    false
}
