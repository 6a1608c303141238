//! Threads share a board.
ghost use Rattle.std.specs.Prelude.{◌≡◌, ◌<◌, length};
ghost use Rattle.post_board.specs.Fresh.{fresh};
ghost use Rattle.post_board.specs.BoardSeats.{IsSeat, shown_by};

use crate::boards::board_of_words;
use crate::of_post_board::{newest_of, share_and_end, two_paths};
use post_board::{Answer, Board, BoardSeat, Post, Ring};
use rank_queue::Batch;
use ring_core::Colour;
use std::process::Abort;
use std::test::Fail;
use std::thread::{Threads, join};

// How often a thread looks for the answer of another one.
const LOOKS: u32 = 100_000_000;

// Rank 1 asks rank 0, and looks for its answer.
fn ask_for_some(board: &Board, mut one: BoardSeat) -> Option<Batch>
    requires seat { IsSeat board.now one }
    requires new { shown_by one ≡ fresh 2 1 (shown_by one).batches }
{
    let mut post = board;
    post.ask(&mut one, 0);
    for _ in 0..LOOKS {
        match post.answer(&mut one) {
            Answer::Pending => {}
            Answer::Nothing => return None,
            Answer::Work(batch) => return Some(batch),
        }
    }
    None
}

// Rank 0 looks for a request, and gives its strings.
fn give_all(board: &Board, mut zero: BoardSeat, batch: Batch) -> bool
    requires seat { IsSeat board.now zero }
    requires new { shown_by zero ≡ fresh 2 0 (shown_by zero).batches }
    requires some { 0 < length batch }
{
    let mut post = board;
    for _ in 0..LOOKS {
        if let Some(to) = post.next_request(&mut zero) {
            post.give(&mut zero, to, batch);
            return true;
        }
    }
    false
}

// The strings that rank 1 got from rank 0, which gave on another thread.
fn exchange<R: Threads + Sync>(
    rt: &R,
    board: &Board,
    zero: BoardSeat,
    one: BoardSeat,
    batch: Batch,
) -> Option<Batch>
    requires zero { IsSeat board.now zero × (shown_by zero ≡ fresh 2 0 (shown_by zero).batches) }
    requires one { IsSeat board.now one × (shown_by one ≡ fresh 2 1 (shown_by one).batches) }
    requires some { 0 < length batch }
{
    let (gave, got) = join(
        rt,
        move || give_all(board, zero, batch),
        move || ask_for_some(board, one),
    );
    if gave { got } else { None }
}

#[test]
fn two_threads_exchange_a_batch(rt: HostRuntime) -> Result<(), Fail> {
    let (board, zero, one) = board_of_words(rt.alloc())?;
    let batch = two_paths(rt.alloc())?;
    let got = exchange(&rt, &board, zero, one, batch);
    let newest = newest_of(rt.alloc(), got.ok_or("a batch")?)?;
    assert_eq!(rt; newest.ok_or("two paths")?.text(), "/b");
    Ok(())
}

#[test]
fn two_ranks_share_strings_over_words_and_end(rt: HostRuntime) -> Result<(), Fail> {
    let (board, zero, one) = board_of_words(rt.alloc())?;
    let batch = two_paths(rt.alloc())?;
    let mut post = &board;
    let given = share_and_end(&mut post, rt.alloc(), zero, one, batch)?;
    let newest = newest_of(rt.alloc(), given.ok_or("a batch")?)?;
    assert_eq!(rt; newest.ok_or("two paths")?.text(), "/b");
    Ok(())
}

// Whether both ranks are busy and nobody asks, and the token lies black at rank 0.
fn begins<P: Post>(post: &mut P, zero: &mut P::Seat, one: &mut P::Seat) -> bool
    requires seats { P.seats post.old zero.old × P.seats post.old one.old }
    requires zero { P.shows zero.old ≡ fresh 2 0 (P.shows zero.old).batches }
    requires one { P.shows one.old ≡ fresh 2 1 (P.shows one.old).batches }
{
    if post.next_request(zero).is_some() || post.ring(zero) != Ring::Here(Colour::Black) {
        return false;
    }
    post.next_request(one).is_none() && post.ring(one) == Ring::Elsewhere
}

#[test]
fn a_board_of_two_begins(rt: HostRuntime) -> Result<(), Fail> {
    let (board, mut zero, mut one) = board_of_words(rt.alloc())?;
    let mut post = &board;
    assert!(rt; begins(&mut post, &mut zero, &mut one));
    Ok(())
}
