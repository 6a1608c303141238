//! A rank that looks for requests again and again.
ghost use Rattle.std.specs.Prelude.{◌≡◌, ◌≤◌};
ghost use Rattle.post_board.specs.BoardSeats.{IsSeat, shown_by};
ghost use Rattle.post_board.specs.Shown.{Live};

use path_text::OutOfMemory;
use post_board::{Board, BoardSeat, Post};
use std::alloc::Global;

/// How often the last of `ranks` ranks found no request in `looks` looks. No rank asks.
pub fn look(alloc: Global, ranks: u32, looks: u32) -> Result<u32, OutOfMemory>
    requires { (1 ≤ ranks) × (ranks ≤ 64) }
{
    let (board, mut seats) = Board::make(alloc, ranks)?;
    let Some(seat) = seats.pop() else {
        return Ok(0);
    };
    Ok(found_none(&board, seat, looks))
}

fn found_none(board: &Board, mut seat: BoardSeat, looks: u32) -> u32
    requires { IsSeat board.now seat × Live (shown_by seat) }
{
    let mut post = board;
    let mut none = 0u32;
    for _ in 0..looks {
        if post.next_request(&mut seat).is_none() {
            none = none.saturating_add(1);
        }
    }
    none
}
