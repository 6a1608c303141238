//! Boards of two ranks before any call, and their seats.
ghost use Rattle.std.specs.Prelude.{◌≡◌, ◌∷◌, [], length, IfOk, IfSome};
ghost use Rattle.post_board.specs.Fresh.{fresh};
ghost use Rattle.post_board.specs.Plain.{Seats, shown_by as shown_plainly};
ghost use Rattle.post_board.specs.BoardSeats.{IsSeat, shown_by};

use post_board::{Board, BoardSeat, PlainBoard, PlainSeat};
use std::alloc::Global;
use std::test::Fail;

/// The two of a list of two.
pub(crate) fn two_of<S: Drop>(mut seats: Vec<S>) -> Option<(S, S)>
    requires { length seats.items ≡ 2 }
    ensures { IfSome result (λ pair. seats.items ≡ pair.0 ∷ pair.1 ∷ []) }
{
    let one = seats.pop()?;
    let zero = seats.pop()?;
    Some((zero, one))
}

/// A plain board of two ranks before any call, and their seats.
pub(crate) fn plain_board(alloc: Global) -> Result<(PlainBoard, PlainSeat, PlainSeat), Fail>
    ensures seats { IfOk result (λ made. Seats made.0 made.1 × Seats made.0 made.2) }
    ensures zero { IfOk result (λ made. shown_plainly made.1 ≡ fresh 2 0 (shown_plainly made.1).batches) }
    ensures one { IfOk result (λ made. shown_plainly made.2 ≡ fresh 2 1 (shown_plainly made.2).batches) }
{
    let (board, seats) = PlainBoard::make(alloc, 2)?;
    let (zero, one) = two_of(seats).ok_or("two seats")?;
    Ok((board, zero, one))
}

/// A board of words of two ranks before any call, and their seats.
pub(crate) fn board_of_words(alloc: Global) -> Result<(Board, BoardSeat, BoardSeat), Fail>
    ensures seats { IfOk result (λ made. IsSeat made.0 made.1 × IsSeat made.0 made.2) }
    ensures zero { IfOk result (λ made. shown_by made.1 ≡ fresh 2 0 (shown_by made.1).batches) }
    ensures one { IfOk result (λ made. shown_by made.2 ≡ fresh 2 1 (shown_by made.2).batches) }
{
    let (board, seats) = Board::make(alloc, 2)?;
    let (zero, one) = two_of(seats).ok_or("two seats")?;
    Ok((board, zero, one))
}
