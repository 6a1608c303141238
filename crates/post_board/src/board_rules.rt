//! The rule of a board's table, and each kind of step with the facts that it gives the call that makes it. They have no values.
//! The steps of a gathering are in `src/board_gathers.rt`.
ghost use Rattle.post_board.specs.BoardRule.{Rule, opened, dealing, dealt_out};
ghost use Rattle.post_board.specs.BoardSteps.{AskTells, LookTells, TakeUpTells, ScanTells, GiveTells, RefuseTells, FetchTells, RestTells};
ghost use Rattle.post_board.specs.BoardSteps.{RestEmptyTells, RingTells, PassTells, RestartTells, ConcludeTells};
ghost use Rattle.post_board.specs.LateSteps.{SetHaltTells, LoadHaltTells, StopTells, LoadStopsTells, WithdrawTells};

use crate::board_views::View;
use atomic_table::{Play, Split, TableRule};
use rank_queue::Batch;

/// The rule that holds between any two steps: `specs/BoardRule.antt`.
pub struct Order;

impl TableRule<Option<Batch>, View, u64> for Order {
    ghost holds = { Rule };

    ghost first = { opened };
}

/// A rank asks: its own mailbox, from rest.
pub struct Ask;

impl Play<Option<Batch>, View> for Ask {
    ghost then = { AskTells };
}

/// A rank looks at its own mailbox.
pub struct Look;

impl Play<Option<Batch>, View> for Look {
    ghost then = { LookTells };
}

/// A rank looks at the mailbox of another one.
pub struct Scan;

impl Play<Option<Batch>, View> for Scan {
    ghost then = { ScanTells };
}

/// A rank takes up a request, if the mailbox of the other rank asks it.
pub struct TakeUp;

impl Play<Option<Batch>, View> for TakeUp {
    ghost then = { TakeUpTells };
}

/// A rank gives: the mailbox of the asker is full, and its slot goes back with the batch.
pub struct PostBatch;

impl Play<Option<Batch>, View> for PostBatch {
    ghost then = { GiveTells };
}

/// A rank refuses: the mailbox of the asker is empty, and its slot goes back.
pub struct PostNone;

impl Play<Option<Batch>, View> for PostNone {
    ghost then = { RefuseTells };
}

/// A rank takes its own slot, which is full.
pub struct Fetch;

impl Play<Option<Batch>, View> for Fetch {
    ghost then = { FetchTells };
}

/// A rank gives its own slot back, and its mailbox rests.
pub struct Rest;

impl Play<Option<Batch>, View> for Rest {
    ghost then = { RestTells };
}

/// The mailbox of a rank that was refused rests.
pub struct RestEmpty;

impl Play<Option<Batch>, View> for RestEmpty {
    ghost then = { RestEmptyTells };
}

/// A rank looks where the token is.
pub struct LoadRing;

impl Play<Option<Batch>, View> for LoadRing {
    ghost then = { RingTells };
}

/// The token goes to the rank below.
pub struct Pass;

impl Play<Option<Batch>, View> for Pass {
    ghost then = { PassTells };
}

/// Rank 0 sends the token round once more.
pub struct Restart;

impl Play<Option<Batch>, View> for Restart {
    ghost then = { RestartTells };
}

/// Rank 0 ends the run.
pub struct Conclude;

impl Play<Option<Batch>, View> for Conclude {
    ghost then = { ConcludeTells };
}

/// A rank tells all to halt.
pub struct SetHalt;

impl Play<Option<Batch>, View> for SetHalt {
    ghost then = { SetHaltTells };
}

/// A rank looks whether all are to halt.
pub struct LoadHalt;

impl Play<Option<Batch>, View> for LoadHalt {
    ghost then = { LoadHaltTells };
}

/// A rank stops.
pub struct Stop;

impl Play<Option<Batch>, View> for Stop {
    ghost then = { StopTells };
}

/// A rank with an open request looks which ranks have stopped.
pub struct LoadStops;

impl Play<Option<Batch>, View> for LoadStops {
    ghost then = { LoadStopsTells };
}

/// A rank takes its request back, if its mailbox still asks.
pub struct Withdraw;

impl Play<Option<Batch>, View> for Withdraw {
    ghost then = { WithdrawTells };
}

/// The first seat makes the next one.
pub struct Deal;

impl Split<View> for Deal {
    ghost left = { dealing };

    ghost right = { dealt_out };
}
