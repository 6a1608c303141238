//! Making a board and its seats.
ghost use Rattle.std.specs.Prelude.{◌≡◌, ◌+◌, ◌<◌, ◌≤◌, [], length, true, false, All, IfOk, Some};
ghost use Rattle.post_board.specs.Fresh.{AllFresh, fresh as fresh_shown};
ghost use Rattle.post_board.specs.BoardRule.{fresh, dealing, opened};
ghost use Rattle.post_board.specs.BoardSeats.{shown_by, IsSeat, IsUnread, unused};

use crate::board_rules::Deal;
use crate::board_views::View;
use crate::boards::{Board, BoardSeat};
use atomic_table::{Seat, Table};
use path_text::OutOfMemory;
use rank_queue::Batch;
use ring_core::Colour;
use std::alloc::Global;
use std::collections::VecDeque;

impl Board {
    /// A board of `n` ranks and their seats, in ascending number. Each rank begins busy, the token lies black at rank 0, and no
    /// seat has read a word.
    pub fn make(alloc: Global, n: u32) -> Result<(Board, Vec<BoardSeat>), OutOfMemory>
        requires one { 1 ≤ n }
        requires at_most_64 { n ≤ 64 }
        ensures seats { IfOk result (λ made. AllFresh shown_by (IsSeat made.0) n (Some (unused n)) made.1.items) }
        ensures unread { IfOk result (λ made. All IsUnread made.1.items) }
    {
        let mut words = vec![in alloc; 0u64; n as usize + 3]?;
        words[0] = 2;
        let (table, first) = Table::vacant(alloc, &words, n as usize, &(n as u64))?;
        let board = Board { table, n };
        let seats = board.deal_all(alloc, first)?;
        Ok((board, seats))
    }

    /// Makes all seats.
    fn deal_all(
        &self,
        alloc: Global,
        mut first: Seat<Option<Batch>, View>,
    ) -> Result<Vec<BoardSeat>, OutOfMemory>
        requires one { 1 ≤ self.now.n }
        requires table { first.table_id ≡ self.now.table.shared.table_id }
        requires view { first.me ≡ (opened self.now.n, []) }
        ensures seats { IfOk result (λ made. AllFresh shown_by (IsSeat self.now) self.now.n (Some (unused self.now.n)) made.items) }
        ensures unread { IfOk result (λ made. All IsUnread made.items) }
    {
        let n = self.n;
        let mut seats = Vec::with_capacity(alloc, n as usize)?;
        for number in 1..n {
            let seat = self.deal_step(&mut first, number);
            seats.push(BoardSeat::fresh(self, alloc, seat, number)?)?;
        }
        seats.insert(0, BoardSeat::fresh(self, alloc, first, 0)?)?;
        Ok(seats)
    }

    /// Makes the next seat.
    fn deal_step(
        &self,
        first: &mut Seat<Option<Batch>, View>,
        number: u32,
    ) -> Seat<Option<Batch>, View>
        requires fits { first.old.table_id ≡ self.now.table.shared.table_id }
        requires next { (0 < number) × (first.old.me.0.made ≡ number) × (first.old.me.0.own.n ≡ self.now.n) × (number < self.now.n)
            × (first.old.me.0.live ≡ true) }
        ensures first { (first.new.table_id ≡ first.old.table_id) × (first.new.me ≡ (dealing first.old.me.0, first.old.me.1)) }
        ensures seat { (result.table_id ≡ first.old.table_id) × (result.me.1 ≡ []) × (result.me.0.own ≡ fresh self.now.n number)
            × (result.me.0.live ≡ true) × (result.me.0.kept ≡ []) }
    {
        self.table.shared.split_seat::<Deal>(first)
    }
}

impl BoardSeat {
    /// The seat of a rank that has done nothing yet.
    fn fresh(
        board: &Board,
        alloc: Global,
        seat: Seat<Option<Batch>, View>,
        number: u32,
    ) -> Result<BoardSeat, OutOfMemory>
        requires table { seat.table_id ≡ board.now.table.shared.table_id }
        requires view { (seat.me.1 ≡ []) × (seat.me.0.own ≡ fresh board.now.n number) × (seat.me.0.live ≡ true) × (seat.me.0.kept ≡ []) }
        requires inside { number < board.now.n }
        ensures seat { IfOk result (λ s. IsSeat board.now s) }
        ensures shown { IfOk result (λ s. shown_by s ≡ fresh_shown board.now.n number (Some (unused board.now.n))) }
        ensures unread { IfOk result IsUnread }
    {
        let n = board.n;
        let held = VecDeque::with_capacity(alloc, n as usize)?;
        Ok(BoardSeat {
            seat,
            number,
            n,
            colour: Colour::White,
            here: None,
            asked: None,
            ended: false,
            held,
        })
    }
}
