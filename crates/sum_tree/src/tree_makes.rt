//! Making sums and their seats.
ghost use Rattle.std.specs.Prelude.{◌≡◌, ◌+◌, ◌<◌, ◌≤◌, [], length, true, All, IfOk, map, slice_index_or, ℕ};
ghost use Rattle.std.specs.List.{range_with_len};
ghost use Rattle.sum_tree.specs.Plain.{fresh as fresh_shown};
ghost use Rattle.sum_tree.specs.TreeRule.{fresh, dealing, opened};
ghost use Rattle.sum_tree.specs.TreeSeats.{shown_by, IsSeat, IsUnread, AllFresh};

use crate::sum_trees::{SumSeat, SumTree};
use crate::tree_rules::Deal;
use crate::tree_views::View;
use atomic_table::{Seat, Table};
use path_text::OutOfMemory;
use std::alloc::Global;

impl SumTree {
    /// Sums of `n` ranks that have counted nothing, each with at most `width` children, and their seats in ascending number.
    pub fn make(alloc: Global, n: u32, width: u32) -> Result<(SumTree, Vec<SumSeat>), OutOfMemory>
        requires one { 1 ≤ n }
        requires at_most_64 { n ≤ 64 }
        requires two_wide { 2 ≤ width }
        requires at_most_64_wide { width ≤ 64 }
        ensures seats { IfOk result (λ made. AllFresh made.0 n width made.1.items) }
        ensures unread { IfOk result (λ made. All IsUnread made.1.items) }
    {
        let words = vec![in alloc; 0u64; n as usize]?;
        let (table, first) = Table::of_words(alloc, &words, &(n as u64, width as u64))?;
        let tree = SumTree { table, n, width };
        let seats = tree.deal_all(alloc, first)?;
        Ok((tree, seats))
    }

    /// Makes all seats.
    fn deal_all(
        &self,
        alloc: Global,
        mut first: Seat<(), View>,
    ) -> Result<Vec<SumSeat>, OutOfMemory>
        requires one { 1 ≤ self.now.n }
        requires table { first.table_id ≡ self.now.table.shared.table_id }
        requires view { first.me ≡ (opened self.now.n self.now.width, []) }
        ensures seats { IfOk result (λ made. AllFresh self.now self.now.n self.now.width made.items) }
        ensures unread { IfOk result (λ made. All IsUnread made.items) }
    {
        let n = self.n;
        let mut seats = Vec::with_capacity(alloc, n as usize)?;
        for number in 1..n {
            let seat = self.deal_step(&mut first, number);
            seats.push(SumSeat::fresh(self, seat, number))?;
        }
        seats.insert(0, SumSeat::fresh(self, first, 0))?;
        Ok(seats)
    }

    /// Makes the next seat.
    fn deal_step(&self, first: &mut Seat<(), View>, number: u32) -> Seat<(), View>
        requires fits { first.old.table_id ≡ self.now.table.shared.table_id }
        requires next { (0 < number) × (first.old.me.0.made ≡ number) × (first.old.me.0.own.n ≡ self.now.n)
            × (first.old.me.0.own.width ≡ self.now.width) × (number < self.now.n) × (first.old.me.0.live ≡ true) }
        ensures first { (first.new.table_id ≡ first.old.table_id) × (first.new.me ≡ (dealing first.old.me.0, first.old.me.1)) }
        ensures seat { (result.table_id ≡ first.old.table_id) × (result.me.1 ≡ [])
            × (result.me.0.own ≡ fresh self.now.n self.now.width number) × (result.me.0.live ≡ true) × (result.me.0.kept ≡ []) }
    {
        self.table.shared.split_seat::<Deal>(first)
    }
}

impl SumSeat {
    fn fresh(tree: &SumTree, seat: Seat<(), View>, number: u32) -> SumSeat
        requires table { seat.table_id ≡ tree.now.table.shared.table_id }
        requires view { (seat.me.1 ≡ []) × (seat.me.0.own ≡ fresh tree.now.n tree.now.width number) × (seat.me.0.live ≡ true) × (seat.me.0.kept ≡ []) }
        requires inside { number < tree.now.n }
        ensures seat { IsSeat tree.now result }
        ensures shown { shown_by result ≡ fresh_shown tree.now.n tree.now.width number }
        ensures unread { IsUnread result }
    {
        SumSeat {
            seat,
            number,
            n: tree.n,
            width: tree.width,
            count: 0,
            answer: None,
        }
    }
}
