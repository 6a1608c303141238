//! Sums that one thread keeps.
ghost use Rattle.std.specs.Prelude.{◌≡◌, ◌≢◌, ◌<◌, ◌≤◌, ◌+◌, ◌*◌, ◌^◌, ℕ, List, length, map, Option, Some, None, IfOk, IfSome, slice_index_or};
ghost use Rattle.std.specs.List.{Contains, sum_by};
ghost use Rattle.sum_tree.specs.Told.{SumTold, rank_of, children_in, words_below, are_final_below, put_rank};
ghost use Rattle.sum_tree.specs.Shown.{SumShown, AllFinished, rank_shown};
ghost use Rattle.sum_tree.specs.Plain.{IsSeat, started, fresh_seats};
ghost use Rattle.sum_tree.specs.Agreed.{agreed};

use crate::ranks::RankSum;
use crate::sums::Sums;
use path_text::OutOfMemory;
use std::alloc::Global;
use std::marker::Model;

// A count stops here, so that the sum of 64 ranks stays within its type.
const MOST: u64 = (1 << 56) - 1;

/// Sums that one thread keeps, seen as the count and the word of each rank, which they tell.
#[derive(Drop)]
pub struct PlainSums {
    width: u32,
    ranks: Vec<RankSum>,
}

impl Model for PlainSums {
    ghost use Rattle.sum_tree.specs.Told.{SumTold};

    ghost Value = { SumTold };

    ghost view = { λ s. record { width = s.width; ranks = s.ranks.items } };
}

/// A rank's seat of plain sums, seen as the facts that it shows. It keeps a copy of all that the sums hold of its rank.
#[derive(Drop)]
pub struct PlainSumSeat {
    number: u32,
    n: u32,
    width: u32,
    count: u64,
    word: u64,
    answer: Option<u64>,
}

impl Model for PlainSumSeat {
    ghost use Rattle.sum_tree.specs.Shown.{SumShown};

    ghost Value = { SumShown };

    ghost view = { λ s. record { number = s.number; n = s.n; width = s.width; count = s.count; word = s.word; answer = s.answer } };
}

impl PlainSums {
    /// Sums of `n` ranks that have counted nothing, each with at most `width` children, and their seats in ascending number.
    pub fn make(
        alloc: Global,
        n: u32,
        width: u32,
    ) -> Result<(PlainSums, Vec<PlainSumSeat>), OutOfMemory>
        requires one { 1 ≤ n }
        requires at_most_64 { n ≤ 64 }
        requires two_wide { 2 ≤ width }
        requires at_most_64_wide { width ≤ 64 }
        ensures told { IfOk result (λ made. made.0 ≡ started n width) }
        ensures shown { IfOk result (λ made. made.1.items ≡ fresh_seats n width) }
        ensures seats { IfOk result (λ made. (k : ℕ) (d : SumShown) → k < n → IsSeat made.0 (slice_index_or made.1.items k d)) }
    {
        let nothing = RankSum {
            count: 0,
            word: 0,
            is_final: false,
        };
        let ranks = vec![in alloc; nothing; n as usize]?;
        let mut seats = Vec::with_capacity(alloc, n as usize)?;
        for number in 0..n {
            seats.push(PlainSumSeat {
                number,
                n,
                width,
                count: 0,
                word: 0,
                answer: None,
            })?;
        }
        Ok((PlainSums { width, ranks }, seats))
    }

    // The counts and words of the children of a seat's rank.
    fn children(&self, seat: &PlainSumSeat) -> &[RankSum]
        requires { IsSeat self.now seat.now }
        ensures { result.now ≡ map (rank_of self.now) (children_in self.now seat.now.number) }
    {
        let n = self.ranks.len();
        let first = (seat.number * self.width + 1) as usize;
        if first < n {
            let count = (self.width as usize).min(n - first);
            &self.ranks[first..first + count]
        } else {
            &[]
        }
    }

    // The rank's count and the words of its children, added up.
    fn total(&self, seat: &PlainSumSeat) -> u64
        requires { IsSeat self.now seat.now }
        ensures { result ≡ seat.now.count + words_below self.now seat.now.number }
    {
        let mut total = seat.count;
        for child in self.children(seat) {
            total += child.word;
        }
        total
    }

    fn are_children_final(&self, seat: &PlainSumSeat) -> bool
        requires { IsSeat self.now seat.now }
        ensures { result ≡ are_final_below self.now seat.now.number }
    {
        self.children(seat).iter().all(|child| child.is_final)
    }

    // Writes the facts that the seat shows of its rank into the sums.
    fn write(&mut self, seat: &PlainSumSeat)
        requires { seat.now.number < length self.old.ranks }
        ensures { self.new ≡ put_rank self.old seat.now.number (rank_shown seat.now) }
    {
        self.ranks[seat.number as usize] = RankSum {
            count: seat.count,
            word: seat.word,
            is_final: seat.answer.is_some(),
        };
    }
}

impl Sums for PlainSums {
    type Seat = PlainSumSeat;

    ghost shows = { λ s. s };

    ghost reads = { λ s. None };

    ghost tells = { λ t. Some t };

    ghost seats = { IsSeat };

    fn raise(&mut self, seat: &mut PlainSumSeat, by: u64) {
        seat.count = seat.count.saturating_add(by).min(MOST);
        self.write(seat);
    }

    fn refresh(&mut self, seat: &mut PlainSumSeat) {
        seat.word = self.total(seat);
        self.write(seat);
    }

    fn finish(&mut self, seat: &mut PlainSumSeat) -> Option<u64> {
        if !self.are_children_final(seat) {
            return None;
        }
        let sum = self.total(seat);
        seat.word = sum;
        seat.answer = Some(sum);
        self.write(seat);
        Some(sum)
    }

    fn shown(&mut self, seat: &mut PlainSumSeat) -> u64 {
        seat.word
    }

    fn gather(&mut self, all: Vec<PlainSumSeat>) -> u64
        requires some { 0 < length all.items }
        requires all { AllFinished (λ seat. seat) (IsSeat self.old) all.items }
        ensures sum { result ≡ sum_by (λ seat. seat.count) all.items }
        ensures first { (s : SumShown) → Contains all.items s → s.number ≡ 0 → s.answer ≡ Some result }
        ensures told { self.new ≡ self.old }
    {
        self.ranks[0].word
    }

    ghost agrees = { agreed };
}
