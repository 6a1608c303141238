//! Sums over atomic words, and their seats.
ghost use Rattle.std.specs.Prelude.{◌≡◌, ◌+◌, ◌≤◌, ℕ};

use crate::tree_rules::Adding;
use crate::tree_views::View;
use atomic_table::{Seat, Table};
use std::alloc::Global;

/// The seat of a rank at sums over atomic words.
#[derive(Drop)]
pub struct SumSeat {
    pub(crate) seat: Seat<(), View>,
    pub(crate) number: u32,
    pub(crate) n: u32,
    pub(crate) width: u32,
    /// The rank's count, which is in its word from the next refresh on.
    pub(crate) count: u64,
    /// The final sum, once the word is final.
    pub(crate) answer: Option<u64>,
}

/// Sums that threads share: a word for each rank, twice a number and one more if that is final.
#[derive(Drop)]
pub struct SumTree {
    pub(crate) table: Table<(), View, (u64, u64), Adding, Global>,
    pub(crate) n: u32,
    pub(crate) width: u32,
    ghost few: { n ≤ 64 },
    ghost wide: { (2 ≤ width) × (width ≤ 64) },
    ghost keyed: { table.shared.key ≡ (n, width) },
    ghost sized: { table.shared.table_id.words ≡ n },
}
