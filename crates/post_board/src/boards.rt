//! A board of atomic words, which threads share, and its seats.
ghost use Rattle.std.specs.Prelude.{◌≡◌, ◌+◌, ◌≤◌, ℕ};

use crate::board_rules::Order;
use crate::board_views::View;
use atomic_table::{Seat, Table};
use rank_queue::Batch;
use ring_core::Colour;
use std::alloc::Global;
use std::collections::VecDeque;

/// The seat of a rank at a [`Board`]. It goes with its rank to the thread that runs the rank. Its view (`Known` in
/// `src/board_views.rt`) has its knowledge of the words, and costs nothing when it runs. The rank's calls read the fields beside it.
#[derive(Drop)]
pub struct BoardSeat {
    pub(crate) seat: Seat<Option<Batch>, View>,
    pub(crate) number: u32,
    pub(crate) n: u32,
    pub(crate) colour: Colour,
    pub(crate) here: Option<Colour>,
    pub(crate) asked: Option<u32>,
    pub(crate) ended: bool,
    // The ranks whose slots this seat holds, in the order in which it took up their requests. It has room for all ranks.
    pub(crate) held: VecDeque<u32>,
}

/// A board that threads share through `&Board`, with no lock. Each call of [`Post`](crate::Post) is a fixed number of steps on
/// atomic words, and none waits, tries again or takes memory. The words are the ring, where the token lies, a mailbox for each
/// rank, and two for the halt and the stops. A batch for a rank lies in that rank's slot.
#[derive(Drop)]
pub struct Board {
    pub(crate) table: Table<Option<Batch>, View, u64, Order, Global>,
    pub(crate) n: u32,

    ghost few: { n ≤ 64 },
    ghost keyed: { table.shared.key ≡ n },
    ghost sized: { (table.shared.table_id.words ≡ n + 3) × (table.shared.table_id.slots ≡ n) },
}
