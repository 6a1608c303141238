//! How many threads a level is worth.
ghost use Rattle.std.specs.Prelude.{◌≡◌, ◌<◌, ◌≤◌, ℕ, length, Some, slice_get};

use crate::items::Item;
use flat_list::Entry;

/// How many threads work at most, and which levels are worth them. A level is worth them if it has `items` items, or if the sizes
/// of its entries sum to `bytes`. Starting a thread costs more than a smaller level, which runs on the calling thread alone.
#[derive(Clone, Copy, Debug, Drop, PartialEq, Eq)]
pub struct Hosts {
    /// The most threads.
    pub most: u32,
    /// A level of so many items is worth them.
    pub items: usize,
    /// A level of so many bytes is worth them too.
    pub bytes: u64,
}

impl Hosts {
    // How many threads a level is worth whose items are at these places.
    pub(crate) fn threads_for(self, items: &[Item], places: &[usize]) -> usize
        requires most { 1 ≤ self.most }
        requires inside { (j k : ℕ) → slice_get places.now j ≡ Some k → k < length items.now }
        ensures { 0 < result }
    {
        if places.len() < self.items && bytes_at(items, places) < self.bytes {
            1
        } else {
            self.most as usize
        }
    }
}

// The sum of the sizes of the entries at these places, up to the largest number.
fn bytes_at(items: &[Item], places: &[usize]) -> u64
    requires { (j k : ℕ) → slice_get places.now j ≡ Some k → k < length items.now }
{
    let mut bytes: u64 = 0;
    for j in 0..places.len() {
        bytes = bytes.saturating_add(size_of(&items[places[j]].entry));
    }
    bytes
}

fn size_of(entry: &Entry) -> u64 {
    match &entry.stat {
        Some(stat) => stat.size,
        None => 0,
    }
}
