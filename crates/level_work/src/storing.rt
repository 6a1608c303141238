//! The fates of a level, stored.
ghost use Rattle.std.specs.Prelude.{◌≡◌, ◌<◌, ℕ, length, Some, OnOk, slice_get};
ghost use Rattle.level_work.specs.Levels.{AreItems};
ghost use Rattle.level_work.specs.Private.Crews.{AreShares, Stored};
ghost use Rattle.level_work.specs.Private.Dealing.{AreOnLevel, In};
ghost use Rattle.level_work.specs.Private.Storing.{AreStored, IsLeftOut, IsNoted, IsStored, Notes};

use crate::failures::Paths;
use crate::items::{Fate, Item, Order};
use crate::lots::Lot;
use path_text::OutOfMemory;

// Stores the fates of a level: those of the shares, and of each other item of the level that its parent failed.
pub(crate) fn store<A, P>(
    items: &[Item],
    order: Order,
    level: usize,
    places: &[usize],
    lots: &[Lot<A, P>],
    fates: &mut [Fate],
)
    requires len { length fates.old ≡ length items.now }
    requires places { AreOnLevel (length items.now) level items.now places.now }
    requires shares { AreShares order level items.now fates.old lots.now }
    requires all { (i : ℕ) (lot : Lot A P) → slice_get lots.now i ≡ Some lot → length lot.fates.items ≡ length lot.places.items }
    ensures { Stored level items.now lots.now fates.old fates.new }
{
    leave_out(places, fates);
    store_shares(lots, fates);
}

// Says of each place that the parent failed.
fn leave_out(places: &[usize], fates: &mut [Fate])
    requires inside { (j k : ℕ) → slice_get places.now j ≡ Some k → k < length fates.old }
    ensures { IsLeftOut (length places.now) places.now fates.old fates.new }
{
    for j in 0..places.len() {
        fates[places[j]] = Fate::ParentFailed;
    }
}

// Stores the fates of all shares.
fn store_shares<A, P>(lots: &[Lot<A, P>], fates: &mut [Fate])
    requires all { (i : ℕ) (lot : Lot A P) → slice_get lots.now i ≡ Some lot → length lot.fates.items ≡ length lot.places.items }
    requires inside { (i j k : ℕ) → In lots.now i j k → k < length fates.old }
    requires once { (i j s t k : ℕ) → In lots.now i j k → In lots.now s t k → (i ≡ s) × (j ≡ t) }
    ensures { AreStored (length lots.now) lots.now fates.old fates.new }
{
    for i in 0..lots.len() {
        store_share(&lots[i], fates);
    }
}

// Stores the fates of a share.
fn store_share<A, P>(lot: &Lot<A, P>, fates: &mut [Fate])
    requires len { length lot.now.fates.items ≡ length lot.now.places.items }
    requires inside { (j k : ℕ) → slice_get lot.now.places.items j ≡ Some k → k < length fates.old }
    requires once { (i j k : ℕ) → slice_get lot.now.places.items i ≡ Some k → slice_get lot.now.places.items j ≡ Some k → i ≡ j }
    ensures { IsStored (length lot.now.places.items) lot.now.places.items lot.now.fates.items fates.old fates.new }
{
    for j in 0..lot.places.len() {
        fates[lot.places[j]] = lot.fates[j];
    }
}

// Adds the paths of the items of a level that did not come to `Done`. From the bottom up nobody needs them.
pub(crate) fn note(
    items: &[Item],
    order: Order,
    places: &[usize],
    fates: &[Fate],
    failed: &mut Paths,
) -> Result<(), OutOfMemory>
    requires len { length fates.now ≡ length items.now }
    requires inside { (j k : ℕ) → slice_get places.now j ≡ Some k → k < length items.now }
    ensures { OnOk result (Notes order items.now fates.now places.now failed.old.set.keys failed.new.set.keys) }
{
    match order {
        Order::BottomUp => Ok(()),
        Order::TopDown => note_each(items, places, fates, failed),
    }
}

fn note_each(
    items: &[Item],
    places: &[usize],
    fates: &[Fate],
    failed: &mut Paths,
) -> Result<(), OutOfMemory>
    requires len { length fates.now ≡ length items.now }
    requires inside { (j k : ℕ) → slice_get places.now j ≡ Some k → k < length items.now }
    ensures { OnOk result (IsNoted (length places.now) items.now fates.now places.now failed.old.set.keys failed.new.set.keys) }
{
    for t in 0..places.len() {
        let k = places[t];
        if !fates[k].is_done() {
            failed.add(&items[k].path)?;
        }
    }
    Ok(())
}
