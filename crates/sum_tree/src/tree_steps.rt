//! One step on a word each.
ghost use Rattle.std.specs.Prelude.{◌≡◌, ◌+◌, ◌-◌, ◌/◌, ◌^◌, ◌<◌, ◌≤◌, true, false};
ghost use Rattle.sum_tree.specs.Steps.{coded};
ghost use Rattle.sum_tree.specs.TreeRule.{seen_of, below};
ghost use Rattle.sum_tree.specs.TreeSteps.{knowing, after_load, after_store};
ghost use Rattle.sum_tree.specs.TreeSeats.{Mine};
ghost use Rattle.sum_tree.specs.TreeReads.{AreFinalBelow};

use crate::sum_trees::SumTree;
use crate::tree_rules::{FinalStore, LoadWord, StoreWord};
use crate::tree_views::View;
use atomic_table::Seat;

impl SumTree {
    /// Reads the word of a rank.
    pub(crate) fn load_step(&self, seat: &mut Seat<(), View>, me: u32, word: usize) -> u64
        requires mine { Mine self.now seat.old.table_id seat.old.me me }
        requires word { word < self.now.n }
        ensures table { seat.new.table_id ≡ seat.old.table_id }
        ensures after { seat.new.me ≡ knowing seat.old.me (after_load seat.old.me.0.own word result) }
        ensures rises { seen_of seat.old.me.0.own word ≤ result / 2 }
        ensures fits { below seat.new.me.0.own < 2 ^ 62 }
        ensures own { word ≡ me → result ≡ coded seat.old.me.0.own.word seat.old.me.0.own.is_final }
    {
        self.table.shared.load::<LoadWord>(seat, word)
    }

    /// Writes a number that is not final into the own word.
    pub(crate) fn store_step(&self, seat: &mut Seat<(), View>, me: u32, count: u64, new: u64)
        requires mine { Mine self.now seat.old.table_id seat.old.me me }
        requires counting { seat.old.me.0.own.is_final ≡ false }
        requires count { (seat.old.me.0.own.count ≤ count) × (count ≤ 2 ^ 56 - 1) }
        requires new { new ≡ coded (count + below seat.old.me.0.own) false }
        ensures table { seat.new.table_id ≡ seat.old.table_id }
        ensures after { seat.new.me ≡ knowing seat.old.me (after_store seat.old.me.0.own new false) }
        ensures rises { seat.old.me.0.own.word ≤ new / 2 }
    {
        self.table.shared.store::<StoreWord>(seat, me as usize, new)
    }

    /// Writes the final sum into the own word, once those of all children were read final.
    pub(crate) fn final_step(&self, seat: &mut Seat<(), View>, me: u32, count: u64, new: u64)
        requires mine { Mine self.now seat.old.table_id seat.old.me me }
        requires counting { seat.old.me.0.own.is_final ≡ false }
        requires count { (seat.old.me.0.own.count ≤ count) × (count ≤ 2 ^ 56 - 1) }
        requires new { new ≡ coded (count + below seat.old.me.0.own) true }
        requires all { AreFinalBelow self.now.n self.now.width me seat.old.me.0.own }
        ensures table { seat.new.table_id ≡ seat.old.table_id }
        ensures after { seat.new.me ≡ knowing seat.old.me (after_store seat.old.me.0.own new true) }
        ensures rises { seat.old.me.0.own.word ≤ new / 2 }
    {
        self.table
            .shared
            .store::<FinalStore>(seat, me as usize, new)
    }
}
