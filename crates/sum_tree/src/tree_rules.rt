//! The rule of the table of sums, and the facts that each kind of step gives. Those of a gathering are in `src/tree_gathers.rt`.
ghost use Rattle.sum_tree.specs.TreeRule.{Rule, opened, dealing, dealt_out};
ghost use Rattle.sum_tree.specs.TreeSteps.{LoadTells, StoreTells, FinalTells};

use crate::tree_views::View;
use atomic_table::{Play, Split, TableRule};

pub struct Adding;

impl TableRule<(), View, (u64, u64)> for Adding {
    ghost holds = { λ k. Rule k.0 k.1 };

    ghost first = { λ k. opened k.0 k.1 };
}

pub struct LoadWord;

impl Play<(), View> for LoadWord {
    ghost then = { LoadTells };
}

pub struct StoreWord;

impl Play<(), View> for StoreWord {
    ghost then = { StoreTells };
}

pub struct FinalStore;

impl Play<(), View> for FinalStore {
    ghost then = { FinalTells };
}

pub struct Deal;

impl Split<View> for Deal {
    ghost left = { dealing };

    ghost right = { dealt_out };
}
