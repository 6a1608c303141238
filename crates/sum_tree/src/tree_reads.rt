//! Reading the words of children.
ghost use Rattle.std.specs.Prelude.{◌≡◌, ◌-◌, ◌<◌, ◌^◌, min, None, IfSome, IfNone};
ghost use Rattle.sum_tree.specs.Tree.{children};
ghost use Rattle.sum_tree.specs.TreeRule.{below};
ghost use Rattle.sum_tree.specs.TreeSeats.{shown_by, IsSeat};
ghost use Rattle.sum_tree.specs.TreeReads.{Loaded, ChildrenFinal, Blocked};

use crate::sum_trees::{SumSeat, SumTree};

impl SumSeat {
    /// How many children the rank has, of which `first` is the first.
    fn children_from(&self, first: usize) -> usize
        ensures { result ≡ min self.now.width (self.now.n - first) }
    {
        (self.width as usize).min((self.n as usize).saturating_sub(first))
    }
}

impl SumTree {
    /// The sum of the numbers in the words of the children.
    pub(crate) fn read_children(&self, seat: &mut SumSeat) -> u64
        requires seat { IsSeat self.now seat.old }
        requires counting { (shown_by seat.old).answer ≡ None }
        ensures shown { shown_by seat.new ≡ shown_by seat.old }
        ensures mine { IsSeat self.now seat.new }
        ensures sum { result ≡ below seat.new.seat.me.0.own }
        ensures fits { result < 2 ^ 62 }
        ensures loads { Loaded seat.old.seat.me.0.own
            (children seat.old.seat.me.0.own.n seat.old.seat.me.0.own.width seat.old.seat.me.0.own.number) seat.new.seat.me.0.own }
    {
        let first = (seat.number * seat.width + 1) as usize;
        let count = seat.children_from(first);
        let mut sum = 0;
        for child in first..first + count {
            sum += self.load_step(&mut seat.seat, seat.number, child) / 2;
        }
        sum
    }

    /// The sum of the numbers in the words of the children, if each is final; reads up to the first that is not.
    pub(crate) fn read_finals(&self, seat: &mut SumSeat) -> Option<u64>
        requires seat { IsSeat self.now seat.old }
        requires counting { (shown_by seat.old).answer ≡ None }
        ensures shown { shown_by seat.new ≡ shown_by seat.old }
        ensures mine { IsSeat self.now seat.new }
        ensures sum { IfSome result (λ sum. (sum ≡ below seat.new.seat.me.0.own) × (sum < 2 ^ 62)) }
        ensures some { IfSome result (λ sum. ChildrenFinal seat.old.n seat.old.width seat.old.number seat.old.seat.me.0.own seat.new.seat.me.0.own) }
        ensures none { IfNone result (Blocked seat.old.seat.me.0.own (children seat.old.n seat.old.width seat.old.number) seat.new.seat.me.0.own) }
    {
        let first = (seat.number * seat.width + 1) as usize;
        let count = seat.children_from(first);
        let mut sum = 0;
        for child in first..first + count {
            let found = self.load_step(&mut seat.seat, seat.number, child);
            if found % 2 != 1 {
                return None;
            }
            sum += found / 2;
        }
        Some(sum)
    }
}
