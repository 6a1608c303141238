//! Laws of the sums of a tree, and of all that sums tell.
ghost use Rattle.std.specs.Prelude.{◌≡◌, ◌+◌, ◌<◌, ◌≤◌, ℕ, Some, true};
ghost use Rattle.std.specs.List.{range_with_len, sum_by};
ghost use Rattle.sum_tree.specs.Tree.{children, sum_of};
ghost use Rattle.sum_tree.specs.Told.{SumTold, Sound, word_of, is_final, sum_in};
ghost use Rattle.sum_tree.specs.TreeRule.{TableState, Rule};
ghost use Rattle.sum_tree.specs.TreeMoments.{told_at, WordsAreTold, SeatsAreTold};

use crate::sums::Sums;

/// The sum of a rank is its own count and the sums of its children.
pub fn sum_is_own_and_below()
    ensures { (n width : ℕ) (count : ℕ → ℕ) (r : ℕ) → 1 ≤ width → r < n
        → sum_of n width count r ≡ count r + sum_by (sum_of n width count) (children n width r) }
{}

/// Every rank is below rank 0, once: its sum is the sum of all counts.
pub fn sum_of_rank_0_is_sum_of_all()
    ensures { (n width : ℕ) (count : ℕ → ℕ) → 1 ≤ width → 1 ≤ n → sum_of n width count 0 ≡ sum_by count (range_with_len 0 n) }
{}

/// Between any two calls, the told counts and words are sound: a word holds at most the sum of its rank, a final one exactly that.
pub fn what_is_told_is_sound<Q: Sums>()
    ensures { (sums : Q) (seat : Q.Seat) (told : SumTold) → Q.seats sums seat → Q.tells sums ≡ Some told → Sound told }
{}

/// Between any two steps on the words of a [`SumTree`](crate::SumTree), whatever its threads do, a word holds at most the sum of the
/// counts of its rank and all below it, and a final word holds exactly that. Of each rank this is the count at its last writing.
pub fn words_are_sums_at_every_moment()
    ensures words { (n width : ℕ) (s : TableState) (o : Rule n width s) → WordsAreTold n width s o }
    ensures seats { (n width : ℕ) (s : TableState) (o : Rule n width s) → SeatsAreTold n width s o }
    ensures at_most { (n width : ℕ) (s : TableState) (o : Rule n width s) (r : ℕ) → word_of (told_at n width s o) r ≤ sum_in (told_at n width s o) r }
    ensures exact { (n width : ℕ) (s : TableState) (o : Rule n width s) (r : ℕ) → is_final (told_at n width s o) r ≡ true
        → word_of (told_at n width s o) r ≡ sum_in (told_at n width s o) r }
{}
