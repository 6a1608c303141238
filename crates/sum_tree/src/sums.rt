//! The calls by which ranks add up their counts.
ghost use Rattle.std.specs.Prelude.{◌≡◌, ◌≢◌, ◌<◌, ◌≤◌, ◌+◌, ℕ, List, length, Option, Some, None, IfSome};
ghost use Rattle.std.specs.Option.{option_map};
ghost use Rattle.std.specs.List.{Contains, sum_by};
ghost use Rattle.sum_tree.specs.Told.{SumTold, count_of, words_below, told_raised, told_refreshed, told_finished, Finishes};
ghost use Rattle.sum_tree.specs.Shown.{SumShown, IsLeaf, raised, refreshed, finished, AllFinished, Agrees};
ghost use Rattle.sum_tree.specs.Steps.{Adds, RefreshSteps, FinishSteps, ShownSteps};
ghost use Rattle.sum_tree.specs.declared.ranks.Reading.{Reading};

/// Counts of ranks that are added up along a tree. Each rank acts through its seat.
pub trait Sums {
    /// A rank's place in the tree.
    type Seat;

    /// The facts that a seat shows of its rank.
    ghost shows: { Self.Seat → SumShown };

    /// The steps that a seat has made on the words since it was made, if it tells them.
    ghost reads: { Self.Seat → Option (List Reading) };

    /// The count and the word of every rank, if the sums tell them.
    ghost tells: { Self → Option SumTold };

    /// The seat is one of these sums.
    ghost seats: { Self → Self.Seat → Type 0 };

    /// Counts `by` more at this rank. A count stops at 2^56 - 1.
    fn raise(&mut self, seat: &mut Self::Seat, by: u64)
        requires seat { seats self.old seat.old }
        requires counting { (shows seat.old).answer ≡ None }
        ensures shown { shows seat.new ≡ raised by (shows seat.old) }
        ensures told { tells self.new ≡ option_map (told_raised (shows seat.old).number by) (tells self.old) }
        ensures still { tells self.old ≡ None → self.new ≡ self.old }
        ensures reads { reads seat.new ≡ reads seat.old }
        ensures mine { seats self.new seat.new }
        ensures others { (other : Self.Seat) → (shows other).number ≢ (shows seat.old).number → seats self.old other → seats self.new other };

    /// Writes into the rank's word the sum of its own count and the words of its children.
    fn refresh(&mut self, seat: &mut Self::Seat)
        requires seat { seats self.old seat.old }
        requires counting { (shows seat.old).answer ≡ None }
        ensures shown { shows seat.new ≡ refreshed (shows seat.new).word (shows seat.old) }
        ensures rises { (shows seat.old).word ≤ (shows seat.new).word }
        ensures own { (shows seat.old).count ≤ (shows seat.new).word }
        ensures alone { IsLeaf (shows seat.old) → (shows seat.new).word ≡ (shows seat.old).count }
        ensures exact { IfSome (tells self.old) (λ t. (shows seat.new).word ≡ count_of t (shows seat.old).number + words_below t (shows seat.old).number) }
        ensures told { tells self.new ≡ option_map (told_refreshed (shows seat.old).number (shows seat.new).word) (tells self.old) }
        ensures still { tells self.old ≡ None → self.new ≡ self.old }
        ensures reads { Adds (reads seat.old) (RefreshSteps (shows seat.old) (shows seat.new).word) (reads seat.new) }
        ensures mine { seats self.new seat.new }
        ensures others { (other : Self.Seat) → (shows other).number ≢ (shows seat.old).number → seats self.old other → seats self.new other };

    /// The final sum of the rank and all below it, once all its children have finished; the rank has then finished too.
    /// `None` if a child has not; then nothing is changed.
    fn finish(&mut self, seat: &mut Self::Seat) -> Option<u64>
        requires seat { seats self.old seat.old }
        requires counting { (shows seat.old).answer ≡ None }
        ensures shown { shows seat.new ≡ finished result (shows seat.old) }
        ensures rises { IfSome result (λ sum. (shows seat.old).word ≤ sum) }
        ensures own { IfSome result (λ sum. (shows seat.old).count ≤ sum) }
        ensures alone { IsLeaf (shows seat.old) → result ≡ Some (shows seat.old).count }
        ensures exact { IfSome (tells self.old) (Finishes (shows seat.old).number result) }
        ensures told { tells self.new ≡ option_map (told_finished (shows seat.old).number result) (tells self.old) }
        ensures still { tells self.old ≡ None → self.new ≡ self.old }
        ensures reads { Adds (reads seat.old) (FinishSteps (shows seat.old) result) (reads seat.new) }
        ensures mine { seats self.new seat.new }
        ensures others { (other : Self.Seat) → (shows other).number ≢ (shows seat.old).number → seats self.old other → seats self.new other };

    /// The number that the rank's word holds.
    fn shown(&mut self, seat: &mut Self::Seat) -> u64
        requires seat { seats self.old seat.old }
        ensures word { result ≡ (shows seat.old).word }
        ensures shown { shows seat.new ≡ shows seat.old }
        ensures told { tells self.new ≡ tells self.old }
        ensures still { tells self.old ≡ None → self.new ≡ self.old }
        ensures reads { Adds (reads seat.old) (ShownSteps (shows seat.old)) (reads seat.new) }
        ensures mine { seats self.new seat.new }
        ensures others { (other : Self.Seat) → (shows other).number ≢ (shows seat.old).number → seats self.old other → seats self.new other };

    /// The sum of all counts. Takes the seats of all ranks, in any order, each with its final sum.
    fn gather(&mut self, all: Vec<Self::Seat>) -> u64
        requires some { 0 < length all.items }
        requires all { AllFinished shows (seats self.old) all.items }
        ensures sum { result ≡ sum_by (λ seat. (shows seat).count) all.items }
        ensures first { (s : Self.Seat) → Contains all.items s → (shows s).number ≡ 0 → (shows s).answer ≡ Some result }
        ensures told { tells self.new ≡ tells self.old };

    // The told facts are sound, and those of a seat's rank are the facts that the seat shows.
    ghost agrees: { (sums : Self) (seat : Self.Seat) → seats sums seat → Agrees (tells sums) (shows seat) };
}
