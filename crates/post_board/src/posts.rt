//! The trait of boards.
ghost use Rattle.std.specs.Prelude.{◌-◌, ◌≡◌, ◌≢◌, ◌<◌, ◌⊎◌, Option, None, List, length, true, false};
ghost use Rattle.std.specs.List.{Contains};
ghost use Rattle.ring_core.specs.declared.states.Colour.TheVariants.{White, Black};
ghost use Rattle.ring_core.specs.declared.states.Token.TheVariants.{At, Over};
ghost use Rattle.post_board.specs.Shown.{Shown, is_served, Live, Free, is_open, is_here, token_of, mixed};
ghost use Rattle.post_board.specs.Told.{Told};
ghost use Rattle.post_board.specs.Deeds.{ask as asking_of, give as giving_of, refuse as refusing_of, pass as passing_of, restart as restarting_of};
ghost use Rattle.post_board.specs.Deeds.{conclude as concluding_of, Tells, Stays, halt as halting_of, stop as stopping_of, TellsLate};
ghost use Rattle.post_board.specs.Calls.{asking, answered, AnswerTold, serving, Found, LookedFor, given, served, hearing, RingTold, passed};
ghost use Rattle.post_board.specs.Calls.{restarted, concluded, halting, stopping, NoneOnTheWay, AllDone, AllEven, Halters, AgreesIfTold};
ghost use Rattle.post_board.specs.Readings.{Adds, AskSteps, AnswerSteps, RequestSteps, GiveSteps, RefuseSteps, RingSteps, TokenSteps, HaltSteps, StopSteps};
ghost use Rattle.post_board.specs.declared.answers.Reading.{Reading};
ghost use Rattle.post_board.specs.declared.answers.Ring.TheVariants.{Over as HeardOver, Elsewhere as HeardElsewhere, Halted as HeardHalted};

use crate::answers::{Answer, Gathered, Ring};
use rank_queue::Batch;

/// A board on which ranks ask each other for strings, give and refuse, and move the token, each through a seat of its own.
/// No call takes memory, and none waits.
pub trait Post {
    /// A rank's place at the board.
    type Seat;

    // The facts that a seat shows of its rank.
    ghost shows: { Self.Seat → Shown };

    // The steps that a seat made on the words of the board, if it tells them.
    ghost reads: { Self.Seat → Option (List Reading) };

    // The picture of the board with the batches on the way, if it tells them.
    ghost tells: { Self → Option Told };

    // The seat is one of this board's, and the facts that it shows are true.
    ghost seats: { Self → Self.Seat → Type 0 };

    /// Asks another rank for strings, once this one has none.
    fn ask(&mut self, seat: &mut Self::Seat, victim: u32)
        requires seat { seats self.old seat.old }
        requires live { Live (shows seat.old) }
        requires free { Free (shows seat.old) }
        requires victim { (victim < (shows seat.old).n) × (victim ≢ (shows seat.old).number) }
        ensures shown { shows seat.new ≡ asking (shows seat.old) victim }
        ensures told { Tells (shows seat.old).number (asking_of victim) (tells self.old) (tells self.new) }
        ensures still { tells self.old ≡ None → self.new ≡ self.old }
        ensures reads { Adds (reads seat.old) (AskSteps (shows seat.old) victim) (reads seat.new) }
        ensures mine { seats self.new seat.new }
        ensures others { (other : Self.Seat) → (shows other).number ≢ (shows seat.old).number → seats self.old other → seats self.new other };

    /// Looks for the answer to the open request. A request to a rank that has stopped is taken back at once, unless that rank had
    /// answered it.
    fn answer(&mut self, seat: &mut Self::Seat) -> Answer
        requires seat { seats self.old seat.old }
        requires live { Live (shows seat.old) }
        requires asked { is_open (shows seat.old) ≡ true }
        ensures shown { shows seat.new ≡ answered (shows seat.old) result }
        ensures told { AnswerTold (shows seat.old) result (tells self.old) (tells self.new) }
        ensures still { tells self.old ≡ None → self.new ≡ self.old }
        ensures reads { Adds (reads seat.old) (AnswerSteps (shows seat.old) result) (reads seat.new) }
        ensures mine { seats self.new seat.new }
        ensures others { (other : Self.Seat) → (shows other).number ≢ (shows seat.old).number → seats self.old other → seats self.new other };

    /// Takes up the first request to this rank, in the order of ranks, that it has not taken up yet.
    fn next_request(&mut self, seat: &mut Self::Seat) -> Option<u32>
        requires seat { seats self.old seat.old }
        requires live { Live (shows seat.old) }
        ensures found { Found (shows seat.old) result }
        ensures shown { shows seat.new ≡ serving (shows seat.old) result }
        ensures told { Stays (LookedFor (shows seat.old) result) (tells self.old) (tells self.new) }
        ensures still { tells self.old ≡ None → self.new ≡ self.old }
        ensures reads { Adds (reads seat.old) (RequestSteps (shows seat.old) result) (reads seat.new) }
        ensures mine { seats self.new seat.new }
        ensures others { (other : Self.Seat) → (shows other).number ≢ (shows seat.old).number → seats self.old other → seats self.new other };

    /// Gives strings to a rank whose request was taken up.
    fn give(&mut self, seat: &mut Self::Seat, to: u32, batch: Batch)
        requires seat { seats self.old seat.old }
        requires live { Live (shows seat.old) }
        requires served { is_served (shows seat.old) to ≡ true }
        requires busy { (shows seat.old).busy ≡ true }
        requires some { 0 < length batch }
        ensures shown { shows seat.new ≡ given (shows seat.old) to batch }
        ensures told { Tells (shows seat.old).number (giving_of to batch) (tells self.old) (tells self.new) }
        ensures still { tells self.old ≡ None → self.new ≡ self.old }
        ensures reads { Adds (reads seat.old) (GiveSteps (shows seat.old) to) (reads seat.new) }
        ensures mine { seats self.new seat.new }
        ensures others { (other : Self.Seat) → (shows other).number ≢ (shows seat.old).number → seats self.old other → seats self.new other };

    /// Tells a rank whose request was taken up that there is nothing for it.
    fn refuse(&mut self, seat: &mut Self::Seat, to: u32)
        requires seat { seats self.old seat.old }
        requires live { Live (shows seat.old) }
        requires served { is_served (shows seat.old) to ≡ true }
        ensures shown { shows seat.new ≡ served (shows seat.old) to }
        ensures told { Tells (shows seat.old).number (refusing_of to) (tells self.old) (tells self.new) }
        ensures still { tells self.old ≡ None → self.new ≡ self.old }
        ensures reads { Adds (reads seat.old) (RefuseSteps (shows seat.old) to) (reads seat.new) }
        ensures mine { seats self.new seat.new }
        ensures others { (other : Self.Seat) → (shows other).number ≢ (shows seat.old).number → seats self.old other → seats self.new other };

    /// Looks where the token is, and whether all are to halt. A rank that sees the end has no strings; one that told all to halt sees
    /// the halt or the end.
    fn ring(&mut self, seat: &mut Self::Seat) -> Ring
        requires seat { seats self.old seat.old }
        requires live { Live (shows seat.old) }
        ensures shown { shows seat.new ≡ hearing (shows seat.old) result }
        ensures over { result ≡ HeardOver → (shows seat.old).busy ≡ false }
        ensures elsewhere { result ≡ HeardElsewhere → 1 < (shows seat.old).n }
        ensures halted { (shows seat.old).halted ≡ true → (result ≡ HeardHalted) ⊎ (result ≡ HeardOver) }
        ensures told { RingTold (shows seat.old) result (tells self.old) (tells self.new) }
        ensures still { tells self.old ≡ None → self.new ≡ self.old }
        ensures reads { Adds (reads seat.old) (RingSteps (shows seat.old) result) (reads seat.new) }
        ensures mine { seats self.new seat.new }
        ensures others { (other : Self.Seat) → (shows other).number ≢ (shows seat.old).number → seats self.old other → seats self.new other };

    /// Passes the token to the rank below, black if this rank is or the token was.
    fn pass(&mut self, seat: &mut Self::Seat)
        requires seat { seats self.old seat.old }
        requires live { Live (shows seat.old) }
        requires free { Free (shows seat.old) }
        requires here { is_here (shows seat.old) ≡ true }
        requires tried { (shows seat.old).tried ≡ true }
        requires above { 0 < (shows seat.old).number }
        ensures shown { shows seat.new ≡ passed (shows seat.old) }
        ensures told { Tells (shows seat.old).number (passing_of (mixed (shows seat.old))) (tells self.old) (tells self.new) }
        ensures still { tells self.old ≡ None → self.new ≡ self.old }
        ensures reads { Adds (reads seat.old) (TokenSteps (At (shows seat.old).number (token_of (shows seat.old)))
            (At ((shows seat.old).number - 1) (mixed (shows seat.old)))) (reads seat.new) }
        ensures mine { seats self.new seat.new }
        ensures others { (other : Self.Seat) → (shows other).number ≢ (shows seat.old).number → seats self.old other → seats self.new other };

    /// Sends the token round once more, white.
    fn restart(&mut self, seat: &mut Self::Seat)
        requires seat { seats self.old seat.old }
        requires live { Live (shows seat.old) }
        requires free { Free (shows seat.old) }
        requires here { is_here (shows seat.old) ≡ true }
        requires tried { ((shows seat.old).n ≡ 1) ⊎ ((shows seat.old).tried ≡ true) }
        requires first { (shows seat.old).number ≡ 0 }
        requires black { mixed (shows seat.old) ≡ Black }
        ensures shown { shows seat.new ≡ restarted (shows seat.old) }
        ensures told { Tells (shows seat.old).number restarting_of (tells self.old) (tells self.new) }
        ensures still { tells self.old ≡ None → self.new ≡ self.old }
        ensures reads { Adds (reads seat.old) (TokenSteps (At (shows seat.old).number (token_of (shows seat.old)))
            (At ((shows seat.old).n - 1) White)) (reads seat.new) }
        ensures mine { seats self.new seat.new }
        ensures others { (other : Self.Seat) → (shows other).number ≢ (shows seat.old).number → seats self.old other → seats self.new other };

    /// Ends the run: the token came back white to a white rank.
    fn conclude(&mut self, seat: &mut Self::Seat)
        requires seat { seats self.old seat.old }
        requires live { Live (shows seat.old) }
        requires free { Free (shows seat.old) }
        requires here { is_here (shows seat.old) ≡ true }
        requires tried { ((shows seat.old).n ≡ 1) ⊎ ((shows seat.old).tried ≡ true) }
        requires first { (shows seat.old).number ≡ 0 }
        requires white { mixed (shows seat.old) ≡ White }
        ensures shown { shows seat.new ≡ concluded (shows seat.old) }
        ensures told { Tells (shows seat.old).number concluding_of (tells self.old) (tells self.new) }
        ensures still { tells self.old ≡ None → self.new ≡ self.old }
        ensures reads { Adds (reads seat.old) (TokenSteps (At (shows seat.old).number White) Over) (reads seat.new) }
        ensures mine { seats self.new seat.new }
        ensures others { (other : Self.Seat) → (shows other).number ≢ (shows seat.old).number → seats self.old other → seats self.new other };

    /// Tells all ranks to halt: from then on each look at the token sees it, unless it sees the end.
    fn halt(&mut self, seat: &mut Self::Seat)
        requires seat { seats self.old seat.old }
        requires live { Live (shows seat.old) }
        ensures shown { shows seat.new ≡ halting (shows seat.old) }
        ensures told { TellsLate (shows seat.old).number halting_of (tells self.old) (tells self.new) }
        ensures still { tells self.old ≡ None → self.new ≡ self.old }
        ensures reads { Adds (reads seat.old) (HaltSteps (shows seat.old)) (reads seat.new) }
        ensures mine { seats self.new seat.new }
        ensures others { (other : Self.Seat) → (shows other).number ≢ (shows seat.old).number → seats self.old other → seats self.new other };

    /// Stops: this rank does nothing more at the board. It answers no further request: the asker takes the request back.
    fn stop(&mut self, seat: &mut Self::Seat)
        requires seat { seats self.old seat.old }
        requires live { Live (shows seat.old) }
        requires free { Free (shows seat.old) }
        ensures shown { shows seat.new ≡ stopping (shows seat.old) }
        ensures told { TellsLate (shows seat.old).number stopping_of (tells self.old) (tells self.new) }
        ensures still { tells self.old ≡ None → self.new ≡ self.old }
        ensures reads { Adds (reads seat.old) (StopSteps (shows seat.old)) (reads seat.new) }
        ensures mine { seats self.new seat.new }
        ensures others { (other : Self.Seat) → (shows other).number ≢ (shows seat.old).number → seats self.old other → seats self.new other };

    /// Takes the seats of all ranks, in any order, when each has ended or stopped.
    fn gather(&mut self, all: Vec<Self::Seat>) -> Gathered
        requires some { 0 < length all.items }
        requires all { AllDone shows (seats self.old) all.items }
        ensures over { (s : Self.Seat) → Contains all.items s → (shows s).number ≡ 0 → result.over ≡ (shows s).ended }
        ensures told { Stays NoneOnTheWay (tells self.old) (tells self.new) }
        ensures batches { AllEven shows (seats self.old) all.items }
        ensures halters { Halters shows (seats self.old) all.items };

    // The board tells of a seat's rank the facts that the seat shows.
    ghost agrees: { (b : Self) (s : Self.Seat) → seats b s → AgreesIfTold (tells b) (shows s) };
}
