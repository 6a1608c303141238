//! Laws of every board that tells its picture, of the words, of plain boards, and of boards that threads share.
ghost use Rattle.std.specs.Prelude.{◌≡◌, ℕ, ◌<◌, ◌++◌, true};
ghost use Rattle.ring_core.specs.Picture.{PictureInvariant};
ghost use Rattle.ring_core.specs.declared.states.Token.{Token};
ghost use Rattle.post_board.specs.Told.{Sound, picture};
ghost use Rattle.post_board.specs.Deeds.{DeedsAreEvents, DeedsKeepSound, LateKeepsSound};
ghost use Rattle.post_board.specs.Words.{Sign, sign, word_of, token_read, word_of_token};
ghost use Rattle.post_board.specs.Plain.{told_by, Seats};
ghost use Rattle.post_board.specs.Reached.{Reached};
ghost use Rattle.post_board.specs.BoardRule.{TableState, Rule, taken, given, token_in};
ghost use Rattle.post_board.specs.BoardMoments.{told_at, on_way_at, NothingLeft};
ghost use Rattle.post_board.specs.BoardTurns.{StepsAreDeeds, MailboxTurns, RingTurns, HaltTurns};
ghost use Rattle.post_board.specs.LateSteps.{SetHaltKeeps, LoadHaltKeeps, StopKeeps, LoadStopsKeeps, WithdrawKeeps};
ghost use Rattle.post_board.specs.declared.plain_boards.PlainBoard.{PlainBoard};
ghost use Rattle.post_board.specs.declared.plain_seats.PlainSeat.{PlainSeat};

/// A legal deed is its event on the told picture.
pub fn deeds_are_events()
    ensures { DeedsAreEvents }
{}

/// A legal deed keeps the token invariant, and the facts that go with it (`Sane` in `specs/Told.antt`).
pub fn deeds_keep_sound()
    ensures { DeedsKeepSound }
{}

/// The calls that are not events keep them too: a request taken back from a rank that has stopped, a halt, and a stop.
pub fn late_keeps_sound()
    ensures { LateKeepsSound }
{}

/// The word of a mailbox and the word of the ring are read back as they were written.
pub fn words_are_read_back()
    ensures mailbox { (s : Sign) → sign (word_of s) ≡ s }
    ensures ring { (t : Token) → token_read (word_of_token t) ≡ t }
{}

/// A plain board that has a seat tells a sound picture: the token invariant holds of it, and the facts that go with it.
pub fn told_is_sound()
    ensures { (b : PlainBoard) (s : PlainSeat) → Seats b s → Sound (told_by b) }
{}

/// Between any two steps on the words of a [`Board`](crate::Board), whatever its threads do, its picture came about by legal deeds
/// alone, one after the other, from the start. The token invariant holds of it. The batches that each rank took from each other
/// one, followed by those on the way, are those that the other gave, in order. If a rank's seat has seen the end, nothing is left.
pub fn board_is_sound_at_every_moment()
    ensures reached { (n : ℕ) (s : TableState) (o : Rule n s) → Reached n (told_at n s o) }
    ensures token { (n : ℕ) (s : TableState) (o : Rule n s) → 0 < n → PictureInvariant n (picture (told_at n s o)) (token_in s.words) }
    ensures pairs { (n : ℕ) (s : TableState) (o : Rule n s) (i j : ℕ) → i < n → j < n
        → taken (o.known j) i ++ on_way_at n s o i j ≡ given (o.known i) j }
    ensures end { (n : ℕ) (s : TableState) (o : Rule n s) (r : ℕ) → r < n → (o.known r).ended ≡ true → NothingLeft n s o }
{}

/// The steps by which ranks halt, stop, hear of that, and take back a request to a rank that has stopped keep the rule of a
/// [`Board`](crate::Board) too.
pub fn late_steps_keep_the_rule()
    ensures set_halt { SetHaltKeeps }
    ensures load_halt { LoadHaltKeeps }
    ensures stop { StopKeeps }
    ensures load_stops { LoadStopsKeeps }
    ensures withdraw { WithdrawKeeps }
{}

/// Each step of a seat on a [`Board`](crate::Board) is one deed of its rank, or leaves the picture as it is. So the picture goes
/// through the events of the crate `ring_core`, one after the other, whatever the threads do.
pub fn board_steps_are_deeds()
    ensures mailboxes { StepsAreDeeds MailboxTurns }
    ensures ring { StepsAreDeeds RingTurns }
    ensures halts { StepsAreDeeds HaltTurns }
{}
