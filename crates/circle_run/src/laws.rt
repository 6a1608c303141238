//! Laws of balances and of runs of moves: each law is the contract of a function that does nothing, or only cites others.
ghost use Rattle.circle_run.specs.Apart.{HostsAreBalanced};
ghost use Rattle.circle_run.specs.AsOften.{BalanceIsAsOften};
ghost use Rattle.circle_run.specs.Fair.{MovesAnswerFirst, RoundsAreFair, TurnsArePlayed};
ghost use Rattle.circle_run.specs.Shares.{EventsTellLogs, GivenIsTakenOrMailed, LogsAreHandled};
ghost use Rattle.circle_run.specs.Stops.{MovesHalt};
ghost use Rattle.circle_run.specs.Waiting.{AllIsHandled, MovesAreBalanced, NothingWaitsAtEnd};
ghost use Rattle.circle_run.specs.Worlds.{MovesAreLegalRun};

use ring_core::{legal_event_is_step_of_picture, no_rank_ends_early};

/// A run is balanced exactly if each string is as often among those handled and those left as among the starts and those
/// pushed.
pub fn balance_is_as_often()
    ensures { BalanceIsAsOften }
{}

/// Moves that are played from the start are balanced: each string was handled, or waits at a rank or in a mailbox, as often
/// as it was a start or was pushed. If nothing waits, each was handled that often.
pub fn moves_are_balanced()
    ensures always { MovesAreBalanced }
    ensures whole { AllIsHandled }
{}

/// The events of all moves that are played from the start are legal, one after the other, and leave the world of the last
/// stage: each rank with as many strings as its queue has, and the told mailbox and token.
pub fn moves_are_legal_run()
    ensures { MovesAreLegalRun }
{}

/// No rank sees the end too early: if one has, no string waits at a rank or in a mailbox.
pub fn nothing_waits_at_end()
    ensures { NothingWaitsAtEnd }
{
    no_rank_ends_early();
    legal_event_is_step_of_picture();
}

/// The strings that the ranks gave were taken or lie in a mailbox.
pub fn given_is_taken_or_mailed()
    ensures { GivenIsTakenOrMailed }
{}

/// The log of each rank holds the strings that it handled, in order, and the events of the moves tell the same strings.
pub fn logs_are_handled()
    ensures logs { LogsAreHandled }
    ensures events { EventsTellLogs }
{}

/// A rank handles a string only while no other rank asks it.
pub fn moves_answer_first()
    ensures { MovesAnswerFirst }
{}

/// Ranks that have their turns in rounds are fair: between two strings that one rank handles every other rank has an event of
/// its own, except a rank that is asking at the earlier of the two. A turn is a service and at most one move more. It has an
/// event, unless the rank waits for an answer or has seen the end.
pub fn rounds_are_fair()
    ensures played { TurnsArePlayed }
    ensures fair { RoundsAreFair }
{
    nothing_waits_at_end();
}

/// If each rank made moves of its own to its end, and each took from each other the batches that the other gave, the run is
/// balanced, whoever hosted the ranks and in whatever order they moved.
pub fn hosts_are_balanced()
    ensures { HostsAreBalanced }
{}

/// All are to halt only if some rank has handled its number of strings, and only then does any rank stop.
pub fn moves_halt()
    ensures { MovesHalt }
{}
