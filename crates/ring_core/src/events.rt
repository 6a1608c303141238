//! The events of ranks, and the reasons to refuse one.
use crate::states::Colour;
use path_text::Path;
use thiserror::Error;

/// One atomic action of one rank, which is called `rank`.
#[derive(Debug, Drop, PartialEq, Eq)]
pub enum Event {
    /// The rank handled the string `path`, for which it queued `kids` new strings.
    Handle { rank: u32, path: Path, kids: u64 },
    /// The rank asked `victim` for strings.
    Ask { rank: u32, victim: u32 },
    /// The rank laid `count` of its strings into the mailbox of `to`, which had asked it.
    Give { rank: u32, to: u32, count: u64 },
    /// The rank told `to`, which had asked it, that it has nothing to give.
    Refuse { rank: u32, to: u32 },
    /// The rank took the `count` strings that `from` laid into its mailbox.
    Take { rank: u32, from: u32, count: u64 },
    /// The rank saw that `from` gave it nothing.
    TakeNone { rank: u32, from: u32 },
    /// The rank passed the token, now of this colour, to the rank below it.
    Pass { rank: u32, colour: Colour },
    /// Rank 0 sent the token round again.
    Restart { rank: u32 },
    /// Rank 0 found that all is done.
    Conclude { rank: u32 },
    /// The rank saw that all is over.
    SeeOver { rank: u32 },
}

/// Why an event is not legal. The reasons are tried in this order, and the first that holds is the answer.
#[derive(Clone, Copy, Debug, Drop, PartialEq, Eq, Error)]
pub enum Reason {
    /// A named rank does not exist, two named ranks are the same, or the rank may not do this with the token.
    #[error("no rank for this event")]
    BadRank,
    /// The acting rank has ended.
    #[error("the rank has ended")]
    Ended,
    /// The acting rank still has strings.
    #[error("the rank is busy")]
    Busy,
    /// Nothing is queued, the amount may not be given, or the new number of strings is too large.
    #[error("no such number of strings")]
    Count,
    /// The acting rank has a request open.
    #[error("a request is open")]
    OpenDesk,
    /// The mailbox does not hold what the event needs.
    #[error("the mailbox holds something else")]
    WrongDesk,
    /// The token is not where the event needs it.
    #[error("the token is elsewhere")]
    NoToken,
    /// The acting rank has not been refused since it last took strings.
    #[error("the rank has not tried for strings")]
    NotTried,
    /// The colours do not allow the event.
    #[error("the colour is wrong")]
    WrongColour,
}
