//! The parts of a world.

/// The colour of a rank or of the token.
#[derive(Clone, Copy, Debug, Drop, PartialEq, Eq)]
pub enum Colour {
    /// Nothing is known against the end.
    White,
    /// Work may have gone where the token was before.
    Black,
}

/// The mailbox of a rank: it holds the rank's one request and then the answer to it.
#[derive(Clone, Copy, Debug, Drop, PartialEq, Eq)]
pub enum Desk {
    /// No request is open.
    Rest,
    /// The rank has asked this rank for strings.
    Asked(u32),
    /// This rank has laid so many strings here, which are on the way until they are taken.
    Full(u32, u64),
    /// This rank had no strings to give.
    Empty(u32),
}

/// The token, which goes round the ring from each rank to the one below it.
#[derive(Clone, Copy, Debug, Drop, PartialEq, Eq)]
pub enum Token {
    /// It lies at this rank and has this colour.
    At(u32, Colour),
    /// Rank 0 has concluded that all is done.
    Over,
}

/// The state of one rank.
#[derive(Clone, Copy, Debug, Drop, PartialEq, Eq)]
pub struct RankState {
    /// How many strings wait at the rank. It is busy if there is one.
    pub queued: u64,
    /// Black if it may have given strings to a higher rank since it last had the token.
    pub colour: Colour,
    /// Whether its last request was refused.
    pub tried: bool,
    /// Its mailbox.
    pub desk: Desk,
    /// Whether it has seen that all is over.
    pub ended: bool,
}

impl Colour {
    ghost use Rattle.std.specs.Prelude.{◌≡◌};
    ghost use Rattle.ring_core.specs.World.{darker};

    /// Black if one of the two colours is.
    pub fn darker(self, other: Colour) -> Colour
        ensures { result ≡ darker self other }
    {
        match self {
            Colour::Black => Colour::Black,
            Colour::White => other,
        }
    }
}
