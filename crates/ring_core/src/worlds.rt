//! Worlds.
ghost use Rattle.std.specs.Prelude.{◌≡◌, ◌+◌, ◌<◌, ◌≤◌, List, length, IfOk};
ghost use Rattle.ring_core.specs.World.{dealt, fresh, started};

use crate::states::{Colour, Desk, RankState, Token};
use path_text::OutOfMemory;
use std::alloc::Global;
use std::marker::Model;

/// The ranks by their numbers, and the token. A contract sees it as the pair of the two.
#[derive(Debug, Drop)]
pub struct World {
    pub(crate) ranks: Vec<RankState>,
    pub(crate) token: Token,
}

impl Model for World {
    ghost use Rattle.std.specs.Prelude.{◌≤◌, List, length};
    ghost use Rattle.ring_core.specs.declared.states.RankState.{RankState};
    ghost use Rattle.ring_core.specs.declared.states.Token.{Token};

    ghost Value = { List RankState × Token };

    ghost view = { λ w. (w.ranks.items, w.token) };

    ghost invariant = { λ w. length w.ranks.items ≤ 64 };
}

impl World {
    /// The world in which `n` ranks begin with `starts` strings, dealt to them one by one. The token lies black at rank 0.
    pub fn start(alloc: Global, n: u32, starts: u64) -> Result<World, OutOfMemory>
        requires one { 1 ≤ n }
        requires at_most_64 { n ≤ 64 }
        ensures { IfOk result (λ world. world ≡ started n starts) }
    {
        let mut ranks = Vec::with_capacity(alloc, n as usize)?;
        for rank in 0..n {
            ranks.push(fresh(dealt(n, starts, rank)))?;
        }
        Ok(World {
            ranks,
            token: Token::At(0, Colour::Black),
        })
    }
}

fn fresh(queued: u64) -> RankState
    ensures { result ≡ fresh queued }
{
    RankState {
        queued,
        colour: Colour::White,
        tried: false,
        desk: Desk::Rest,
        ended: false,
    }
}

// How many strings go to the rank.
fn dealt(n: u32, starts: u64, rank: u32) -> u64
    requires { rank < n }
    ensures { result ≡ dealt n starts rank }
{
    let ranks = n as u64;
    let rounds = starts / ranks;
    if (rank as u64) < starts % ranks {
        rounds + 1
    } else {
        rounds
    }
}
