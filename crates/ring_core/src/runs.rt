//! Runs of events.
ghost use Rattle.std.specs.Prelude.{◌≡◌, ◌+◌, ◌≤◌, IfOk, IfErr, OnOk, IsTrue, count_by, ℕ, ◌<◌, length, sum_by};
ghost use Rattle.ring_core.specs.World.{started, queued_in, on_way_in, held, is_over};
ghost use Rattle.ring_core.specs.Run.{IsRun, HasCause, after_all, verdict_of, is_handle, pushed};

use crate::events::{Event, Reason};
use crate::states::{Desk, Token};
use crate::steps::step;
use crate::worlds::World;
use path_text::NoMemory;
use std::alloc::Global;
use thiserror::Error;

/// The result of a run of events.
#[derive(Clone, Copy, Debug, Drop, PartialEq, Eq)]
pub struct Verdict {
    /// Whether rank 0 has concluded that all is done.
    pub over: bool,
    /// How many strings wait at ranks.
    pub queued: u128,
    /// How many strings lie in mailboxes.
    pub on_way: u128,
    /// How many strings were handled.
    pub handled: u64,
}

/// Why a list of events has no verdict.
#[derive(Clone, Copy, Debug, Drop, PartialEq, Eq, Error)]
pub enum RunError {
    /// The event at this place, counted from 0, is the first that is not legal.
    #[error("event {at} is not legal: {reason}")]
    NotLegal { at: usize, reason: Reason },
    /// Out of memory.
    #[error("out of memory")]
    OutOfMemory,
}

impl<E: NoMemory> From<E> for RunError {
    ghost use Rattle.std.specs.Prelude.{◌≡◌};
    ghost use Rattle.ring_core.specs.declared.runs.RunError.TheVariants as error;

    ghost from_gives = { λ _ e. e ≡ error.OutOfMemory };

    fn from(_: E) -> Self {
        RunError::OutOfMemory
    }
}

/// Lets `n` ranks begin with `starts` strings and take the events in order, up to the first that is not legal.
pub fn check_run(alloc: Global, events: &[Event], n: u32, starts: u64) -> Result<Verdict, RunError>
    requires one { 1 ≤ n }
    requires at_most_64 { n ≤ 64 }
    ensures legal { OnOk result (IsRun (started n starts) events.now) }
    ensures verdict { IfOk result (λ verdict. verdict ≡ verdict_of (after_all (started n starts) events.now) (count_by is_handle events.now)) }

    // A run is over only if nothing is left to do.
    ensures nothing_left { IfOk result (λ verdict. IsTrue verdict.over → (verdict.queued ≡ 0) × (verdict.on_way ≡ 0)) }

    // No string is lost and none comes twice.
    ensures balance { IfOk result (λ verdict. verdict.queued + verdict.on_way + verdict.handled ≡ starts + sum_by pushed events.now) }

    ensures not_legal { IfErr result (HasCause (started n starts) events.now) }
{
    let mut world = World::start(alloc, n, starts)?;
    let mut handled = 0;
    for (at, event) in events.iter().enumerate() {
        if let Err(reason) = step(&mut world, event) {
            return Err(RunError::NotLegal { at, reason });
        }
        handled += is_handle(event) as u64;
    }
    Ok(world.verdict(handled))
}

fn is_handle(event: &Event) -> bool
    ensures { result ≡ is_handle event.now }
{
    matches!(event, Event::Handle { .. })
}

impl Desk {
    // How many strings it holds.
    fn held(self) -> u64
        ensures { result ≡ held self }
    {
        match self {
            Desk::Full(_, count) => count,
            _ => 0,
        }
    }
}

impl World {
    fn verdict(&self, handled: u64) -> Verdict
        ensures { result ≡ verdict_of self.now handled }
    {
        Verdict {
            over: self.token == Token::Over,
            queued: self.queued(),
            on_way: self.on_way(),
            handled,
        }
    }

    fn queued(&self) -> u128
        ensures { result ≡ queued_in self.now.0 }
    {
        let mut total = 0;
        for rank in &self.ranks {
            total += rank.queued as u128;
        }
        total
    }

    fn on_way(&self) -> u128
        ensures { result ≡ on_way_in self.now.0 }
    {
        let mut total = 0;
        for rank in &self.ranks {
            total += rank.desk.held() as u128;
        }
        total
    }
}
