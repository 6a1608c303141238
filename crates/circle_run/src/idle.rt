//! A host that has nothing to handle leaves its processor to others.
use crate::ranks::Rank;
use std::sync::Wait;
use std::thread;
use std::thread::Parker;
use std::time::Duration;

// After so many rounds without a string a host sleeps.
const ROUNDS: u32 = 100;

/// How many rounds in a row a host has been without a string, and the parker at which it sleeps. Nobody wakes it early.
#[derive(Drop)]
pub(crate) struct Idle {
    rounds: u32,
    parker: Parker,
}

impl Idle {
    pub(crate) fn make() -> Idle {
        Idle {
            rounds: 0,
            parker: Parker::new(),
        }
    }

    /// Gives the processor away after a round, if no rank has a string. At first it yields; later it sleeps, longer from round to
    /// round, up to a millisecond. So an answer waits at most some fraction of the time in which nothing came.
    pub(crate) fn rest<W: Wait, J, S, T>(&mut self, rt: &W, ranks: &[Rank<J, S, T>]) {
        if has_string(ranks) {
            self.rounds = 0;
            return;
        }
        self.rounds = self.rounds.saturating_add(1);
        if self.rounds <= ROUNDS {
            thread::yield_now();
            return;
        }
        let micros = self
            .rounds
            .saturating_sub(ROUNDS)
            .saturating_mul(2)
            .saturating_add(48);
        self.parker
            .park_timeout(rt, Duration::from_micros(micros.min(1000) as u64));
    }
}

fn has_string<J, S, T>(ranks: &[Rank<J, S, T>]) -> bool {
    ranks.iter().any(|rank| rank.state.queue.len() > 0)
}
