//! The part of a queue that each asking rank gets.
ghost use Rattle.std.specs.Prelude.{◌≡◌, ◌<◌, ◌≤◌, ◌+◌, ◌-◌, ◌∷◌, ◌⊎◌, ℕ, suc, true, false};
ghost use Rattle.rand_pcg.specs.Lcg.{Lcg};
ghost use Rattle.circle_run.specs.Moves.{amounts};
ghost use Rattle.circle_run.specs.Private.Services.{amounts_of, Fits};
ghost use Rattle.circle_run.specs.declared.lots.Lot.TheVariants.{Same};

use crate::settings::Split;
use rand_pcg::Pcg32;
use rank_queue::{equal_share, random_share};

/// The part that is left to share out in a service.
#[derive(Clone, Copy, Drop)]
pub(crate) enum Lot {
    /// To each the same.
    Same(u64),
    /// To each a random part of so many.
    ByLot(u32),
}

impl Lot {
    /// The lot of a service, or of nothing if the rank refuses all.
    pub(crate) fn of(gives: bool, split: Split, queued: u64, askers: u64) -> Lot
        requires { askers ≤ 64 }
        ensures amounts { gives ≡ true → (from : Lcg) → amounts_of result askers from ≡ amounts split queued askers from }
        ensures nothing { gives ≡ false → result ≡ Same 0 }
        ensures fits { Fits result askers queued }
    {
        if gives {
            Lot::make(split, queued, askers)
        } else {
            Lot::Same(0)
        }
    }

    /// The lot of `queued` strings for `askers` ranks. A random lot sees at most 2^32 strings.
    fn make(split: Split, queued: u64, askers: u64) -> Lot
        requires { askers ≤ 64 }
        ensures amounts { (from : Lcg) → amounts_of result askers from ≡ amounts split queued askers from }
        ensures fits { Fits result askers queued }
    {
        match split {
            Split::Equal => Lot::Same(equal_share(queued, askers)),
            Split::Random => {
                if queued == 0 {
                    Lot::Same(0)
                } else {
                    Lot::ByLot((queued.min(1 << 32) - 1) as u32)
                }
            }
        }
    }

    /// The number of strings for the next rank.
    pub(crate) fn next(&mut self, draws: &mut Pcg32) -> u64
        ensures first { (k : ℕ) → (amounts_of self.old (suc k) draws.old).0 ≡ result ∷ (amounts_of self.new k draws.new).0 }
        ensures drawn { (k : ℕ) → (amounts_of self.old (suc k) draws.old).1 ≡ (amounts_of self.new k draws.new).1 }
        ensures less { (k q : ℕ) → Fits self.old (suc k) q → (result ≡ 0) ⊎ (result < q) }
        ensures fits { (k q : ℕ) → Fits self.old (suc k) (q + result) → Fits self.new k q }
    {
        match *self {
            Lot::Same(share) => share,
            Lot::ByLot(left) => {
                let share = random_share(draws, left as u64);
                *self = Lot::ByLot(left - share as u32);
                share
            }
        }
    }
}
