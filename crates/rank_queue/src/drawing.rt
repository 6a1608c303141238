//! How many strings a rank gives, and which rank it asks.
ghost use Rattle.std.specs.Prelude.{◌≡◌, ◌≢◌, ◌<◌, ◌≤◌, ◌-◌, ◌^◌};
ghost use Rattle.rank_queue.specs.Shares.{generator_of, word, after_word, equal_share, random_share, victim};

use rand_core::utils::NextWord;
use rand_pcg::Pcg32;

/// The generator of a rank. Each rank of a seed draws from a stream of its own.
pub fn generator(seed: u64, rank: u32) -> Pcg32
    ensures { result ≡ generator_of seed rank }
{
    Pcg32::new(seed, rank as u64)
}

/// The strings of `queued` that each of `asked` ranks gets, if all get the same.
pub fn equal_share(queued: u64, asked: u64) -> u64
    requires { asked < 2 ^ 64 - 1 }
    ensures { result ≡ equal_share queued asked }
{
    queued / (asked + 1)
}

/// The number of strings that a rank gets at random, if `left` strings may be given.
pub fn random_share(from: &mut Pcg32, left: u64) -> u64
    requires { left < 2 ^ 32 }
    ensures share { result ≡ random_share left (word from.old) }
    ensures within { result ≤ left }
    ensures drawn { from.new ≡ after_word from.old }
{
    from.next_word() as u64 % (left + 1)
}

/// The rank that rank `me` of `n` asks: one of the others, at random.
pub fn victim(from: &mut Pcg32, me: u32, n: u32) -> u32
    requires several { 2 ≤ n }
    requires me { me < n }
    ensures chosen { result ≡ victim me n (word from.old) }
    ensures rank { result < n }
    ensures other { result ≢ me }
    ensures drawn { from.new ≡ after_word from.old }
{
    let v = from.next_word() % (n - 1);
    if v < me { v } else { v + 1 }
}
