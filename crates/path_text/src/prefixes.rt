//! The first bytes that two texts share.
ghost use Rattle.std.specs.Prelude.{◌≡◌, ◌+◌, ◌≤◌, length, take, drop, nat_eq};
ghost use Rattle.std.specs.List.{common_prefix_len};
ghost use Rattle.std.specs.Int.{from_be_bytes, w64};

/// Counts the first bytes that both share. It compares eight bytes at a time, and single bytes from the first eight that
/// differ. Our own.
#[tactic(auto, using(crate::proofs::Shared::prefix_done, crate::proofs::Shared::prefix_short))]
pub fn common_len(a: &[u8], b: &[u8]) -> usize
    ensures common { result ≡ common_prefix_len nat_eq a.now b.now }
    ensures short { result ≤ length b.now }
{
    let both = a.len().min(b.len());
    let same = shared_words(a, b);
    for i in same..both {
        if a[i] != b[i] {
            return i;
        }
    }
    both
}

/// Counts the first bytes that both share, in whole words of eight bytes.
pub(crate) fn shared_words(a: &[u8], b: &[u8]) -> usize
    ensures in_a { result ≤ length a.now }
    ensures in_b { result ≤ length b.now }
    ensures same { take result a.now ≡ take result b.now }
{
    let both = a.len().min(b.len());
    let mut at = 0;
    while both - at >= 8 {
        if word_at(a, at) != word_at(b, at) {
            return at;
        }
        at += 8;
    }
    at
}

fn word_at(bytes: &[u8], at: usize) -> u64
    requires { at + 8 ≤ length bytes.now }
    ensures { result ≡ from_be_bytes w64 (take 8 (drop at bytes.now)) }
{
    let s = &bytes[at..at + 8];
    u64::from_be_bytes([s[0], s[1], s[2], s[3], s[4], s[5], s[6], s[7]])
}
