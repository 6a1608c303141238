//! Compares in path order: eight bytes at a time up to the first difference, and then single bytes.
ghost use Rattle.std.specs.Prelude.{◌≡◌};
ghost use Rattle.path_text.specs.Order.{path_cmp, byte_rank};

use crate::prefixes::shared_words;
use std::cmp::Ordering;

/// Compares the bytes of two paths in path order. A caller may leave out the first bytes that both share, on both sides.
pub fn compare(a: &[u8], b: &[u8]) -> Ordering
    ensures { result ≡ path_cmp a.now b.now }
{
    let same = shared_words(a, b);
    compare_bytes(&a[same..], &b[same..])
}

fn compare_bytes(a: &[u8], b: &[u8]) -> Ordering
    ensures { result ≡ path_cmp a.now b.now }
{
    let both = a.len().min(b.len());
    for i in 0..both {
        let (x, y) = (byte_rank(a[i]), byte_rank(b[i]));
        if x != y {
            return x.cmp(&y);
        }
    }
    a.len().cmp(&b.len())
}

fn byte_rank(b: u8) -> u16
    ensures { result ≡ byte_rank b }
{
    if b == b'/' { 0 } else { b as u16 + 1 }
}
