//! The first place of a path, found without making the paths again.
ghost use Rattle.std.specs.Prelude.{◌≡◌, ◌+◌, ◌≤◌, [], length, ◌==◌, ◌&&◌};
ghost use Rattle.entry_pages.specs.Pack.{same_after, unpacked, place_of};
ghost use Rattle.entry_pages.specs.Private.Kept.{IsSeek};

use crate::heads::{Head, Heads};
use path_text::common_len;

/// The first place of a path among the entries that are kept. It looks only at the bytes of a path that the path before does not
/// share, and only if that path shares as much with the wanted one.
pub(crate) fn place_in(heads: &Heads, rests: &[u8], wanted: &[u8]) -> Option<usize>
    requires { IsSeek heads.now rests.now wanted.now 0 0 0 (unpacked [] heads.now rests.now) }
    ensures { result ≡ place_of wanted.now (unpacked [] heads.now rests.now) }
{
    let mut leads = heads.leads();
    let mut same = 0usize;
    let mut at = 0usize;
    for k in 0..heads.len() {
        let (head, _text) = leads.next();
        let end = at + head.rest as usize;
        same = same_after(same, head.shared as usize, &rests[at..end], wanted);
        if is_whole(same, wanted.len(), head) {
            return Some(k);
        }
        leads.pass();
        at = end;
    }
    None
}

fn is_whole(same: usize, wanted: usize, head: Head) -> bool
    ensures { result ≡ (same == wanted && head.shared + head.rest == same) }
{
    same == wanted && head.shared as usize + head.rest as usize == same
}

// How many bytes a path shares with the wanted one, if the path before shares this many with it.
fn same_after(same: usize, shared: usize, rest: &[u8], wanted: &[u8]) -> usize
    requires { same ≤ length wanted.now }
    ensures { result ≡ same_after same shared rest.now wanted.now }
{
    if same < shared {
        return same;
    }
    shared + common_len(rest, &wanted[shared..])
}
