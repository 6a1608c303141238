//! Packs an entry after others.
ghost use Rattle.std.specs.Prelude.{◌≡◌, ◌+◌, ◌*◌, ◌%◌, ◌<◌, ◌≤◌, ◌++◌, ◌∷◌, [], None, length, take, drop, OnOk, OnErr, if◌then◌else◌, ◌==◌};
ghost use Rattle.std.specs.Vec.{vec_len, vec_capacity};
ghost use Rattle.path_text.specs.Path.{refusal};
ghost use Rattle.entry_pages.specs.Pack.{shared_by, head_from, starts_by};
ghost use Rattle.entry_pages.specs.Private.Slim.{with_text};

use crate::appending::extend_reserved;
use crate::entries::Entry;
use crate::heads::{Head, Heads};
use outside::LinkText;
use path_text::{OutOfMemory, common_len};

/// How many bytes a path shares with the one before.
#[tactic(auto, using(crate::proofs::Inverse::shared_short))]
pub(crate) fn shared_of(place: usize, last: &[u8], path: &[u8]) -> usize
    ensures shared { result ≡ shared_by place last.now path.now }
    ensures short { result ≤ length path.now }
{
    if place % 256 == 0 {
        return 0;
    }
    common_len(last, path)
}

/// The head of an entry, without its target.
#[tactic(auto, using(path_text::proofs::Parts::short))]
pub(crate) fn head_of(entry: &Entry, path: &str, shared: usize) -> Head
    requires path { path.now ≡ entry.now.path }
    requires valid { refusal path.now ≡ None }
    requires short { shared ≤ length path.now }
    ensures { with_text result entry.now.target ≡ head_from entry.now shared }
{
    Head {
        stat: entry.stat,
        unnamed: entry.unnamed,
        far: entry.far,
        shared: shared as u16,
        rest: (path.len() - shared) as u16,
        mark: entry.mark,
    }
}

/// Puts a head, a target and the rest of its path after the others. A refusal leaves all.
pub(crate) fn put(
    heads: &mut Heads,
    starts: &mut Vec<usize>,
    rests: &mut Vec<u8>,
    last: &mut Vec<u8>,
    head: Head,
    target: &Option<LinkText>,
    path: &[u8],
) -> Result<(), OutOfMemory>
    requires short { head.shared ≤ length path.now }
    requires same { take head.shared last.old.items ≡ take head.shared path.now }
    ensures heads { OnOk result (heads.new ≡ heads.old ++ with_text head target.now ∷ []) }
    ensures starts { OnOk result (starts.new.items ≡ starts_by (length heads.old) (length rests.old.items) starts.old.items) }
    ensures rests { OnOk result (rests.new.items ≡ rests.old.items ++ drop head.shared path.now) }
    ensures last { OnOk result (last.new.items ≡ path.now) }
    ensures no_head { OnErr result (heads.new ≡ heads.old) }
    ensures no_start { OnErr result (starts.new.items ≡ starts.old.items) }
    ensures no_rest { OnErr result (rests.new.items ≡ rests.old.items) }
    ensures no_last { OnErr result (last.new.items ≡ last.old.items) }
{
    let shared = head.shared as usize;
    let rest = &path[shared..];
    let place = heads.len();
    let at = rests.len();
    starts.reserve(1)?;
    rests.reserve(rest.len())?;
    last.reserve(rest.len())?;
    heads.push(head, target)?;
    put_start(starts, place, at);
    extend_reserved(rests, rest);
    cut_back(last, shared, rest);
    Ok(())
}

/// Puts where the data of a page begin, if a page begins at this place. There is room.
pub(crate) fn put_start(starts: &mut Vec<usize>, place: usize, at: usize)
    requires { vec_len starts.old + 1 ≤ vec_capacity starts.old }
    ensures { starts.new.items ≡ starts_by place at starts.old.items }
{
    if place % 256 == 0 {
        starts.push_reserved(at);
    }
}

/// The first bytes of some bytes, and others after them, for which there is room.
pub(crate) fn cut_back(bytes: &mut Vec<u8>, shared: usize, rest: &[u8])
    requires { vec_len bytes.old + length rest.now ≤ vec_capacity bytes.old }
    ensures { bytes.new.items ≡ take shared bytes.old.items ++ rest.now }
{
    bytes.truncate(shared);
    extend_reserved(bytes, rest);
}
