//! A head in 24 bytes.
ghost use Rattle.std.specs.Prelude.{◌≡◌, ◌==◌, ◌+◌, ◌*◌, ◌<◌, ◌≤◌, ◌++◌, ◌∷◌, [], ℕ, List};
ghost use Rattle.std.specs.Prelude.{Option, true, length, drop, OnOk, OnErr, is_some, is_none, Some, None, if◌then◌else◌};
ghost use Rattle.std.specs.Vec.{vec_len, vec_capacity};
ghost use Rattle.entry_pages.specs.Entries.{size_by};
ghost use Rattle.entry_pages.specs.Pack.{starts_by};
ghost use Rattle.entry_pages.specs.Private.Slim.{shown_by, kind_shown, time_or, seconds_or, is_timed, is_odd, slim_by};
ghost use Rattle.entry_pages.specs.Private.Slim.{odds_by, target_bytes, is_text, with_text, stat_shown, told, first_odd};

use crate::entries::Mark;
use crate::heads::Head;
use crate::packing::put_start;
use outside::{Kind, LinkText, Stat};
use path_text::OutOfMemory;

/// The kind of the file at a path, if it is known.
#[derive(Clone, Copy, Debug, Drop, PartialEq, Eq)]
pub(crate) enum Shown {
    Nothing,
    File,
    Dir,
    Link,
    Other,
}

/// The part of each head that is kept in 24 bytes.
#[derive(Clone, Copy, Debug, Drop)]
pub(crate) struct Slim {
    pub size: u64,
    pub mtime: u64,
    pub shared: u16,
    pub rest: u16,
    pub shown: Shown,
    pub timed: bool,
    pub mark: Mark,
    pub odd: bool,
}

/// The part that is kept only of odd heads: they have a target, or one of the two numbers is not 0.
#[derive(Clone, Copy, Debug, Drop)]
pub(crate) struct Odd {
    pub unnamed: u64,
    pub far: u64,
    /// How many bytes the target has, and 0 if there is none.
    pub target: u16,
}

impl Slim {
    /// The head of which this is a part, with its other part.
    pub fn told(&self, odd: Odd) -> Head
        ensures { result ≡ told self.now odd }
    {
        let time = if_timed(self.timed, self.mtime);
        Head {
            stat: stat_shown(self.shown, self.size, time),
            unnamed: odd.unnamed,
            far: odd.far,
            shared: self.shared,
            rest: self.rest,
            mark: self.mark,
        }
    }
}

fn if_timed(timed: bool, mtime: u64) -> Option<u64>
    ensures { result ≡ (if timed then Some mtime else None) }
{
    if timed { Some(mtime) } else { None }
}

fn stat_shown(shown: Shown, size: u64, mtime: Option<u64>) -> Option<Stat>
    ensures { result ≡ stat_shown shown size mtime }
{
    let kind = match shown {
        Shown::Nothing => return None,
        Shown::File => Kind::File,
        Shown::Dir => Kind::Dir,
        Shown::Link => Kind::Link,
        Shown::Other => Kind::Other,
    };
    Some(Stat { kind, size, mtime })
}

/// Puts the parts of a head and a target after the others. A refusal leaves all.
pub(crate) fn put_slim(
    slims: &mut Vec<Slim>,
    odds: &mut Vec<Odd>,
    starts: &mut Vec<usize>,
    head: Head,
    target: &Option<LinkText>,
) -> Result<(), OutOfMemory>
    ensures slims { OnOk result (slims.new.items ≡ slims.old.items ++ slim_by (with_text head target.now) ∷ []) }
    ensures odds { OnOk result (odds.new.items ≡ odds.old.items ++ odds_by (with_text head target.now)) }
    ensures starts { OnOk result (starts.new.items ≡ starts_by (length slims.old.items) (length odds.old.items) starts.old.items) }
    ensures no_slim { OnErr result (slims.new.items ≡ slims.old.items) }
    ensures no_odd { OnErr result (odds.new.items ≡ odds.old.items) }
    ensures no_start { OnErr result (starts.new.items ≡ starts.old.items) }
    ensures valid { is_text target.now ≡ true }
{
    let place = slims.len();
    let at = odds.len();
    let len = text_len(target);
    starts.reserve(1)?;
    odds.reserve(1)?;
    slims.push(slim_of(head, len))?;
    put_start(starts, place, at);
    put_odd(odds, head, len);
    Ok(())
}

// How many bytes a target has, and 0 if there is none.
#[tactic(auto, using(crate::proofs::Slimmed::text_short))]
fn text_len(target: &Option<LinkText>) -> u16
    ensures len { result ≡ length (target_bytes target.now) }
    ensures some { (result == 0) ≡ is_none target.now }
    ensures valid { is_text target.now ≡ true }
{
    match target {
        None => 0,
        Some(target) => target.text().len() as u16,
    }
}

fn put_odd(odds: &mut Vec<Odd>, head: Head, len: u16)
    requires { vec_len odds.old + 1 ≤ vec_capacity odds.old }
    ensures { (target : Option (List ℕ)) → len ≡ length (target_bytes target) → (len == 0) ≡ is_none target
        → odds.new.items ≡ odds.old.items ++ odds_by (with_text head target) }
{
    if is_odd(head, len) {
        odds.push_reserved(Odd {
            unnamed: head.unnamed,
            far: head.far,
            target: len,
        });
    }
}

fn slim_of(head: Head, len: u16) -> Slim
    ensures { (target : Option (List ℕ)) → (len == 0) ≡ is_none target → result ≡ slim_by (with_text head target) }
{
    Slim {
        size: size_of(head.stat),
        mtime: time_or(head.stat),
        shared: head.shared,
        rest: head.rest,
        shown: shown_by(head.stat),
        timed: is_timed(head.stat),
        mark: head.mark,
        odd: is_odd(head, len),
    }
}

#[tactic(auto, using(crate::proofs::Slimmed::odd_is))]
fn is_odd(head: Head, len: u16) -> bool
    ensures { (target : Option (List ℕ)) → (len == 0) ≡ is_none target → result ≡ is_odd (with_text head target) }
{
    len > 0 || !(head.unnamed == 0 && head.far == 0)
}

fn size_of(stat: Option<Stat>) -> u64
    ensures { result ≡ size_by stat }
{
    match stat {
        None => 0,
        Some(stat) => stat.size,
    }
}

fn time_or(stat: Option<Stat>) -> u64
    ensures { result ≡ time_or stat }
{
    match stat {
        None => 0,
        Some(stat) => seconds_or(stat.mtime),
    }
}

fn seconds_or(time: Option<u64>) -> u64
    ensures { result ≡ seconds_or time }
{
    match time {
        None => 0,
        Some(seconds) => seconds,
    }
}

fn is_timed(stat: Option<Stat>) -> bool
    ensures { result ≡ is_timed stat }
{
    match stat {
        None => false,
        Some(stat) => stat.mtime.is_some(),
    }
}

fn shown_by(stat: Option<Stat>) -> Shown
    ensures { result ≡ shown_by stat }
{
    match stat {
        None => Shown::Nothing,
        Some(stat) => kind_shown(stat.kind),
    }
}

fn kind_shown(kind: Kind) -> Shown
    ensures { result ≡ kind_shown kind }
{
    match kind {
        Kind::File => Shown::File,
        Kind::Dir => Shown::Dir,
        Kind::Link => Shown::Link,
        Kind::Other => Shown::Other,
    }
}

/// The other part of the next odd head, after this many; two zeros and no target for a head that is not odd.
#[inline(always)]
pub(crate) fn odd_at(odds: &[Odd], gone: usize, wanted: bool) -> Odd
    ensures { result ≡ first_odd wanted (drop gone odds.now) }
{
    if !wanted || gone >= odds.len() {
        return Odd {
            unnamed: 0,
            far: 0,
            target: 0,
        };
    }
    odds[gone]
}
