//! Reads the file of one rank. It compares each line with the text that the writer would write there, so it parses no number.
ghost use Rattle.std.specs.Prelude.{◌≡◌, ◌≢◌, ◌+◌, ◌<◌, ◌≤◌, ◌^◌, ◌==◌, ℕ, List, length, true, false, Some, None, IfOk, IfErr, IfSome, IfNone, take, drop};
ghost use Rattle.whole_lines.specs.Lines.{line, end_text};
ghost use Rattle.whole_lines.specs.Words.{cut, ok_of, path_from};
ghost use Rattle.circle_lists.specs.Spelling.{IsRank, head_text, Spells, Agrees, IsDamaged};
ghost use Rattle.circle_lists.specs.Private.{most_ranks, IsHead, HeadsNone, IsCause, Ends, EndsBadly};

use crate::encoding::{put_end, put_head};
use path_text::{NoMemory, OutOfMemory, Path, reading_undoes_writing};
use std::alloc::Global;
use whole_lines::{cut_line, path_from};

/// The most ranks that a checkpoint may have.
const MAX_RANKS: u64 = 64;

/// The contents of the file of a rank: the number of ranks, and the rank's list.
#[derive(Drop)]
pub(crate) struct RankList {
    pub(crate) ranks: u64,
    pub(crate) paths: Vec<Path>,
}

/// Why a text is refused as the file of a rank.
#[derive(Clone, Copy, Debug, Drop, PartialEq, Eq)]
pub(crate) enum Refused {
    /// The lines before this one begin some file of the rank, and the lines up to this one do not.
    Damaged(u64),
    /// The call is out of memory.
    OutOfMemory,
}

impl<E: NoMemory> From<E> for Refused {
    ghost use Rattle.std.specs.Prelude.{◌≡◌};
    ghost use Rattle.circle_lists.specs.declared.decoding.Refused.TheVariants as error;

    ghost from_gives = { λ _ e. e ≡ error.OutOfMemory };

    fn from(_: E) -> Self {
        Refused::OutOfMemory
    }
}

/// Reads the file of the rank. If the number of ranks is known already, the file must have that number.
pub(crate) fn decode(
    alloc: Global,
    bytes: &[u8],
    rank: u64,
    known: Option<u64>,
) -> Result<RankList, Refused>
    requires { IsRank rank (most_ranks known) }
    ensures ok { IfOk result (λ told. Spells bytes.now rank told.ranks told.paths.items) }
    ensures agrees { IfOk result (λ told. Agrees known told.ranks) }
    ensures refused { IfErr result (IsCause bytes.now rank known) }
{
    // By this law no other text writes the same path.
    reading_undoes_writing();
    let Some((ranks, rest)) = behind_head(alloc, bytes, rank, known)? else {
        return Err(Refused::Damaged(1));
    };
    let mut paths = Vec::new(alloc);
    let mut rest = rest;
    while let Some((text, behind)) = cut_line(rest) {
        let Some(path) = path_from(alloc, text)? else {
            return ended(alloc, RankList { ranks, paths }, text, behind);
        };
        paths.push(path)?;
        rest = behind;
    }
    Err(Refused::Damaged(paths.len() as u64 + 2))
}

// The number of ranks in the head, and the text after the head.
fn behind_head(
    alloc: Global,
    bytes: &[u8],
    rank: u64,
    known: Option<u64>,
) -> Result<Option<(u64, &[u8])>, OutOfMemory>
    requires { IsRank rank (most_ranks known) }
    ensures head { IfOk result (λ found. IfSome found (λ f. (text : List ℕ) × IsHead text rank known f.0 × (cut 10 bytes.now ≡ Some (text, f.1.now)))) }
    ensures none { IfOk result (λ found. IfNone found (IsDamaged bytes.now rank known 1)) }
{
    let Some((text, rest)) = cut_line(bytes) else {
        return Ok(None);
    };
    match ranks_in(alloc, text, rank, known)? {
        Some(ranks) => Ok(Some((ranks, rest))),
        None => Ok(None),
    }
}

// The number of ranks in the head of the rank's file.
fn ranks_in(
    alloc: Global,
    text: &[u8],
    rank: u64,
    known: Option<u64>,
) -> Result<Option<u64>, OutOfMemory>
    requires { IsRank rank (most_ranks known) }
    ensures some { IfOk result (λ found. IfSome found (IsHead text.now rank known)) }
    ensures none { IfOk result (λ found. IfNone found (HeadsNone text.now rank known)) }
{
    let Some(ranks) = known else {
        return any_ranks_in(alloc, text, rank);
    };
    if !is_head(alloc, text, rank, ranks)? {
        return Ok(None);
    }
    Ok(Some(ranks))
}

fn any_ranks_in(alloc: Global, text: &[u8], rank: u64) -> Result<Option<u64>, OutOfMemory>
    ensures some { IfOk result (λ found. IfSome found (IsHead text.now rank None)) }
    ensures none { IfOk result (λ found. IfNone found (HeadsNone text.now rank None)) }
{
    for ranks in rank..MAX_RANKS {
        if is_head(alloc, text, rank, ranks + 1)? {
            return Ok(Some(ranks + 1));
        }
    }
    Ok(None)
}

fn is_head(alloc: Global, text: &[u8], rank: u64, ranks: u64) -> Result<bool, OutOfMemory>
    ensures yes { IfOk result (λ is. is ≡ true → text.now ≡ head_text rank ranks) }
    ensures no { IfOk result (λ is. is ≡ false → text.now ≢ head_text rank ranks) }
{
    let mut head = Vec::new(alloc);
    put_head(&mut head, rank, ranks)?;
    Ok(text == head.as_slice())
}

fn is_end(alloc: Global, text: &[u8], count: usize) -> Result<bool, OutOfMemory>
    ensures yes { IfOk result (λ is. is ≡ true → text.now ≡ end_text count) }
    ensures no { IfOk result (λ is. is ≡ false → text.now ≢ end_text count) }
{
    let mut end = Vec::new(alloc);
    put_end(&mut end, count)?;
    Ok(text == end.as_slice())
}

// The list, if the text is that of its end line, and nothing follows it.
fn ended(alloc: Global, told: RankList, text: &[u8], behind: &[u8]) -> Result<RankList, Refused>
    requires { length told.paths.items + 3 < 2 ^ 64 }
    ensures ok { IfOk result (λ same. Ends told.paths.items text.now behind.now × (same ≡ told)) }
    ensures refused { IfErr result (EndsBadly told.paths.items text.now behind.now) }
{
    let count = told.paths.len();
    if !is_end(alloc, text, count)? {
        return Err(Refused::Damaged(count as u64 + 2));
    }
    if !behind.is_empty() {
        return Err(Refused::Damaged(count as u64 + 3));
    }
    Ok(told)
}
