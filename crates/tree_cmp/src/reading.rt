//! The bytes of two files, compared piece by piece.
ghost use Rattle.std.specs.Prelude.{◌≡◌, ℕ, ◌+◌, ◌^◌, ◌<◌, ◌≤◌, true, false, length, OnOk, IfOk, IfErr, IfSome, IsErrOf};
ghost use Rattle.std.specs.FinMap.{get};
ghost use Rattle.flat_list.specs.Prelude.{RoseBy, content, is_file};
ghost use Rattle.tree_cmp.specs.Readers.{ShowsWhole};
ghost use Rattle.tree_cmp.specs.Filling.{Fills, IsShort, IsFileOf, ShowsMissing};
ghost use Rattle.tree_cmp.specs.Private.Reading.{Told, PieceTold, Shows, goes_on, counts};

use outside::{ReadError, Tree};
use path_text::Path;
use shared_reads::piece;
use std::mem;

/// Why the bytes of a file were not read.
#[derive(Clone, Copy, Debug, Drop, PartialEq, Eq)]
pub enum Missing {
    /// The outside failed.
    Failed,
    /// There were fewer bytes than were asked for, or no file.
    Changed,
}

impl From<ReadError> for Missing {
    ghost use Rattle.std.specs.Prelude.{◌≡◌};
    ghost use Rattle.tree_cmp.specs.Filling.{missing};

    ghost from_gives = { λ refused e. e ≡ missing refused };

    fn from(refused: ReadError) -> Self {
        match refused {
            ReadError::Failed => Missing::Failed,
            ReadError::NotFile => Missing::Changed,
        }
    }
}

// The outcome of reading two files.
#[derive(Clone, Copy, Debug, Drop, PartialEq, Eq)]
pub(crate) enum Outcome {
    // Whether the bytes are the same.
    Same(bool),
    // A file was not read: the destination's if the first field is true, and else the source's.
    Missed(bool, Missing),
}

/// Fills the buffer from the file at the path, from a place on.
pub fn fill<R: Tree>(reader: &mut R, path: &Path, at: u64, into: &mut [u8]) -> Result<(), Missing>
    requires some { 0 < length into.old }
    requires fits { at + length into.old < 2 ^ 64 }
    ensures told { OnOk result (IfSome (R.tree reader.old) (λ files. Fills (get files path.now) at into.new)) }
    ensures same { R.tree reader.new ≡ R.tree reader.old }
    ensures short { IsErrOf result Missing.Changed → IfSome (R.tree reader.old) (λ files. IsShort (get files path.now) (at + length into.new)) }
    ensures count { RoseBy 0 (R.count reader.old) (R.count reader.new) }
    ensures cause { IsErrOf result Missing.Failed → RoseBy 1 (R.count reader.old) (R.count reader.new) }
    ensures shows { IfErr result (ShowsMissing R.gives path.now) }
    ensures whole { OnOk result (ShowsWhole R.gives (at + length into.new) path.now) }
{
    let mut done = 0;
    while done < into.len() {
        let n = reader.read(path, at + done as u64, &mut into[done..])?;
        if n == 0 {
            return Err(Missing::Changed);
        }
        done += n;
    }
    Ok(())
}

// Whether two files of this size have the same bytes, by pieces of the length of the buffers, the source's first.
pub(crate) fn same_bytes<R: Tree>(
    reader: &mut R,
    left: &Path,
    right: &Path,
    size: u64,
    ours: &mut [u8],
    theirs: &mut [u8],
) -> Outcome
    requires some { 0 < length ours.old }
    requires as_long { length theirs.old ≡ length ours.old }
    ensures told { IfSome (R.tree reader.old) (λ files. IsFileOf (get files left.now) size → IsFileOf (get files right.now) size
        → Told (get files left.now) (get files right.now) result) }
    ensures same { R.tree reader.new ≡ R.tree reader.old }
    ensures cause { RoseBy (counts result) (R.count reader.old) (R.count reader.new) }
    ensures shows { Shows R.gives left.now right.now result }
    ensures ours { length ours.new ≡ length ours.old }
    ensures theirs { length theirs.new ≡ length theirs.old }
{
    let mut at = 0;
    while at < size {
        let room = piece(size - at, ours.len());
        let outcome = same_piece(
            reader,
            left,
            right,
            at,
            room,
            &mut ours[..room],
            &mut theirs[..room],
        );
        if !goes_on(outcome) {
            return outcome;
        }
        at += room as u64;
    }
    Outcome::Same(true)
}

fn goes_on(outcome: Outcome) -> bool
    ensures { result ≡ goes_on outcome }
{
    match outcome {
        Outcome::Same(same) => same,
        Outcome::Missed(_, _) => false,
    }
}

// Whether two files have the same bytes from a place on, as many as the buffers have.
fn same_piece<R: Tree>(
    reader: &mut R,
    left: &Path,
    right: &Path,
    at: u64,
    room: usize,
    ours: &mut [u8],
    theirs: &mut [u8],
) -> Outcome
    requires some { 0 < room }
    requires ours { length ours.old ≡ room }
    requires theirs { length theirs.old ≡ room }
    requires fits { at + room < 2 ^ 64 }
    ensures told { IfSome (R.tree reader.old) (λ files. PieceTold (get files left.now) (get files right.now) at room result) }
    ensures same { R.tree reader.new ≡ R.tree reader.old }
    ensures cause { RoseBy (counts result) (R.count reader.old) (R.count reader.new) }
    ensures shows { Shows R.gives left.now right.now result }
{
    if let Err(missing) = fill(reader, left, at, ours) {
        return Outcome::Missed(false, missing);
    }
    if let Err(missing) = fill(reader, right, at, theirs) {
        return Outcome::Missed(true, missing);
    }
    Outcome::Same(*ours == *theirs)
}
