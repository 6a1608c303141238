//! Candidates are read for their hashes, piece by piece. A hash is fast and is not a digest: it only spares comparisons.
ghost use Rattle.std.specs.Prelude.{◌≡◌, ℕ, List, Result, ◌+◌, ◌^◌, ◌<◌, [], take, drop};
ghost use Rattle.std.specs.Prelude.{length, map, OnOk, IfOk, IfErr, IfSome, IsErrOf, OnErr, All, slice_index_or};
ghost use Rattle.std.specs.FinMap.{get};
ghost use Rattle.std.specs.Hash.FoldHasher.{write};
ghost use Rattle.flat_list.specs.Prelude.{RoseBy, content, Entry};
ghost use Rattle.shared_reads.specs.Kept.{IsKept, Holds, AreCut, held};
ghost use Rattle.tree_dup.specs.Grouping.{HaveCauses, ShowsWhole};
ghost use Rattle.tree_cmp.specs.declared.reading.Missing.{Missing};
ghost use Rattle.tree_dup.specs.Private.Hashing.{IsHash, IsWhole, AreHashes, WasPut, content_hash, hash_faults};
ghost use Rattle.tree_cmp.specs.Filling.{IsFileOf, IsShort, ShowsMissing};
ghost use Rattle.shared_reads.specs.Counts.{KeepsUp};
ghost use Rattle.tree_dup.specs.Private.Running.{still};
ghost use Rattle.tree_dup.specs.Private.Sifting.{AreListed, AreHashed};

use crate::errors::DupError;
use crate::groups::Groups;
use crate::runs::File;
use outside::Tree;
use path_text::{OutOfMemory, Path};
use shared_reads::{Desk, Job, Kept, PIECE, Reading, piece};
use std::alloc::Global;
use std::hash::{FoldHasher, Hasher};
use tree_cmp::{Missing, fill};

// The hash of a candidate's bytes, or why they were not read.
pub(crate) type Hash = Result<u64, Missing>;

// Candidates that are to be read for their hashes. A candidate's place is its index.
#[derive(Drop)]
pub(crate) struct Hashing<'a> {
    pub(crate) files: &'a [File],
}

impl<'a, R: Tree> Job<R, Hash> for Hashing<'a> {
    ghost use Rattle.std.specs.Prelude.{length};
    ghost use Rattle.tree_dup.specs.Private.Hashing.{AreHashes, hash_faults};

    ghost places = { λ job. length job.files.now };

    ghost told = { λ job tree place hash. AreHashes tree R.gives job.files.now place hash };

    ghost faults = { hash_faults };

    fn len(&self) -> usize {
        self.files.len()
    }

    fn read(&self, place: usize, reader: &mut R, desk: &mut Desk) -> Reading<Hash> {
        // A hash is taken of whole pieces.
        if desk.ours.len() != PIECE {
            return Ok(None);
        }
        Ok(Some(hash_of(&self.files[place], reader, &mut desk.ours)))
    }
}

// A buffer for a piece.
pub(crate) fn piece_buffer(alloc: Global) -> Result<Vec<u8>, OutOfMemory>
    ensures { IfOk result (λ buffer. length buffer.items ≡ 65536) }
{
    let buffer = vec![in alloc; 0u8; PIECE]?;
    Ok(buffer)
}

// Gives each candidate its hash: the one that a worker kept, or else the reader's. A file that was missed leaves the candidates.
pub(crate) fn hash_all<R: Tree>(
    files: &mut Vec<File>,
    mut kept: Kept<Hash>,
    reader: &mut R,
    buffer: &mut [u8],
    found: &mut Groups,
) -> Result<(), DupError>
    requires room { length buffer.old ≡ 65536 }
    requires alike { map still files.old.items ≡ files.old.items }
    requires told { Holds (AreHashes (R.tree reader.old) R.gives files.old.items) kept }
    requires no_groups { found.old.groups ≡ [] }
    requires no_failed { found.old.failed ≡ [] }
    requires no_changed { found.old.changed ≡ [] }
    ensures hashed { OnOk result ((list : List Entry) → AreListed (R.tree reader.old) list (length list) files.old.items
        → AreHashed (R.tree reader.old) list files.new.items found.new) }
    ensures alike { OnOk result (map still files.new.items ≡ files.new.items) }
    ensures whole { OnOk result (All (IsWhole R.gives) files.new.items) }
    ensures counted { OnOk result (KeepsUp (held hash_faults kept) (length found.new.failed) (R.count reader.old) (R.count reader.new)) }
    ensures causes { OnOk result (HaveCauses R.gives found.new) }
    ensures same { R.tree reader.new ≡ R.tree reader.old }
    ensures count { RoseBy 0 (R.count reader.old) (R.count reader.new) }
{
    let mut place = files.len();
    while place > 0 {
        place -= 1;
        let hash = kept_hash(&mut kept, place, &files[place], reader, buffer);
        put(files, place, hash, found)?;
    }
    Ok(())
}

// The hash of a candidate that a worker kept, or else the one that the reader finds.
fn kept_hash<R: Tree>(
    kept: &mut Kept<Hash>,
    place: usize,
    file: &File,
    reader: &mut R,
    buffer: &mut [u8],
) -> Hash
    requires room { length buffer.old ≡ 65536 }
    requires told { (hash : Result ℕ Missing) → IsKept place hash kept.old → IsHash (R.tree reader.old) R.gives file.now hash }
    ensures hash { IsHash (R.tree reader.old) R.gives file.now result }
    ensures cut { AreCut kept.old kept.new }
    ensures counted { KeepsUp (held hash_faults kept.old) (hash_faults result + held hash_faults kept.new) (R.count reader.old) (R.count reader.new) }
    ensures same { R.tree reader.new ≡ R.tree reader.old }
{
    match kept.take(place) {
        Some(hash) => hash,
        None => hash_of(file, reader, buffer),
    }
}

// Puts the hash of a candidate beside it, or takes it out as missed. The last candidate comes into its place.
fn put(files: &mut Vec<File>, place: usize, hash: Hash, found: &mut Groups) -> Result<(), DupError>
    requires inside { place < length files.old.items }
    ensures put { OnOk result (WasPut hash place files.old.items files.new.items found.old found.new) }
{
    match hash {
        Ok(hash) => {
            files[place].hash = hash;
            Ok(())
        }
        Err(why) => found.miss(files.swap_remove(place).path, why),
    }
}

// Reads a candidate for its hash.
fn hash_of<R: Tree>(file: &File, reader: &mut R, buffer: &mut [u8]) -> Hash
    requires room { length buffer.old ≡ 65536 }
    ensures hash { IsHash (R.tree reader.old) R.gives file.now result }
    ensures same { R.tree reader.new ≡ R.tree reader.old }
    ensures cause { RoseBy (hash_faults result) (R.count reader.old) (R.count reader.new) }
{
    read_hash(reader, &file.path, file.size, buffer)
}

// The hash of the bytes of the file of so many bytes at the path, by pieces of the length of the buffer.
fn read_hash<R: Tree>(
    reader: &mut R,
    path: &Path,
    size: u64,
    buffer: &mut [u8],
) -> Result<u64, Missing>
    requires room { length buffer.old ≡ 65536 }
    ensures told { IfOk result (λ hash. IfSome (R.tree reader.old) (λ files. IsFileOf (get files path.now) size
        → hash ≡ content_hash (content (get files path.now)))) }
    ensures changed { IsErrOf result Missing.Changed → IfSome (R.tree reader.old) (λ files. IsFileOf (get files path.now) size → ⊥) }
    ensures empty { size ≡ 0 → IfErr result (λ why. ⊥) }
    ensures same { R.tree reader.new ≡ R.tree reader.old }
    ensures count { RoseBy 0 (R.count reader.old) (R.count reader.new) }
    ensures cause { IsErrOf result Missing.Failed → RoseBy 1 (R.count reader.old) (R.count reader.new) }
    ensures shows { IfErr result (ShowsMissing R.gives path.now) }
    ensures whole { IfOk result (λ hash. 0 < size → ShowsWhole R.gives size path.now) }
{
    let mut hasher = FoldHasher::default();
    let mut at = 0;
    while at < size {
        let room = piece(size - at, buffer.len());
        if let Err(why) = hash_piece(&mut hasher, reader, path, at, room, &mut buffer[..room]) {
            return Err(why);
        }
        at += room as u64;
    }
    Ok(hasher.finish())
}

// Feeds the hasher with so many bytes of the file from a place on.
fn hash_piece<R: Tree>(
    hasher: &mut FoldHasher,
    reader: &mut R,
    path: &Path,
    at: u64,
    room: usize,
    into: &mut [u8],
) -> Result<(), Missing>
    requires some { 0 < room }
    requires into { length into.old ≡ room }
    requires fits { at + room < 2 ^ 64 }
    ensures fed { OnOk result (IfSome (R.tree reader.old) (λ files. hasher.new ≡ write hasher.old (take room (drop at (content (get files path.now)))))) }
    ensures short { IsErrOf result Missing.Changed → IfSome (R.tree reader.old) (λ files. IsShort (get files path.now) (at + room)) }
    ensures same { R.tree reader.new ≡ R.tree reader.old }
    ensures count { RoseBy 0 (R.count reader.old) (R.count reader.new) }
    ensures cause { IsErrOf result Missing.Failed → RoseBy 1 (R.count reader.old) (R.count reader.new) }
    ensures shows { IfErr result (ShowsMissing R.gives path.now) }
    ensures whole { OnOk result (ShowsWhole R.gives (at + room) path.now) }
{
    fill(reader, path, at, into)?;
    hasher.write(into);
    Ok(())
}
