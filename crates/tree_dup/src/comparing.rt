//! The files of a run compared with each other, piece by piece, all at the same pace.
ghost use Rattle.std.specs.Prelude.{◌≡◌, ℕ, List, ◌+◌, ◌++◌, ◌^◌, ◌<◌, ◌≤◌, true, false, length, map, take};
ghost use Rattle.std.specs.Prelude.{if◌then◌else◌, All, IfOk, IfSome, slice_index_or};
ghost use Rattle.std.specs.FinMap.{get};
ghost use Rattle.outside.specs.Tree.{content};
ghost use Rattle.tree_cmp.specs.Filling.{IsFileOf};
ghost use Rattle.tree_dup.specs.declared.runs.File.{File};
ghost use Rattle.shared_reads.specs.Desks.{HasRoom};
ghost use Rattle.shared_reads.specs.Counts.{KeepsUp};
ghost use Rattle.tree_dup.specs.Private.Running.{Moved, Went, IsThere, Sought, Stands, StandsAt, StandingShows};
ghost use Rattle.tree_dup.specs.Private.Running.{AreDivided, AreSettled, failures_of, is_alike, is_other, still};

use crate::runs::{File, Standing, is_alike};
use outside::Tree;
use path_text::Path;
use sha2::{Digest, Sha256};
use shared_reads::{Desk, piece};
use tree_cmp::fill;

// Compares the files of a run with each other, and answers the SHA-256 of the lead.
pub(crate) fn compare_run<R: Tree>(
    reader: &mut R,
    run: &mut Vec<File>,
    size: u64,
    desk: &mut Desk,
) -> [u8; 32]
    requires room { HasRoom desk.old }
    requires alike { map still run.old.items ≡ run.old.items }
    requires sizes { All (λ f. f.size ≡ size) run.old.items }
    ensures went { Went R.tree R.count R.gives reader.old reader.new run.old.items run.new.items }
    ensures settled { IfSome (R.tree reader.old) (λ tree. All (IsThere tree) run.old.items → AreSettled tree result run.new.items) }
    ensures empty { size ≡ 0 → run.new.items ≡ run.old.items }
    ensures front { (d : File) → 0 < length run.old.items → is_other (slice_index_or run.old.items 0 d) ≡ false
        → is_other (slice_index_or run.new.items 0 d) ≡ false }
    ensures room { HasRoom desk.new }
{
    compare_all(reader, run, size, &mut desk.ours, &mut desk.theirs)
}

// Compares files of one size with each other. The first that can be read leads: its piece stays in the first buffer, and each other
// file's piece comes into the second. The answer is the SHA-256 of the lead, so no file is read for it alone.
fn compare_all<R: Tree>(
    reader: &mut R,
    files: &mut [File],
    size: u64,
    ours: &mut [u8],
    theirs: &mut [u8],
) -> [u8; 32]
    requires some { 0 < length ours.old }
    requires as_long { length theirs.old ≡ length ours.old }
    requires alike { map still files.old ≡ files.old }
    requires sizes { All (λ f. f.size ≡ size) files.old }
    ensures went { Went R.tree R.count R.gives reader.old reader.new files.old files.new }
    ensures settled { IfSome (R.tree reader.old) (λ tree. All (IsThere tree) files.old → AreSettled tree result files.new) }
    ensures empty { size ≡ 0 → files.new ≡ files.old }
    ensures front { (d : File) → 0 < length files.old → is_other (slice_index_or files.old 0 d) ≡ false
        → is_other (slice_index_or files.new 0 d) ≡ false }
{
    let mut hasher = Sha256::new();
    let mut at = 0;
    while at < size {
        let room = piece(size - at, ours.len());
        compare_piece(
            reader,
            files,
            at,
            room,
            &mut hasher,
            &mut ours[..room],
            &mut theirs[..room],
        );
        at += room as u64;
    }
    hasher.finalize()
}

// Compares the next piece of all files that are alike still. The hasher takes the lead's.
fn compare_piece<R: Tree>(
    reader: &mut R,
    files: &mut [File],
    at: u64,
    room: usize,
    hasher: &mut Sha256,
    ours: &mut [u8],
    theirs: &mut [u8],
)
    requires some { 0 < room }
    requires ours { length ours.old ≡ room }
    requires theirs { length theirs.old ≡ room }
    requires fits { at + room < 2 ^ 64 }
    requires inside { All (λ f. at + room ≤ f.size) files.old }
    ensures went { Went R.tree R.count R.gives reader.old reader.new files.old files.new }
    ensures told { IfSome (R.tree reader.old) (λ tree. All (IsThere tree) files.old → AreDivided tree at hasher.old files.old
        → AreDivided tree (at + room) hasher.new files.new) }
    ensures front { (d : File) → 0 < length files.old → is_other (slice_index_or files.old 0 d) ≡ false
        → is_other (slice_index_or files.new 0 d) ≡ false }
{
    let lead = next_lead(reader, files, at, room, ours);
    for k in 0..files.len() {
        if k == lead {
            continue;
        }
        follow(reader, &mut files[k], at, room, ours, theirs);
    }
    hasher.update(&*ours);
}

// The place of the first file that is alike still and whose next piece can be read, or the number of files if there is none.
fn next_lead<R: Tree>(
    reader: &mut R,
    files: &mut [File],
    at: u64,
    room: usize,
    into: &mut [u8],
) -> usize
    requires some { 0 < room }
    requires into { length into.old ≡ room }
    requires fits { at + room < 2 ^ 64 }
    requires inside { All (λ f. at + room ≤ f.size) files.old }
    ensures sought { Sought R.tree R.count R.gives at reader.old reader.new files.old files.new }
    ensures filled { result < length files.new → (d : File) → IfSome (R.tree reader.old) (λ tree. All (IsThere tree) files.old → (bytes : List ℕ)
        → All (StandsAt tree at bytes) files.old → StandsAt tree (at + room) (bytes ++ into.new) (slice_index_or files.new result d)) }
    ensures leads { result < length files.new → (d : File) → is_alike (slice_index_or files.new result d) ≡ true }
    ensures before { (d : File) → 0 < result → 0 < length files.new → is_alike (slice_index_or files.new 0 d) ≡ false }
{
    for k in 0..files.len() {
        if lead(reader, &mut files[k], at, room, into) {
            return k;
        }
    }
    files.len()
}

// Reads the next piece of a file that is alike still, and answers whether it did.
fn lead<R: Tree>(reader: &mut R, file: &mut File, at: u64, room: usize, into: &mut [u8]) -> bool
    requires some { 0 < room }
    requires into { length into.old ≡ room }
    requires fits { at + room < 2 ^ 64 }
    requires inside { at + room ≤ file.old.size }
    ensures moved { Moved R.tree R.count R.gives reader.old reader.new file.old file.new }
    ensures told { IfSome (R.tree reader.old) (λ tree. IsThere tree file.old → (bytes : List ℕ) → StandsAt tree at bytes file.old
        → StandsAt tree at bytes file.new) }
    ensures filled { result ≡ true → IfSome (R.tree reader.old) (λ tree. (bytes : List ℕ) → StandsAt tree at bytes file.old
        → StandsAt tree (at + room) (bytes ++ into.new) file.new) }
    ensures leads { is_alike file.new ≡ result }
    ensures others { is_other file.old ≡ false → is_other file.new ≡ false }
{
    if !is_alike(file) {
        return false;
    }
    match fill(reader, &file.path, at, into) {
        Ok(()) => true,
        Err(why) => {
            file.standing = Standing::Missed(why);
            false
        }
    }
}

// Compares the next piece of a file that is alike still with that of the lead.
fn follow<R: Tree>(
    reader: &mut R,
    file: &mut File,
    at: u64,
    room: usize,
    ours: &[u8],
    theirs: &mut [u8],
)
    requires some { 0 < room }
    requires ours { length ours.now ≡ room }
    requires theirs { length theirs.old ≡ room }
    requires fits { at + room < 2 ^ 64 }
    requires inside { at + room ≤ file.old.size }
    ensures moved { Moved R.tree R.count R.gives reader.old reader.new file.old file.new }
    ensures told { IfSome (R.tree reader.old) (λ tree. IsThere tree file.old → (bytes : List ℕ) → length bytes ≡ at → StandsAt tree at bytes file.old
        → StandsAt tree (at + room) (bytes ++ ours.now) file.new) }
{
    if !is_alike(file) {
        return;
    }
    file.standing = standing(reader, &file.path, at, room, ours, theirs);
}

// How the next piece of a file stands to that of the lead.
fn standing<R: Tree>(
    reader: &mut R,
    path: &Path,
    at: u64,
    room: usize,
    ours: &[u8],
    theirs: &mut [u8],
) -> Standing
    requires some { 0 < room }
    requires ours { length ours.now ≡ room }
    requires theirs { length theirs.old ≡ room }
    requires fits { at + room < 2 ^ 64 }
    ensures told { IfSome (R.tree reader.old) (λ tree. (size : ℕ) → IsFileOf (get tree path.now) size → at + room ≤ size
        → Stands result (take (at + room) (content (get tree path.now))) (take at (content (get tree path.now)) ++ ours.now)) }
    ensures same { R.tree reader.new ≡ R.tree reader.old }
    ensures counted { KeepsUp 0 (failures_of result) (R.count reader.old) (R.count reader.new) }
    ensures shows { StandingShows R.gives path.now result }
{
    if let Err(why) = fill(reader, path, at, theirs) {
        return Standing::Missed(why);
    }
    by_bytes(*ours == *theirs)
}

fn by_bytes(same: bool) -> Standing
    ensures { result ≡ (if same then Standing.Alike else Standing.Other) }
{
    if same {
        Standing::Alike
    } else {
        Standing::Other
    }
}
