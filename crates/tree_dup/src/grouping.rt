//! Files grouped by their content.
ghost use Rattle.std.specs.Prelude.{◌≡◌, false, ℕ, List, [], ◌∷◌, ◌+◌, ◌<◌, ◌≤◌, length, map, take, drop};
ghost use Rattle.std.specs.Prelude.{Option, IfOk, OnOk, IfSome, All, slice_index_or};
ghost use Rattle.std.specs.List.Sorted.{IsSorted, IsStrictlySortedBy};
ghost use Rattle.flat_list.specs.Prelude.{path_cmp, RoseBy, Entry, paths};
ghost use Rattle.shared_reads.specs.Desks.{HasRoom};
ghost use Rattle.shared_reads.specs.Kept.{Holds, held, faults_of};
ghost use Rattle.tree_cmp.specs.Readers.{first_told, Alike, StatsTold, NoneFell, RoseTogether};
ghost use Rattle.tree_dup.specs.Grouping.{IsGrouping, HaveCauses};
ghost use Rattle.tree_dup.specs.declared.runs.File.{File};
ghost use Rattle.tree_dup.specs.Private.Hashing.{IsWhole};
ghost use Rattle.shared_reads.specs.Counts.{KeepsUp, KeepUp};
ghost use Rattle.tree_dup.specs.Private.Running.{IsRun, IsLastRun, IsThere, Shows, AreSettled};
ghost use Rattle.tree_dup.specs.Private.Running.{StandFor, StandFrom, comparison_faults, content_cmp, failures, is_other, still};
ghost use Rattle.tree_dup.specs.Private.Sifting.{AreListed, AreHashed, AreSifted};

use crate::candidates::candidates;
use crate::comparing::compare_run;
use crate::dealing::deal;
use crate::errors::DupError;
use crate::groups::{Group, Groups};
use crate::hashing::{Hashing, hash_all, piece_buffer};
use crate::runs::{Comparison, File, Runs, by_content, same_content};
use crate::sharing::stand;
use flat_list::FlatList;
use outside::Tree;
use shared_reads::{Desk, Kept, read_all};
use std::alloc::Global;
use std::thread::Threads;

/// Groups by their bytes the files of a list that share their size with another one. It reads only these, and no empty file: each
/// once for a fast hash, and if another one has its hash once more at most, beside the others. It takes SHA-256 of the first one of
/// a group alone, while it compares it. `hosts`, 1 to 64, is how many threads read at most, each with a reader of its own. They take
/// files in turn for their hashes, and then files of one hash in turn, so others go on beside a large one. Afterwards `readers` has
/// all readers in their order again, also if memory runs out.
///
/// Beside the list and the answer it takes, for each file that it reads, the text of its path and 100 bytes. It takes twice as much
/// for the files that it compares. For each thread, and for the calling one, it takes two buffers of 64 KiB.
pub fn find_groups<W: Threads + Sync, R: Tree + Send + Drop>(
    rt: &W,
    alloc: Global,
    list: &FlatList,
    readers: &mut Vec<R>,
    hosts: u32,
) -> Result<Groups, DupError>
    requires ascend { IsStrictlySortedBy path_cmp (paths list.now) }
    requires some { 0 < length readers.old.items }
    requires alike { Alike (map R.tree readers.old.items) }
    requires told { IfSome (first_told (map R.tree readers.old.items)) (λ files. StatsTold files list.now) }
    requires hosts { (1 ≤ hosts) × (hosts ≤ 64) }
    ensures groups { IfOk result (IsGrouping (first_told (map R.tree readers.old.items)) list.now) }
    ensures counted { IfOk result (λ found. RoseTogether (length found.failed) (map R.count readers.old.items) (map R.count readers.new.items)) }
    ensures causes { IfOk result (HaveCauses R.gives) }
    ensures none_fell { NoneFell (map R.count readers.old.items) (map R.count readers.new.items) }
    ensures same { map R.tree readers.new.items ≡ map R.tree readers.old.items }
{
    let mut found = Groups::new(alloc);
    let mut files = candidates(alloc, list)?;
    hash_shared(rt, alloc, &mut files, readers, hosts, &mut found)?;
    files.sort_unstable_by(|a, b| by_content(a, b));
    divide_shared(rt, alloc, files, readers, hosts, &mut found)?;
    found.sort();
    Ok(found)
}

// Gives the candidates their hashes. All readers read, and the first one reads the candidates whose hash none of them could keep.
fn hash_shared<W: Threads + Sync, R: Tree + Send + Drop>(
    rt: &W,
    alloc: Global,
    files: &mut Vec<File>,
    readers: &mut Vec<R>,
    hosts: u32,
    found: &mut Groups,
) -> Result<(), DupError>
    requires some { 0 < length readers.old.items }
    requires trees { Alike (map R.tree readers.old.items) }
    requires hosts { 1 ≤ hosts }
    requires alike { map still files.old.items ≡ files.old.items }
    requires no_groups { found.old.groups ≡ [] }
    requires no_failed { found.old.failed ≡ [] }
    requires no_changed { found.old.changed ≡ [] }
    ensures hashed { OnOk result ((list : List Entry) → AreListed (first_told (map R.tree readers.old.items)) list (length list) files.old.items
        → AreHashed (first_told (map R.tree readers.old.items)) list files.new.items found.new) }
    ensures alike { OnOk result (map still files.new.items ≡ files.new.items) }
    ensures whole { OnOk result (All (IsWhole R.gives) files.new.items) }
    ensures counted { OnOk result (RoseTogether (length found.new.failed) (map R.count readers.old.items) (map R.count readers.new.items)) }
    ensures causes { OnOk result (HaveCauses R.gives found.new) }
    ensures none_fell { NoneFell (map R.count readers.old.items) (map R.count readers.new.items) }
    ensures same { map R.tree readers.new.items ≡ map R.tree readers.old.items }
{
    let mut buffer = piece_buffer(alloc)?;
    let kept = read_all(rt, alloc, &Hashing { files }, readers, hosts)?;
    hash_all(files, kept, &mut readers[0], &mut buffer, found)
}

// Divides all files, run by run. All readers compare, and the first one compares the runs whose standings none of them could keep.
fn divide_shared<W: Threads + Sync, R: Tree + Send + Drop>(
    rt: &W,
    alloc: Global,
    files: Vec<File>,
    readers: &mut Vec<R>,
    hosts: u32,
    found: &mut Groups,
) -> Result<(), DupError>
    requires some { 0 < length readers.old.items }
    requires trees { Alike (map R.tree readers.old.items) }
    requires hosts { 1 ≤ hosts }
    requires sorted { IsSorted content_cmp files.items }
    requires alike { map still files.items ≡ files.items }
    requires whole { All (IsWhole R.gives) files.items }
    ensures sifted { OnOk result ((list : List Entry) → AreSifted (first_told (map R.tree readers.old.items)) list (files.items ∷ []) found.old
        → AreSifted (first_told (map R.tree readers.old.items)) list [] found.new) }
    ensures counted { OnOk result (KeepUp (length found.old.failed) (length found.new.failed) (map R.count readers.old.items) (map R.count readers.new.items)) }
    ensures causes { OnOk result (HaveCauses R.gives found.old → HaveCauses R.gives found.new) }
    ensures none_fell { NoneFell (map R.count readers.old.items) (map R.count readers.new.items) }
    ensures same { map R.tree readers.new.items ≡ map R.tree readers.old.items }
{
    let mut desk = Desk::make(alloc)?;
    let runs = Runs {
        alloc,
        files: &files,
    };
    let kept = read_all(rt, alloc, &runs, readers, hosts)?;
    divide_all(alloc, files, kept, &mut readers[0], &mut desk, found)
}

// Divides all files, run by run, by the standings that workers kept, or else by the reader.
fn divide_all<R: Tree>(
    alloc: Global,
    mut files: Vec<File>,
    mut kept: Kept<Comparison>,
    reader: &mut R,
    desk: &mut Desk,
    found: &mut Groups,
) -> Result<(), DupError>
    requires room { HasRoom desk.old }
    requires sorted { IsSorted content_cmp files.items }
    requires alike { map still files.items ≡ files.items }
    requires whole { All (IsWhole R.gives) files.items }
    requires told { Holds (StandFrom (R.tree reader.old) R.gives files.items) kept }
    ensures sifted { OnOk result ((list : List Entry) → AreSifted (R.tree reader.old) list (files.items ∷ []) found.old
        → AreSifted (R.tree reader.old) list [] found.new) }
    ensures counted { OnOk result (KeepsUp (length found.old.failed + held comparison_faults kept) (length found.new.failed) (R.count reader.old)
        (R.count reader.new)) }
    ensures causes { OnOk result (HaveCauses R.gives found.old → HaveCauses R.gives found.new) }
    ensures same { R.tree reader.new ≡ R.tree reader.old }
    ensures count { RoseBy 0 (R.count reader.old) (R.count reader.new) }
{
    while !files.is_empty() {
        let start = last_run(&files);
        let run = files.split_off(start)?;
        divide(alloc, run, kept.take(start), reader, desk, found)?;
    }
    Ok(())
}

// Where the last files of one size and one hash begin.
fn last_run(files: &[File]) -> usize
    requires some { 0 < length files.now }
    requires sorted { IsSorted content_cmp files.now }
    ensures { IsLastRun files.now result }
{
    let last = files.len() - 1;
    let mut start = last;
    while start > 0 {
        if !same_content(&files[start - 1], &files[last]) {
            return start;
        }
        start -= 1;
    }
    start
}

// Divides files of one size and one hash by their bytes, first by the standings that a worker found, if one did.
fn divide<R: Tree>(
    alloc: Global,
    mut run: Vec<File>,
    mut compared: Option<Comparison>,
    reader: &mut R,
    desk: &mut Desk,
    found: &mut Groups,
) -> Result<(), DupError>
    requires room { HasRoom desk.old }
    requires run { IsRun run.items }
    requires alike { map still run.items ≡ run.items }
    requires whole { All (IsWhole R.gives) run.items }
    requires told { IfSome compared (StandFor (R.tree reader.old) R.gives run.items) }
    ensures sifted { OnOk result ((list : List Entry) (others : List (List File)) → AreSifted (R.tree reader.old) list (run.items ∷ others) found.old
        → AreSifted (R.tree reader.old) list others found.new) }
    ensures counted { OnOk result (KeepsUp (length found.old.failed + faults_of comparison_faults compared) (length found.new.failed) (R.count reader.old)
        (R.count reader.new)) }
    ensures causes { OnOk result (HaveCauses R.gives found.old → HaveCauses R.gives found.new) }
    ensures same { R.tree reader.new ≡ R.tree reader.old }
    ensures count { RoseBy 0 (R.count reader.old) (R.count reader.new) }
    ensures room { HasRoom desk.new }
{
    while run.len() > 1 {
        run = first_class(alloc, run, compared.take(), reader, desk, found)?;
    }
    Ok(())
}

// Makes a group of the files that have the bytes of the lead, if they are two or more, and answers the files that have others.
fn first_class<R: Tree>(
    alloc: Global,
    mut run: Vec<File>,
    compared: Option<Comparison>,
    reader: &mut R,
    desk: &mut Desk,
    found: &mut Groups,
) -> Result<Vec<File>, DupError>
    requires some { 0 < length run.items }
    requires room { HasRoom desk.old }
    requires run { IsRun run.items }
    requires alike { map still run.items ≡ run.items }
    requires whole { All (IsWhole R.gives) run.items }
    requires told { IfSome compared (StandFor (R.tree reader.old) R.gives run.items) }
    ensures sifted { IfOk result (λ left. (list : List Entry) (others : List (List File))
        → AreSifted (R.tree reader.old) list (run.items ∷ others) found.old → AreSifted (R.tree reader.old) list (left.items ∷ others) found.new) }
    ensures run { IfOk result (λ left. IsRun left.items) }
    ensures alike { IfOk result (λ left. map still left.items ≡ left.items) }
    ensures whole { IfOk result (λ left. All (IsWhole R.gives) left.items) }
    ensures fewer { IfOk result (λ left. length left.items < length run.items) }
    ensures counted { OnOk result (KeepsUp (length found.old.failed + faults_of comparison_faults compared) (length found.new.failed) (R.count reader.old)
        (R.count reader.new)) }
    ensures causes { OnOk result (HaveCauses R.gives found.old → HaveCauses R.gives found.new) }
    ensures same { R.tree reader.new ≡ R.tree reader.old }
    ensures count { RoseBy 0 (R.count reader.old) (R.count reader.new) }
    ensures room { HasRoom desk.new }
{
    let first = &run[0];
    let size = first.size;
    let digest = compare_first(reader, &mut run, size, compared, desk);
    let (mut paths, left) = deal(alloc, run, found)?;
    if paths.len() < 2 {
        return Ok(left);
    }
    paths.sort_unstable();
    found.add(Group {
        size,
        digest,
        paths,
    })?;
    Ok(left)
}

// Compares the files of a run with each other, unless a worker did. The answer is the SHA-256 of the lead.
fn compare_first<R: Tree>(
    reader: &mut R,
    run: &mut Vec<File>,
    size: u64,
    compared: Option<Comparison>,
    desk: &mut Desk,
) -> [u8; 32]
    requires room { HasRoom desk.old }
    requires some { 0 < length run.old.items }
    requires alike { map still run.old.items ≡ run.old.items }
    requires sizes { All (λ f. f.size ≡ size) run.old.items }
    requires told { IfSome compared (StandFor (R.tree reader.old) R.gives run.old.items) }
    ensures same { R.tree reader.new ≡ R.tree reader.old }
    ensures files { map still run.new.items ≡ map still run.old.items }
    ensures counted { KeepsUp (faults_of comparison_faults compared) (failures run.new.items) (R.count reader.old) (R.count reader.new) }
    ensures shows { All (Shows R.gives) run.new.items }
    ensures settled { IfSome (R.tree reader.old) (λ tree. All (IsThere tree) run.old.items → AreSettled tree result run.new.items) }
    ensures empty { size ≡ 0 → run.new.items ≡ run.old.items }
    ensures front { (d : File) → is_other (slice_index_or run.new.items 0 d) ≡ false }
    ensures room { HasRoom desk.new }
{
    if let Some(comparison) = compared {
        if comparison.standings.len() == run.len() {
            stand(run, &comparison.standings);
            return comparison.digest;
        }
    }
    compare_run(reader, run, size, desk)
}
