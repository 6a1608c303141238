//! Files in memory whose parts the tests lend, write and take back.
ghost use Rattle.std.specs.Prelude.{◌≡◌, ◌<◌, [], ℕ, List, Option, Some, true, length, IsTrue, IfSome, slice_get};
ghost use Rattle.std.specs.FinMap as map;
ghost use Rattle.std.specs.List.{list_any, list_all, remove};
ghost use Rattle.std.specs.Option.{option_map};
ghost use Rattle.path_text.specs.Order.{is_within};
ghost use Rattle.path_text.specs.Path.{level_of, parent_of};
ghost use Rattle.outside.specs.Tree.{Node, is_dir, stat_of};
ghost use Rattle.outside.specs.Lease.{CanLease, HaveParents, same_tops, without_tops};
ghost use Rattle.outside.specs.Writes.{all_but, under, is_apart, is_open};
ghost use Rattle.base_tests.specs.Differ.{all_differ};

use crate::shared::{all_parsed, parsed};
use crate::whole::{Whole, is_root};
use files_mem::{Call, MemGround, MemPart, MemReader};
use outside::{Ground, Kind, Lent, Plot, Stat, Tops, Tree, WriteError};
use path_text::Path;
use std::alloc::Global;
use std::marker::Model;
use std::process::Abort;

/// A part that is out, seen as its tops.
#[derive(Drop)]
pub struct Loan {
    part: MemPart,
    tops: Tops,
}

impl Model for Loan {
    ghost use Rattle.std.specs.Prelude.{◌≡◌, List, ℕ};
    ghost use Rattle.outside.specs.Writes.{under};

    ghost Value = { List (List ℕ) };

    ghost view = { λ loan. loan.tops };

    ghost invariant = { λ loan. loan.part.area ≡ under loan.tops };
}

impl Loan {
    /// A call of the part that writes; `Write` writes these bytes from the front on. The test stops if the part may not write there.
    pub fn write(
        &mut self,
        rt: &(impl Abort + AllocGlobal),
        call: Call,
        at: &str,
        bytes: &[u8],
    ) -> Result<(), WriteError> {
        let path = parsed(rt, at);
        assert!(rt; is_inside(self.tops.paths(), &path), "{at} is open");
        write(&mut self.part, rt.alloc(), call, &path, bytes)
    }

    /// How often the part has failed.
    pub fn faults(&self) -> u64 {
        self.part.faults()
    }
}

/// Files in memory, and the tops of their parts that are out. Contracts say nothing of their contents.
#[derive(Drop)]
pub struct Lender {
    files: MemGround,
    out: Vec<Tops>,
}

impl Model for Lender {
    ghost use Rattle.std.specs.Prelude.{◌≡◌, ⊤, []};
    ghost use Rattle.outside.specs.Writes.{all_but};

    ghost Value = { ⊤ };

    ghost view = { λ _. tt };

    ghost invariant = { λ lender. lender.files.area ≡ all_but lender.out.items [] };
}

impl Lender {
    /// These files, with no part out.
    pub fn of(alloc: Global, files: Whole<MemGround>) -> Lender {
        Lender {
            files: files.into_files(),
            out: Vec::new(alloc),
        }
    }

    /// Lends the entries at and under these paths. The test stops if they can't be lent.
    pub fn lend(&mut self, rt: &(impl Abort + AllocGlobal), texts: &[&str]) -> Loan {
        let tops = all_parsed(rt, texts);
        assert!(rt; are_distinct(&tops), "the tops differ");
        assert!(rt; are_of_one_level(&tops), "the tops are of one level");
        assert!(rt; are_open(&self.out, &tops), "the tops are open");
        let have = have_parents(rt, &mut self.files, &tops);
        assert!(rt; have, "the tops stand in directories");
        let part = self.files.lease(rt.alloc(), &tops).expect(rt, "room");
        self.out.push(tops_of(rt, &tops)).expect(rt, "room");
        let tops = tops_of(rt, &tops);
        Loan { part, tops }
    }

    /// Takes a part back. The test stops if it is not a part of these files.
    pub fn take_back(&mut self, rt: &impl Abort, loan: Loan) {
        let place = place_of(&self.out, loan.tops.paths()).expect(rt, "a part that is out");
        self.files.give_back(loan.part);
        self.out.remove(place);
    }

    /// A call that writes; `Write` writes these bytes from the front on. The test stops if the files may not be written there.
    pub fn write(
        &mut self,
        rt: &(impl Abort + AllocGlobal),
        call: Call,
        at: &str,
        bytes: &[u8],
    ) -> Result<(), WriteError> {
        let path = parsed(rt, at);
        assert!(rt; is_open(&self.out, &path), "{at} is open");
        write(&mut self.files, rt.alloc(), call, &path, bytes)
    }

    /// A reader of all that is not lent.
    pub fn reader(&mut self, rt: &(impl Abort + AllocGlobal)) -> MemReader {
        self.files.reader(rt.alloc()).expect(rt, "room")
    }

    /// The files again. The test stops if a part is out.
    pub fn whole(self, rt: &impl Abort) -> Whole<MemGround> {
        assert!(rt; self.out.is_empty(), "no part is out");
        Whole::of(self.files)
    }
}

// A call that writes; `Write` writes these bytes from the front on. A call that does not write is refused as `Failed`.
fn write<P: Plot>(
    files: &mut P,
    alloc: Global,
    call: Call,
    path: &Path,
    bytes: &[u8],
) -> Result<(), WriteError>
    requires { IsTrue (is_open (P.area files.old) path.now) }
    ensures { P.area files.new ≡ P.area files.old }
{
    match call {
        Call::MakeDir => files.make_dir(alloc, path),
        Call::MakeFile => files.make_file(alloc, path),
        Call::Write => files.write_at(alloc, path, 0, bytes),
        Call::RemoveFile => files.remove_file(alloc, path),
        Call::RemoveDir => files.remove_dir(alloc, path),
        _ => Err(WriteError::Failed),
    }
}

// These paths as tops, in a list of their own.
fn tops_of(rt: &(impl Abort + AllocGlobal), paths: &[Path]) -> Tops
    ensures { result ≡ paths.now }
{
    let mut lent = Lent::make(rt.alloc());
    lent.lend(rt.alloc(), paths).expect(rt, "room")
}

// Whether the path is neither a top, nor under one, nor over one.
fn is_apart(path: &Path, tops: &[Path]) -> bool
    ensures { result ≡ is_apart path.now tops.now }
{
    tops.iter()
        .all(|top| !(path.is_within(top) || top.is_within(path)))
}

// Whether the path is neither one of these tops, nor under one, nor over one.
fn is_apart_from_all(path: &Path, out: &[Tops]) -> bool
    ensures { result ≡ list_all (is_apart path.now) out.now }
{
    out.iter().all(|tops| is_apart(path, tops.paths()))
}

// Whether a ground may be written at the path while parts with these tops are out.
fn is_open(out: &[Tops], path: &Path) -> bool
    ensures { result ≡ is_open (all_but out.now []) path.now }
{
    is_apart_from_all(path, out) && !is_root(path)
}

// Whether the path is one of the tops, or under one.
fn is_within_any(path: &Path, tops: &[Path]) -> bool
    ensures { result ≡ list_any (is_within path.now) tops.now }
{
    tops.iter().any(|top| path.is_within(top))
}

// Whether a part with these tops may be written at the path.
fn is_inside(tops: &[Path], path: &Path) -> bool
    ensures { result ≡ is_open (under tops.now) path.now }
{
    is_within_any(path, tops) && !is_root(path)
}

// Whether each of the paths is open while parts with these tops are out.
fn are_open(out: &[Tops], paths: &[Path]) -> bool
    ensures { IsTrue result → (i : ℕ) (x : List ℕ) → slice_get paths.now i ≡ Some x → IsTrue (is_open (all_but out.now []) x) }
{
    for path in paths {
        if !is_open(out, path) {
            return false;
        }
    }
    true
}

// Whether no two of the paths are the same.
#[tactic(auto, using(crate::proofs::Distinct::from_differ))]
fn are_distinct(paths: &[Path]) -> bool
    ensures { IsTrue result → (i j : ℕ) (x : List ℕ) → slice_get paths.now i ≡ Some x → slice_get paths.now j ≡ Some x → i ≡ j }
{
    all_differ(paths)
}

// Whether no path comes again after itself.
fn all_differ(paths: &[Path]) -> bool
    ensures { result ≡ all_differ paths.now }
{
    let mut rest = paths;
    while let [path, others @ ..] = rest {
        if others.contains(path) {
            return false;
        }
        rest = others;
    }
    true
}

// Whether each of the paths has so many names.
fn have_level(paths: &[Path], level: u32) -> bool
    ensures { IsTrue result → (i : ℕ) (x : List ℕ) → slice_get paths.now i ≡ Some x → level_of x ≡ level }
{
    for path in paths {
        if path.level() != level {
            return false;
        }
    }
    true
}

// Whether the paths have as many names as each other.
fn are_of_one_level(paths: &[Path]) -> bool
    ensures { IsTrue result → (i j : ℕ) (x y : List ℕ) → slice_get paths.now i ≡ Some x → slice_get paths.now j ≡ Some y → level_of x ≡ level_of y }
{
    match paths {
        [] => true,
        [first, ..] => have_level(paths, first.level()),
    }
}

// Whether the parent of each of the paths is a directory.
fn have_parents(rt: &(impl Abort + AllocGlobal), files: &mut MemGround, paths: &[Path]) -> bool
    ensures told { IsTrue result → HaveParents paths.now files.old.files }
    ensures same { files.new ≡ files.old }
{
    let mut reader = files.reader(rt.alloc()).expect(rt, "room");
    all_have_parents(&mut reader, paths)
}

fn all_have_parents(reader: &mut MemReader, paths: &[Path]) -> bool
    ensures { IsTrue result → HaveParents paths.now reader.old.files }
{
    for path in paths {
        if !has_parent(reader, path) {
            return false;
        }
    }
    true
}

// Whether the parent of the path is a directory, and `stat` answers so.
fn has_parent(reader: &mut MemReader, path: &Path) -> bool
    ensures told { IsTrue result → is_dir (map.get reader.old.files (parent_of path.now)) ≡ true }
    ensures same { reader.new.files ≡ reader.old.files }
{
    match path.parent() {
        Ok(Some(parent)) => is_dir_at(reader, &parent),
        Ok(None) => false,
        Err(_) => false,
    }
}

// Whether the entry at the path is a directory, and `stat` answers so.
fn is_dir_at(reader: &mut MemReader, path: &Path) -> bool
    ensures told { IsTrue result → is_dir (map.get reader.old.files path.now) ≡ true }
    ensures same { reader.new.files ≡ reader.old.files }
{
    match reader.stat(path) {
        Ok(told) => is_dir(told),
        Err(_) => false,
    }
}

fn is_dir(told: Option<Stat>) -> bool
    ensures { (node : Option Node) → told ≡ option_map stat_of node → IsTrue result → is_dir node ≡ true }
{
    match told {
        Some(stat) => stat.kind == Kind::Dir,
        None => false,
    }
}

// The place of the first list that equals these tops.
fn place_of(out: &[Tops], tops: &[Path]) -> Option<usize>
    ensures out { IfSome result (λ _. IsTrue (list_any (λ one. same_tops one tops.now) out.now)) }
    ensures inside { IfSome result (λ place. place < length out.now) }
    ensures first { IfSome result (λ place. without_tops tops.now out.now ≡ remove out.now place) }
{
    match out {
        [] => None,
        [first, ..] if first.paths() == tops => Some(0),
        [_, rest @ ..] => match place_of(rest, tops) {
            Some(place) => Some(place + 1),
            None => None,
        },
    }
}
