//! Files that are out in spans, and the places that wait for them.
ghost use Rattle.std.specs.Prelude.{◌≡◌, ◌+◌, ◌≤◌, ◌<◌, ◌++◌, ◌∷◌, [], Some, true, length, map, IfOk, OnOk, OnErr, IsTrue, is_some};
ghost use Rattle.std.specs.Prelude.{nat_eq};
ghost use Rattle.std.specs.Cmp.Lexicographic.{pointwise};
ghost use Rattle.std.specs.List.{sum_by, position};
ghost use Rattle.std.specs.FinMap.{get};
ghost use Rattle.std.specs.Vec.{vec_len, vec_capacity};
ghost use Rattle.outside.specs.Lease.{kept, leased};
ghost use Rattle.outside.specs.Parts.{IsPart};
ghost use Rattle.std.specs.Arc.{arc_value};
ghost use Rattle.outside.specs.Spans.{pieces, cuts_at, without_cut};
ghost use Rattle.outside.specs.Tree.{is_file, content};
ghost use Rattle.files_mem.specs.Spanned.{piece_of, bytes_of_all, whole_size, IsCutOut};

use crate::spans::MemSpan;
use crate::stores::{Store, divide};
use outside::{Lent, Tops};
use path_text::{OutOfMemory, Path};
use std::alloc::Global;
use std::marker::Model;
use std::sync::Arc;

/// A file that is out in spans: seen as its path and where it was cut. The empty file itself waits here, with room for all its
/// bytes, so that the return takes no memory.
#[derive(Drop)]
pub struct Cutting {
    path: Path,
    cuts: Vec<u64>,
    tops: Tops,
    store: Store,
    room: Vec<u8>,
}

impl Model for Cutting {
    ghost use Rattle.std.specs.Prelude.{◌≡◌, ◌≤◌, []};
    ghost use Rattle.std.specs.Vec.{vec_capacity};
    ghost use Rattle.outside.specs.Writes.{Cut};
    ghost use Rattle.outside.specs.Codes.{cut_code};
    ghost use Rattle.files_mem.specs.Spanned.{IsCutOut, whole_size};

    ghost Value = { Cut };

    ghost coded = { cut_code };

    ghost view = { λ c. record { path = c.path; cuts = c.cuts.items } };

    ghost invariant = { λ c. IsCutOut c.path c.tops c.store × (c.room.items ≡ []) × (whole_size c.path c.cuts.items ≤ vec_capacity c.room) };
}

impl Cutting {
    /// The file, cut at these places.
    pub fn make(path: Path, cuts: Vec<u64>, tops: Tops, store: Store, room: Vec<u8>) -> Cutting
        requires out { IsCutOut path tops store }
        requires empty { room.items ≡ [] }
        requires room { whole_size path cuts.items ≤ vec_capacity room }
        ensures { result ≡ record { path = path; cuts = cuts.items } }
    {
        Cutting {
            path,
            cuts,
            tops,
            store,
            room,
        }
    }

    /// The file with the bytes of its spans, and its tops. It takes no memory.
    pub fn join(self, spans: Vec<MemSpan>) -> (Store, Tops)
        requires { pieces self.path self.cuts ≡ map piece_of spans.items }
        ensures tops { result.1 ≡ self.path ∷ [] }
        ensures part { IsPart (self.path ∷ []) result.0 }
        ensures file { is_file (get result.0 self.path) ≡ true }
        ensures bytes { content (get result.0 self.path) ≡ bytes_of_all spans.items }
    {
        let Cutting {
            path,
            tops,
            mut store,
            mut room,
            ..
        } = self;
        fill(&mut room, &spans);
        store.set_bytes(&path, room);
        (store, tops)
    }

    fn path(&self) -> &Path
        ensures { result.now ≡ self.now.path }
    {
        &self.path
    }
}

// Puts the bytes of the spans one after the other into room that is there.
fn fill(room: &mut Vec<u8>, spans: &[MemSpan])
    requires empty { room.old.items ≡ [] }
    requires room { sum_by (λ span. length span.bytes) spans.now ≤ vec_capacity room.old }
    ensures { room.new.items ≡ bytes_of_all spans.now }
{
    for span in spans {
        put_behind(room, span.bytes());
    }
}

// Puts bytes after others, in room that is there.
fn put_behind(room: &mut Vec<u8>, bytes: &[u8])
    requires { length room.old.items + length bytes.now ≤ vec_capacity room.old }
    ensures items { room.new.items ≡ room.old.items ++ bytes.now }
    ensures capacity { vec_capacity room.old ≤ vec_capacity room.new }
{
    room.extend_from_slice(bytes).unwrap();
}

/// Takes the file at the path out of the nodes, for spans that have room here, and puts it behind the files that are out. A refusal
/// changes nothing.
pub fn lend(
    out: &mut Vec<Cutting>,
    alloc: Global,
    store: &mut Arc<Store>,
    path: &Path,
    cuts: &[u64],
    room: Vec<u8>,
) -> Result<(), OutOfMemory>
    requires part { IsPart (path.now ∷ []) (leased (path.now ∷ []) (arc_value store.old)) }
    requires file { is_file (get (leased (path.now ∷ []) (arc_value store.old)) path.now) ≡ true }
    requires none { content (get (leased (path.now ∷ []) (arc_value store.old)) path.now) ≡ [] }
    requires empty { room.items ≡ [] }
    requires room { whole_size path.now cuts.now ≤ vec_capacity room }
    ensures ok { OnOk result (out.new.items ≡ out.old.items ++ record { path = path.now; cuts = cuts.now } ∷ []) }
    ensures rest { OnOk result (arc_value store.new ≡ kept (path.now ∷ []) (arc_value store.old)) }
    ensures err { OnErr result (out.new.items ≡ out.old.items) }
    ensures same { OnErr result (arc_value store.new ≡ arc_value store.old) }
{
    let own = path.copy()?;
    let tops = [path.copy()?];
    let cuts = Vec::from_slice(alloc, cuts)?;
    out.reserve(1)?;
    let mut lent = Lent::make(alloc); // it is not a part, so no other call counts its top
    let (store, tops) = divide(alloc, store, &mut lent, &tops)?;
    let cutting = Cutting::make(own, cuts, tops, store, room);
    put_last(out, cutting);
    Ok(())
}

// The place of the first cutting of the file at the path.
fn place_of(out: &[Cutting], path: &Path) -> Option<usize>
    ensures { result ≡ position (λ one. pointwise nat_eq one.path path.now) out.now }
{
    out.iter().position(|one| one.path() == path)
}

/// Takes the first cutting of the file at the path away.
pub fn take(out: &mut Vec<Cutting>, path: &Path) -> Cutting
    requires { is_some (cuts_at path.now out.old.items) ≡ true }
    ensures path { result.path ≡ path.now }
    ensures cuts { cuts_at path.now out.old.items ≡ Some result.cuts }
    ensures rest { out.new.items ≡ without_cut path.now out.old.items }
{
    let place = place_of(out, path).unwrap();
    out.remove(place)
}

// Puts a cutting into a place that was made for it.
fn put_last(out: &mut Vec<Cutting>, cutting: Cutting)
    requires { vec_len out.old < vec_capacity out.old }
    ensures { out.new.items ≡ out.old.items ++ cutting ∷ [] }
{
    let _ = out.push(cutting);
}
