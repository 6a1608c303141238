//! The state of a ground while parts of it are out.
ghost use Rattle.std.specs.Prelude.{◌≡◌, ◌<◌, ◌≤◌, ◌+◌, ◌++◌, ◌∷◌, [], ℕ, List, Some, None, true, false};
ghost use Rattle.std.specs.Prelude.{length, map as list_map, OnOk, OnErr, IfOk, slice_get, IsTrue};
ghost use Rattle.std.specs.Vec.{vec_len, vec_capacity};
ghost use Rattle.std.specs.Arc.{arc_value};
ghost use Rattle.std.specs.List.{list_any};
ghost use Rattle.std.specs.FinMap as map;
ghost use Rattle.std.specs.Option.{option_map};
ghost use Rattle.outside.specs.Parts.{IsPart};
ghost use Rattle.outside.specs.Spans.{pieces, cuts_at, without_cut, IsRejoined};
ghost use Rattle.outside.specs.Tree.{is_file, content};
ghost use Rattle.outside.specs.Writes.{write_refusal, remove_file_refusal, remove_dir_refusal, written};
ghost use Rattle.outside.specs.Lease.{leased, kept, without_tops, same_tops};
ghost use Rattle.outside.specs.Laid.{laid};
ghost use Rattle.path_text.specs.Path.{refusal};
ghost use Rattle.files_mem.specs.Stored.{node_of};
ghost use Rattle.files_mem.specs.Memory.{put_refusal_at};
ghost use Rattle.files_mem.specs.PrivateHeld.{laid_all, IsGround};
ghost use Rattle.files_mem.specs.Spanned.{piece_of, bytes_of_all, whole_size};

use crate::cuttings;
use crate::cuttings::Cutting;
use crate::errors::PutError;
use crate::nodes::Node;
use crate::spans::MemSpan;
use crate::stores::{Store, divide};
use outside::{Lent, Tops, WriteError};
use path_text::{OutOfMemory, Path};
use std::alloc::{AllocError, Global};
use std::marker::Model;
use std::sync::Arc;

/// A part that came back.
#[derive(Drop)]
pub struct Returned {
    tops: Tops,
    store: Store,
}

impl Model for Returned {
    ghost use Rattle.files_mem.specs.PrivateHeld.{Back, back_code};

    ghost Value = { Back };

    ghost coded = { back_code };

    ghost view = { λ r. record { tops = r.tops; files = r.store } };
}

/// The nodes that a ground keeps, the tops of the parts that are out, and the files that are out in spans. A part or file that
/// comes back waits, without memory, in a place that its lease made. The next call that may run out of memory joins it.
#[derive(Drop)]
pub struct Held {
    store: Arc<Store>,
    lent: Lent,
    // The files that are out in spans, in the order in which they were lent.
    cut: Vec<Cutting>,
    back: Vec<Returned>,
}

impl Model for Held {
    ghost use Rattle.std.specs.Prelude.{◌+◌, ◌≤◌, length};
    ghost use Rattle.std.specs.Arc.{arc_value};
    ghost use Rattle.std.specs.Vec.{vec_len, vec_capacity};
    ghost use Rattle.files_mem.specs.PrivateHeld.{Lending, lending_code, laid_all};

    ghost Value = { Lending };

    ghost coded = { lending_code };

    ghost view = { λ h. record { files = laid_all h.back.items (arc_value h.store); out = h.lent; cut = h.cut.items } };

    ghost invariant = { λ h. length h.lent + vec_len h.cut + vec_len h.back ≤ vec_capacity h.back };
}

impl Held {
    /// These nodes, with nothing out.
    pub fn make(alloc: Global, store: Store) -> Result<Held, AllocError>
        ensures { IfOk result (λ made. made ≡ record { files = store; out = []; cut = [] }) }
    {
        Ok(Held {
            store: Arc::new(alloc, store)?,
            lent: Lent::make(alloc),
            cut: Vec::new(alloc),
            back: Vec::new(alloc),
        })
    }

    /// The nodes, with all that came back, for a reader to share.
    pub fn store(&mut self, alloc: Global) -> Result<Arc<Store>, OutOfMemory>
        ensures told { IfOk result (λ store. arc_value store ≡ self.old.files) }
        ensures same { self.new ≡ self.old }
    {
        settle(alloc, &mut self.store, &mut self.back)?;
        Ok(Arc::try_clone(&self.store)?)
    }

    /// Why no node can be put at the path.
    pub fn put_refusal(
        &mut self,
        alloc: Global,
        path: &Path,
    ) -> Result<Option<PutError>, OutOfMemory>
        ensures told { IfOk result (λ refusal. refusal ≡ put_refusal_at false self.old.files path.now) }
        ensures same { self.new ≡ self.old }
    {
        settle(alloc, &mut self.store, &mut self.back)?;
        self.store.put_refusal(alloc, path, false)
    }

    /// Why bytes can't be written to the node at the path.
    pub fn write_refusal(
        &mut self,
        alloc: Global,
        path: &Path,
    ) -> Result<Option<WriteError>, OutOfMemory>
        ensures told { IfOk result (λ refusal. refusal ≡ write_refusal (map.get self.old.files path.now)) }
        ensures same { self.new ≡ self.old }
    {
        settle(alloc, &mut self.store, &mut self.back)?;
        Ok(self.store.write_refusal(path))
    }

    /// Why the node at the path can't be removed by `remove_file`.
    pub fn remove_file_refusal(
        &mut self,
        alloc: Global,
        path: &Path,
    ) -> Result<Option<WriteError>, OutOfMemory>
        ensures told { IfOk result (λ refusal. refusal ≡ remove_file_refusal (map.get self.old.files path.now)) }
        ensures same { self.new ≡ self.old }
    {
        settle(alloc, &mut self.store, &mut self.back)?;
        Ok(self.store.remove_file_refusal(path))
    }

    /// Why the node at the path can't be removed as an empty directory.
    pub fn remove_dir_refusal(
        &mut self,
        alloc: Global,
        path: &Path,
    ) -> Result<Option<WriteError>, OutOfMemory>
        ensures told { IfOk result (λ refusal. refusal ≡ remove_dir_refusal self.old.files path.now) }
        ensures same { self.new ≡ self.old }
    {
        settle(alloc, &mut self.store, &mut self.back)?;
        self.store.remove_dir_refusal(alloc, path)
    }

    /// Puts a node at the path, in place of any that is there.
    pub fn put(&mut self, alloc: Global, path: Path, node: Node) -> Result<(), OutOfMemory>
        ensures ok { OnOk result (self.new ≡ record self.old { files = map.insert self.old.files path (node_of node) }) }
        ensures err { OnErr result (self.new ≡ self.old) }
    {
        settle(alloc, &mut self.store, &mut self.back)?;
        put_in(&mut self.store, path, node)?;
        Ok(())
    }

    /// Writes bytes over those of the file at the path from a place on, also past its end.
    pub fn write(
        &mut self,
        alloc: Global,
        path: &Path,
        at: usize,
        bytes: &[u8],
    ) -> Result<(), OutOfMemory>
        requires file { is_file (map.get self.old.files path.now) ≡ true }
        requires place { at ≤ length (content (map.get self.old.files path.now)) }
        ensures ok { OnOk result (self.new ≡ record self.old { files = written self.old.files path.now at bytes.now }) }
        ensures err { OnErr result (self.new ≡ self.old) }
    {
        settle(alloc, &mut self.store, &mut self.back)?;
        write_in(&mut self.store, path, at, bytes)?;
        Ok(())
    }

    /// Removes the node at the path.
    pub fn take(&mut self, alloc: Global, path: &Path) -> Result<(), OutOfMemory>
        ensures ok { OnOk result (self.new ≡ record self.old { files = map.remove self.old.files path.now }) }
        ensures err { OnErr result (self.new ≡ self.old) }
    {
        settle(alloc, &mut self.store, &mut self.back)?;
        take_from(&mut self.store, path)?;
        Ok(())
    }

    /// Takes the nodes at and under the tops away, for a part, and makes a place for their return.
    pub fn lease(&mut self, alloc: Global, tops: &[Path]) -> Result<(Store, Tops), OutOfMemory>
        ensures part { IfOk result (λ part. part.0 ≡ leased tops.now self.old.files) }
        ensures tops { IfOk result (λ part. part.1 ≡ tops.now) }
        ensures valid { OnOk result ((i : ℕ) (x : List ℕ) → slice_get tops.now i ≡ Some x → refusal x ≡ None) }
        ensures rest { OnOk result (self.new ≡ record self.old { files = kept tops.now self.old.files; out = self.old.out ++ tops.now ∷ [] }) }
        ensures same { OnErr result (self.new ≡ self.old) }
    {
        settle(alloc, &mut self.store, &mut self.back)?;
        self.back.reserve(self.lent.len() + self.cut.len() + 1)?;
        divide(alloc, &mut self.store, &mut self.lent, tops)
    }

    /// Takes a part back, without memory.
    pub fn give_back(&mut self, store: Store, tops: Tops)
        requires { IsTrue (list_any (λ one. same_tops one tops) self.old.out) }
        ensures { self.new ≡ record self.old { files = laid tops store self.old.files; out = without_tops tops self.old.out } }
    {
        self.lent.end(&tops);
        put_back(&mut self.back, Returned { tops, store });
    }

    /// Takes an empty file away, for spans that have room here, and makes a place for its return.
    pub fn cut_out(
        &mut self,
        alloc: Global,
        path: &Path,
        cuts: &[u64],
        room: Vec<u8>,
    ) -> Result<(), OutOfMemory>
        requires part { IsPart (path.now ∷ []) (leased (path.now ∷ []) self.old.files) }
        requires file { is_file (map.get (leased (path.now ∷ []) self.old.files) path.now) ≡ true }
        requires none { content (map.get (leased (path.now ∷ []) self.old.files) path.now) ≡ [] }
        requires empty { room.items ≡ [] }
        requires room { whole_size path.now cuts.now ≤ vec_capacity room }
        ensures ok { OnOk result (self.new ≡ record self.old { files = kept (path.now ∷ []) self.old.files; cut = self.old.cut ++ record { path = path.now; cuts = cuts.now } ∷ [] }) }
        ensures err { OnErr result (self.new ≡ self.old) }
    {
        settle(alloc, &mut self.store, &mut self.back)?;
        self.back.reserve(self.lent.len() + self.cut.len() + 1)?;
        cuttings::lend(&mut self.cut, alloc, &mut self.store, path, cuts, room)
    }

    /// Takes a file back with the bytes of its spans, without memory.
    pub fn rejoin(&mut self, path: &Path, spans: Vec<MemSpan>)
        requires pieces { option_map (pieces path.now) (cuts_at path.now self.old.cut) ≡ Some (list_map piece_of spans.items) }
        requires ground { IsGround self.old }
        ensures tree { IsRejoined path.now (bytes_of_all spans.items) self.old.files self.new.files }
        ensures out { self.new.out ≡ self.old.out }
        ensures cut { self.new.cut ≡ without_cut path.now self.old.cut }
        ensures ground { IsGround self.new }
    {
        let cutting = cuttings::take(&mut self.cut, path);
        let (store, tops) = cutting.join(spans);
        put_back(&mut self.back, Returned { tops, store });
    }
}

// Joins the parts that came back with the nodes kept. The answers stay the same, also after a refusal.
fn settle(
    alloc: Global,
    store: &mut Arc<Store>,
    back: &mut Vec<Returned>,
) -> Result<(), OutOfMemory>
    ensures ok { OnOk result (arc_value store.new ≡ laid_all back.old.items (arc_value store.old)) }
    ensures none { OnOk result (back.new.items ≡ []) }
    ensures told { laid_all back.new.items (arc_value store.new) ≡ laid_all back.old.items (arc_value store.old) }
    ensures len { vec_len back.new ≤ vec_len back.old }
    ensures capacity { vec_capacity back.new ≡ vec_capacity back.old }
{
    while !back.is_empty() {
        lay_in(alloc, store, &back[0])?;
        back.remove(0);
    }
    Ok(())
}

// Lays a part over the nodes, or over a copy of them if readers hold these.
fn lay_in(alloc: Global, store: &mut Arc<Store>, part: &Returned) -> Result<(), OutOfMemory>
    ensures ok { OnOk result (arc_value store.new ≡ laid part.now.tops part.now.files (arc_value store.old)) }
    ensures err { OnErr result (laid part.now.tops part.now.files (arc_value store.new) ≡ laid part.now.tops part.now.files (arc_value store.old)) }
{
    Arc::make_mut(store)?.lay(alloc, part.tops.paths(), &part.store)
}

// Puts a part into a place that was made for it, without memory.
fn put_back(places: &mut Vec<Returned>, part: Returned)
    requires { vec_len places.old < vec_capacity places.old }
    ensures items { places.new.items ≡ places.old.items ++ part ∷ [] }
    ensures len { vec_len places.new ≡ vec_len places.old + 1 }
    ensures capacity { vec_capacity places.old ≤ vec_capacity places.new }
{
    let _ = places.push(part);
}

// The writes go into a copy of the nodes if readers hold these.

fn put_in(store: &mut Arc<Store>, path: Path, node: Node) -> Result<(), AllocError>
    ensures ok { OnOk result (arc_value store.new ≡ map.insert (arc_value store.old) path (node_of node)) }
    ensures err { OnErr result (arc_value store.new ≡ arc_value store.old) }
{
    Arc::make_mut(store)?.put(path, node)
}

fn write_in(store: &mut Arc<Store>, path: &Path, at: usize, bytes: &[u8]) -> Result<(), AllocError>
    requires file { is_file (map.get (arc_value store.old) path.now) ≡ true }
    requires place { at ≤ length (content (map.get (arc_value store.old) path.now)) }
    ensures ok { OnOk result (arc_value store.new ≡ written (arc_value store.old) path.now at bytes.now) }
    ensures err { OnErr result (arc_value store.new ≡ arc_value store.old) }
{
    Arc::make_mut(store)?.write(path, at, bytes)
}

fn take_from(store: &mut Arc<Store>, path: &Path) -> Result<(), AllocError>
    ensures ok { OnOk result (arc_value store.new ≡ map.remove (arc_value store.old) path.now) }
    ensures err { OnErr result (arc_value store.new ≡ arc_value store.old) }
{
    Arc::make_mut(store)?.take(path);
    Ok(())
}
