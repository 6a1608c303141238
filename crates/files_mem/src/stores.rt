//! Nodes by their paths.
ghost use Rattle.std.specs.Prelude.{◌≡◌, ◌≤◌, ◌-◌, ◌++◌, ◌∷◌, [], ◌||◌, ℕ, List, Some, None, slice_get, true, false};
ghost use Rattle.std.specs.Prelude.{if◌then◌else◌, is_some, nat_eq, length, take, drop, min, OnOk, OnErr, IfOk, IfSome};
ghost use Rattle.std.specs.Prelude.{IfNone};
ghost use Rattle.std.specs.Option.{option_copied, option_map};
ghost use Rattle.std.specs.Cmp.Lexicographic.{pointwise};
ghost use Rattle.std.specs.Arc.{arc_value};
ghost use Rattle.std.specs.FinMap as map;
ghost use Rattle.outside.specs.Tree.{names_in, is_dir, is_file, link_at, content, stat_of, file};
ghost use Rattle.outside.specs.Writes.{write_refusal, remove_file_refusal, remove_dir_refusal, written, time_of};
ghost use Rattle.outside.specs.Laid.{laid};
ghost use Rattle.outside.specs.Lease.{in_tops, leased, kept};
ghost use Rattle.path_text.specs.Order.{is_within};
ghost use Rattle.path_text.specs.Path.{parent_of, refusal};
ghost use Rattle.files_mem.specs.Stored.{node_of};
ghost use Rattle.files_mem.specs.Memory.{put_refusal_at, dir_far, FillsFrom};
ghost use Rattle.files_mem.specs.PrivateHeld.{copied};

use crate::child_names;
use crate::errors::PutError;
use crate::nodes::{Body, Node};
use outside::{Lent, LinkText, Listing, Stat, Tops, WriteError};
use path_text::{OutOfMemory, Path, PathError};
use std::alloc::{AllocError, AllocFailed, Global};
use std::collections::BTreeMap;
use std::marker::Model;
use std::sync::Arc;

/// Nodes by their paths, in path order.
#[derive(Drop)]
pub struct Store {
    map: BTreeMap<Path, Node>,
}

impl Model for Store {
    ghost use Rattle.outside.specs.Tree.{Files};
    ghost use Rattle.outside.specs.Codes.{files_code};

    ghost Value = { Files };

    ghost coded = { files_code };

    ghost use Rattle.files_mem.specs.Stored.{files_of, AllValid};

    ghost view = { λ s. files_of s.map.entries };

    ghost invariant = { λ s. AllValid s.map.entries };
}

impl Clone for Store {
    ghost use Rattle.std.specs.Prelude.{◌≡◌};

    ghost is_clone = { λ s t. t ≡ s };

    fn clone(&self) -> Result<Store, AllocError> {
        Ok(Store {
            map: self.map.clone()?,
        })
    }
}

impl Store {
    /// No nodes.
    pub fn empty(alloc: Global) -> Store
        ensures { result ≡ map.empty }
    {
        Store {
            map: BTreeMap::new(alloc),
        }
    }

    fn node_at(&self, path: &Path) -> Option<&Node>
        ensures { option_map node_of (option_copied result) ≡ map.get self.now path.now }
    {
        self.map.get(path)
    }

    /// The kind, size and time of the node at the path.
    pub fn stat(&self, path: &Path) -> Option<Stat>
        ensures { result ≡ option_map stat_of (map.get self.now path.now) }
    {
        match self.node_at(path) {
            None => None,
            Some(node) => Some(node.stat()),
        }
    }

    fn is_dir(&self, path: &Path) -> bool
        ensures { result ≡ is_dir (map.get self.now path.now) }
    {
        match self.node_at(path) {
            None => false,
            Some(node) => node.is_dir(),
        }
    }

    /// For a directory, the number of children whose path would be too long; `None` for anything else.
    pub fn far(&self, path: &Path) -> Option<u64>
        ensures { result ≡ dir_far (map.get self.now path.now) }
    {
        match self.node_at(path) {
            None => None,
            Some(node) => match &node.body {
                Body::Dir(far) => Some(*far),
                _ => None,
            },
        }
    }

    /// Puts a node at the path, in place of any that is there. A refusal changes nothing.
    pub fn put(&mut self, path: Path, node: Node) -> Result<(), AllocError>
        ensures ok { OnOk result (self.new ≡ map.insert self.old path (node_of node)) }
        ensures err { OnErr result (self.new ≡ self.old) }
    {
        let _ = path.text(); // gives the proof that it is a path
        self.map.insert(path, node)?;
        Ok(())
    }

    /// Whether the parent of the path is a directory.
    fn has_parent(&self, alloc: Global, path: &Path) -> Result<bool, OutOfMemory>
        ensures { IfOk result (λ has. has ≡ is_dir (map.get self.now (parent_of path.now))) }
    {
        match Path::parse(alloc, parent_text(path)) {
            Ok(parent) => Ok(self.is_dir(&parent)),
            Err(fault) => {
                if fault == PathError::OutOfMemory {
                    return Err(OutOfMemory);
                }
                let _ = &self.map; // tells that the keys are paths
                Ok(false)
            }
        }
    }

    /// Why no node can be put at the path, which may be a top of a part.
    pub fn put_refusal(
        &self,
        alloc: Global,
        path: &Path,
        top: bool,
    ) -> Result<Option<PutError>, OutOfMemory>
        ensures { IfOk result (λ refusal. refusal ≡ put_refusal_at top self.now path.now) }
    {
        if self.node_at(path).is_some() {
            return Ok(Some(PutError::Exists));
        }
        if top || self.has_parent(alloc, path)? {
            return Ok(None);
        }
        Ok(Some(PutError::NoParent))
    }

    /// Why bytes can't be written to the node at the path.
    pub fn write_refusal(&self, path: &Path) -> Option<WriteError>
        ensures { result ≡ write_refusal (map.get self.now path.now) }
    {
        match self.node_at(path) {
            None => Some(WriteError::Absent),
            Some(node) => match &node.body {
                Body::File(_) => None,
                _ => Some(WriteError::WrongKind),
            },
        }
    }

    /// Why the node at the path can't be removed by `remove_file`.
    pub fn remove_file_refusal(&self, path: &Path) -> Option<WriteError>
        ensures { result ≡ remove_file_refusal (map.get self.now path.now) }
    {
        match self.node_at(path) {
            None => Some(WriteError::Absent),
            Some(node) => {
                if node.is_dir() {
                    Some(WriteError::WrongKind)
                } else {
                    None
                }
            }
        }
    }

    /// Why the node at the path can't be removed as an empty directory.
    pub fn remove_dir_refusal(
        &self,
        alloc: Global,
        path: &Path,
    ) -> Result<Option<WriteError>, OutOfMemory>
        ensures { IfOk result (λ refusal. refusal ≡ remove_dir_refusal self.now path.now) }
    {
        match self.node_at(path) {
            None => Ok(Some(WriteError::Absent)),
            Some(node) => match &node.body {
                Body::Dir(far) => {
                    if *far != 0 || self.list(alloc, path)?.len() != 0 {
                        return Ok(Some(WriteError::NotEmpty));
                    }
                    Ok(None)
                }
                _ => Ok(Some(WriteError::WrongKind)),
            },
        }
    }

    /// Reads the file at the path from a place on, as many bytes as are there and have room. It answers `None` for anything else, and
    /// the buffer is then as before.
    pub fn read(&self, path: &Path, at: u64, into: &mut [u8]) -> Option<usize>
        ensures file { IfSome result (λ n. FillsFrom (map.get self.now path.now) at into.old into.new n) }
        ensures other { IfNone result (is_file (map.get self.now path.now) ≡ false) }
        ensures untouched { IfNone result (into.new ≡ into.old) }
    {
        match self.node_at(path) {
            None => None,
            Some(node) => match &node.body {
                Body::File(bytes) => Some(fill(bytes, at, into)),
                _ => None,
            },
        }
    }

    /// The text of the link at the path; `None` for anything else.
    pub fn link(&self, path: &Path) -> Option<&LinkText>
        ensures { option_copied result ≡ link_at (map.get self.now path.now) }
    {
        match self.node_at(path) {
            None => None,
            Some(node) => match &node.body {
                Body::Link(text) => Some(text),
                _ => None,
            },
        }
    }

    /// Writes bytes over those of the file at the path from a place on, also past its end. A refusal changes nothing.
    pub fn write(&mut self, path: &Path, at: usize, bytes: &[u8]) -> Result<(), AllocError>
        requires file { is_file (map.get self.old path.now) ≡ true }
        requires place { at ≤ length (content (map.get self.old path.now)) }
        ensures ok { OnOk result (self.new ≡ written self.old path.now at bytes.now) }
        ensures err { OnErr result (self.new ≡ self.old) }
    {
        let Some(node) = self.map.get_mut(path) else {
            return Ok(());
        };
        node.write(at, bytes)
    }

    /// Gives the file at the path other bytes, without memory.
    pub fn set_bytes(&mut self, path: &Path, bytes: Vec<u8>)
        requires { is_file (map.get self.old path.now) ≡ true }
        ensures { self.new ≡ map.insert self.old path.now (record { body = file bytes.items; mtime = time_of (map.get self.old path.now) }) }
    {
        let Some(node) = self.map.get_mut(path) else {
            return;
        };
        node.set_bytes(bytes);
    }

    /// Removes the node at the path.
    pub fn take(&mut self, path: &Path)
        ensures { self.new ≡ map.remove self.old path.now }
    {
        let _ = self.map.remove(path);
    }

    /// A copy of the nodes at and under the tops. It costs these nodes, and not the whole map.
    pub fn leased(&self, alloc: Global, tops: &[Path]) -> Result<Store, OutOfMemory>
        ensures { IfOk result (λ part. part ≡ leased tops.now self.now) }
    {
        let mut part = Store::empty(alloc);
        self.copy_tops(tops, &mut part)?;
        Ok(part)
    }

    /// Removes all nodes that the other has.
    pub fn take_all(&mut self, other: &Store)
        ensures { (q : List ℕ) → map.get self.new q ≡ (if is_some (map.get other.now q) then None else map.get self.old q) }
    {
        let mut entries = other.map.iter();
        while let Some((key, _node)) = entries.next() {
            self.take(key);
        }
    }

    /// Takes the nodes at and under the tops away, for a part. A refusal changes nothing.
    pub fn divide(
        &mut self,
        alloc: Global,
        lent: &mut Lent,
        tops: &[Path],
    ) -> Result<(Store, Tops), OutOfMemory>
        ensures part { IfOk result (λ part. part.0 ≡ leased tops.now self.old) }
        ensures tops { IfOk result (λ part. part.1 ≡ tops.now) }
        ensures valid { OnOk result ((i : ℕ) (x : List ℕ) → slice_get tops.now i ≡ Some x → refusal x ≡ None) }
        ensures rest { OnOk result (self.new ≡ kept tops.now self.old) }
        ensures lent { OnOk result (lent.new ≡ lent.old ++ tops.now ∷ []) }
        ensures same { OnErr result (self.new ≡ self.old) }
        ensures none { OnErr result (lent.new ≡ lent.old) }
    {
        let part = self.leased(alloc, tops)?;
        let theirs = lent.lend(alloc, tops)?;
        self.take_all(&part);
        Ok((part, theirs))
    }

    /// Lays a part over it: at and under the tops come the nodes of the part, and nothing else. A call that is refused can be repeated.
    pub fn lay(&mut self, alloc: Global, tops: &[Path], part: &Store) -> Result<(), OutOfMemory>
        ensures ok { OnOk result (self.new ≡ laid tops.now part.now self.old) }
        ensures err { OnErr result (laid tops.now part.now self.new ≡ laid tops.now part.now self.old) }
    {
        let old = self.leased(alloc, tops)?;
        self.take_all(&old);
        part.copy_tops(tops, self)
    }

    // Copies the nodes at and under the tops into the other.
    fn copy_tops(&self, tops: &[Path], into: &mut Store) -> Result<(), OutOfMemory>
        ensures ok { OnOk result ((q : List ℕ) → map.get into.new q ≡ copied (in_tops tops.now q) (map.get self.now q) (map.get into.old q)) }
        ensures err { OnErr result ((q : List ℕ) → in_tops tops.now q ≡ false → map.get into.new q ≡ map.get into.old q) }
    {
        for top in tops {
            self.copy_top(top, into)?;
        }
        Ok(())
    }

    // Copies the nodes at and under the top into the other.
    fn copy_top(&self, top: &Path, into: &mut Store) -> Result<(), OutOfMemory>
        ensures ok { OnOk result ((q : List ℕ) → map.get into.new q ≡ copied (is_within q top.now) (map.get self.now q) (map.get into.old q)) }
        ensures err { OnErr result ((q : List ℕ) → is_within q top.now ≡ false → map.get into.new q ≡ map.get into.old q) }
    {
        let _ = top.text(); // gives the proof that it is a path
        let mut entries = child_names::from(&self.map, top);
        while let Some((key, node)) = entries.next() {
            if !key.is_within(top) {
                return Ok(());
            }
            into.put(key.copy()?, node.clone()?)?;
        }
        Ok(())
    }

    /// The names of the children of the path.
    pub fn list(&self, alloc: Global, path: &Path) -> Result<Listing, OutOfMemory>
        ensures { IfOk result (λ listing. (listing.0 ≡ names_in self.now path.now) × (listing.1 ≡ 0) × (listing.2 ≡ 0)) }
    {
        child_names::list(&self.map, alloc, path)
    }
}

/// Divides the nodes, or a copy of them if readers hold these.
pub fn divide(
    alloc: Global,
    store: &mut Arc<Store>,
    lent: &mut Lent,
    tops: &[Path],
) -> Result<(Store, Tops), OutOfMemory>
    ensures part { IfOk result (λ part. part.0 ≡ leased tops.now (arc_value store.old)) }
    ensures tops { IfOk result (λ part. part.1 ≡ tops.now) }
    ensures valid { OnOk result ((i : ℕ) (x : List ℕ) → slice_get tops.now i ≡ Some x → refusal x ≡ None) }
    ensures rest { OnOk result (arc_value store.new ≡ kept tops.now (arc_value store.old)) }
    ensures lent { OnOk result (lent.new ≡ lent.old ++ tops.now ∷ []) }
    ensures same { OnErr result (arc_value store.new ≡ arc_value store.old) }
    ensures none { OnErr result (lent.new ≡ lent.old) }
{
    Arc::make_mut(store)?.divide(alloc, lent, tops)
}

// The text of the parent's path.
fn parent_text(path: &Path) -> &str
    ensures { result.now ≡ parent_of path.now }
{
    let text = path.text();
    match text.rfind('/') {
        None => "/",
        Some(0) => "/",
        Some(at) => &text[..at],
    }
}

// Fills a buffer from its start with the bytes from a place on, and answers how many it copied.
fn fill(bytes: &[u8], at: u64, into: &mut [u8]) -> usize
    ensures many { result ≡ min (length into.old) (length bytes.now - at) }
    ensures whole { into.new ≡ take result (drop at bytes.now) ++ drop result into.old }
{
    if at >= bytes.len() as u64 {
        return 0;
    }
    let rest = &bytes[at as usize..];
    let n = rest.len().min(into.len());
    into[..n].copy_from_slice(&rest[..n]);
    n
}
