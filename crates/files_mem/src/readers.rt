//! A reader of files in memory.
ghost use Rattle.std.specs.Prelude.{◌≡◌, ◌≢◌, ◌≤◌, ◌↔◌, length, ℕ, Some, None, true, false, if◌then◌else◌, IsTrue, OnOk, OnErr, IfOk, IfSome, IsErr, IsErrOf};
ghost use Rattle.std.specs.Option.{option_map};
ghost use Rattle.std.specs.Arc.{arc_value};
ghost use Rattle.std.specs.FinMap as map;
ghost use Rattle.outside.specs.Writes.{nothing_lent};
ghost use Rattle.outside.specs.Count.{RoseBy, capped};
ghost use Rattle.outside.specs.Tree.{Files, Lists, AreNames, IsTree, Reads, is_dir, is_file, link_at, stat_of};
ghost use Rattle.files_mem.specs.Planned.{is_planned};
ghost use Rattle.files_mem.specs.Memory.{Memory, FillsFrom, answered};

use crate::plans::{Call, Plan, has};
use crate::stores::Store;
use outside::{Failed, Kind, LinkError, LinkText, ListError, Listing, ReadError, Stat, Tree};
use path_text::{OutOfMemory, Path};
use std::alloc::Global;
use std::marker::Model;
use std::sync::Arc;

/// A reader of the files as they were when the ground made it. It counts its own faults alone.
#[derive(Drop)]
pub struct MemReader {
    store: Arc<Store>,
    plan: Arc<Plan>,
    count: u64,
}

impl Model for MemReader {
    ghost use Rattle.outside.specs.Writes.{nothing_lent};
    ghost use Rattle.std.specs.Arc.{arc_value};
    ghost use Rattle.outside.specs.Tree.{IsTree};
    ghost use Rattle.files_mem.specs.Memory.{Memory, memory_code};

    ghost Value = { Memory };

    ghost coded = { memory_code };

    ghost view = { λ r. record { files = arc_value r.store; planned = (arc_value r.plan).items; count = r.count; area = nothing_lent } };

    ghost invariant = { λ r. IsTree (arc_value r.store) };
}

impl MemReader {
    /// A reader that has not failed yet.
    pub(crate) fn make(store: Arc<Store>, plan: Arc<Plan>) -> MemReader
        requires { IsTree (arc_value store) }
        ensures { result ≡ record { files = arc_value store; planned = (arc_value plan).items; count = 0; area = nothing_lent } }
    {
        MemReader {
            store,
            plan,
            count: 0,
        }
    }

    // Whether the call is planned to fail at the path. If so, it counts as a fault.
    fn fails(&mut self, call: Call, path: &Path) -> bool
        ensures planned { result ≡ is_planned call path.now self.old.planned }
        ensures counted { self.new ≡ answered (is_planned call path.now self.old.planned) self.old }
    {
        let planned = has(&self.plan, call, path);
        if planned {
            self.count = self.count.saturating_add(1);
        }
        planned
    }
}

impl Tree for MemReader {
    ghost use Rattle.std.specs.Prelude.{Some};

    ghost tree = { λ r. Some r.files };

    ghost count = { λ r. r.count };

    fn faults(&self) -> u64 {
        self.count
    }

    /// Fails exactly if that is planned, and counts only that.
    fn stat(&mut self, path: &Path) -> Result<Option<Stat>, Failed>
        ensures valid { IsTree self.old.files }
        ensures planned { IsErr result ↔ IsTrue (is_planned Call.Stat path.now self.old.planned) }
        ensures told { IfOk result (λ answer. answer ≡ option_map stat_of (map.get self.old.files path.now)) }
        ensures counted { self.new ≡ answered (is_planned Call.Stat path.now self.old.planned) self.old }
        ensures size { IfOk result (λ answer. IfSome answer (λ stat. stat.kind ≢ Kind.File → stat.size ≡ 0)) }
        ensures ok { OnOk result (RoseBy 0 self.old.count self.new.count) }
        ensures cause { OnErr result (RoseBy 1 self.old.count self.new.count) }
    {
        let _ = &self.store; // gives the proof that it is a tree
        if self.fails(Call::Stat, path) {
            return Err(Failed);
        }
        Ok(self.store.stat(path))
    }

    /// Fails exactly if that is planned, before any other refusal. Names that are not texts are planned too.
    fn list(&mut self, alloc: Global, path: &Path) -> Result<Listing, ListError>
        ensures valid { IsTree self.old.files }
        ensures planned { IsErrOf result ListError.Failed ↔ IsTrue (is_planned Call.List path.now self.old.planned) }
        ensures not_dir { IsErrOf result ListError.NotDir ↔ ((is_planned Call.List path.now self.old.planned ≡ false) × (is_dir (map.get self.old.files path.now) ≡ false)) }
        ensures told { IfOk result (λ listing. Lists self.old.files path.now listing) }
        ensures unnamed { IfOk result (λ listing. listing.1 ≡ (if is_planned Call.Name path.now self.old.planned then 1 else 0)) }
        ensures listed { OnOk result (self.new ≡ answered (is_planned Call.Name path.now self.old.planned) self.old) }
        ensures refused { OnErr result (self.new ≡ answered (is_planned Call.List path.now self.old.planned) self.old) }
        ensures names { IfOk result (λ listing. AreNames path.now listing.0) }
        ensures rose { IfOk result (λ listing. RoseBy listing.1 self.old.count self.new.count) }
        ensures cause { IsErrOf result ListError.Failed → RoseBy 1 self.old.count self.new.count }
        ensures err { OnErr result (RoseBy 0 self.old.count self.new.count) }
    {
        let _ = &self.store; // gives the proof that it is a tree
        if self.fails(Call::List, path) {
            return Err(ListError::Failed);
        }
        let Some(far) = self.store.far(path) else {
            return Err(ListError::NotDir);
        };
        let Ok(mut listing) = self.store.list(alloc, path) else {
            return Err(ListError::OutOfMemory);
        };
        let unnamed = if self.fails(Call::Name, path) { 1 } else { 0 };
        listing.set_rest(unnamed, far);
        Ok(listing)
    }

    /// Reads as many bytes as are there and fit. It fails exactly if that is planned, before any other refusal. The bytes of `into`
    /// after those read stay as before, and after a refusal all of them do.
    fn read(&mut self, path: &Path, at: u64, into: &mut [u8]) -> Result<usize, ReadError>
        ensures valid { IsTree self.old.files }
        ensures planned { IsErrOf result ReadError.Failed ↔ IsTrue (is_planned Call.Read path.now self.old.planned) }
        ensures not_file { IsErrOf result ReadError.NotFile ↔ ((is_planned Call.Read path.now self.old.planned ≡ false) × (is_file (map.get self.old.files path.now) ≡ false)) }
        ensures fills { IfOk result (λ n. FillsFrom (map.get self.old.files path.now) at into.old into.new n) }
        ensures kept { OnErr result (into.new ≡ into.old) }
        ensures counted { self.new ≡ answered (is_planned Call.Read path.now self.old.planned) self.old }
        ensures most { IfOk result (λ n. n ≤ length into.new) }
        ensures told { IfOk result (λ n. Reads self.old.files path.now at into.new n) }
        ensures cause { IsErrOf result ReadError.Failed → RoseBy 1 self.old.count self.new.count }
        ensures count { RoseBy 0 self.old.count self.new.count }
    {
        let _ = &self.store; // gives the proof that it is a tree
        if self.fails(Call::Read, path) {
            return Err(ReadError::Failed);
        }
        match self.store.read(path, at, into) {
            None => Err(ReadError::NotFile),
            Some(n) => Ok(n),
        }
    }

    /// The text of the link at the path. It fails exactly if that is planned, before any other refusal.
    fn read_link(&mut self, alloc: Global, path: &Path) -> Result<LinkText, LinkError>
        ensures valid { IsTree self.old.files }
        ensures planned { IsErrOf result LinkError.Failed ↔ IsTrue (is_planned Call.ReadLink path.now self.old.planned) }
        ensures not_link { IsErrOf result LinkError.NotLink ↔ ((is_planned Call.ReadLink path.now self.old.planned ≡ false) × (link_at (map.get self.old.files path.now) ≡ None)) }
        ensures told { IfOk result (λ text. link_at (map.get self.old.files path.now) ≡ Some text) }
        ensures counted { self.new ≡ answered (is_planned Call.ReadLink path.now self.old.planned) self.old }
        ensures cause { IsErrOf result LinkError.Failed → RoseBy 1 self.old.count self.new.count }
        ensures count { RoseBy 0 self.old.count self.new.count }
    {
        let _ = &self.store; // gives the proof that it is a tree
        if self.fails(Call::ReadLink, path) {
            return Err(LinkError::Failed);
        }
        let Some(text) = self.store.link(path) else {
            return Err(LinkError::NotLink);
        };
        match text.copy() {
            Ok(text) => Ok(text),
            Err(_) => Err(LinkError::OutOfMemory),
        }
    }
}
