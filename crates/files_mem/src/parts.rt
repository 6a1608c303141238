//! Parts of files in memory that are lent.
ghost use Rattle.std.specs.Prelude.{◌≡◌, [], Some, None, IsTrue, IfErr, IsErrOf};
ghost use Rattle.std.specs.Arc.{arc_value};
ghost use Rattle.std.specs.FinMap as map;
ghost use Rattle.outside.specs.Count.{RoseBy, capped};
ghost use Rattle.outside.specs.Parts.{IsPart};
ghost use Rattle.outside.specs.Writes.{under, is_open, is_top, make_refusal, write_refusal, remove_file_refusal, remove_dir_refusal};
ghost use Rattle.outside.specs.Writes.{empty_dir, new_file, new_link, written, HasPlace, Answers, may_make, may_change, may_empty};
ghost use Rattle.files_mem.specs.Stored.{node_of};
ghost use Rattle.files_mem.specs.Planned.{is_planned};
ghost use Rattle.files_mem.specs.Memory.{answered, Acts};

use crate::nodes::{Body, Node};
use crate::plans::{Call, Plan, has};
use crate::stores::Store;
use crate::untold::Looks;
use outside::{LinkText, Plot, Stat, Tops, WriteError};
use path_text::{OutOfMemory, Path};
use std::alloc::Global;
use std::marker::Model;
use std::sync::Arc;

/// A part of files in memory. It tells its nodes, those at and under its tops, and is seen as its ground is.
#[derive(Drop)]
pub struct MemPart {
    store: Store,
    tops: Tops,
    plan: Arc<Plan>,
    count: u64,
}

impl Model for MemPart {
    ghost use Rattle.std.specs.Arc.{arc_value};
    ghost use Rattle.outside.specs.Parts.{IsPart};
    ghost use Rattle.outside.specs.Writes.{under};
    ghost use Rattle.files_mem.specs.Memory.{Memory, memory_code};

    ghost Value = { Memory };

    ghost coded = { memory_code };

    ghost view = { λ p. record { files = p.store; planned = (arc_value p.plan).items; count = p.count; area = under p.tops } };

    ghost invariant = { λ p. IsPart p.tops (p.store) };
}

impl MemPart {
    pub(crate) fn make(store: Store, tops: Tops, plan: Arc<Plan>) -> MemPart
        requires { IsPart tops (store) }
        ensures { result ≡ record { files = store; planned = (arc_value plan).items; count = 0; area = under tops } }
    {
        MemPart {
            store,
            tops,
            plan,
            count: 0,
        }
    }

    // The nodes and the tops.
    pub(crate) fn into_parts(self) -> (Store, Tops)
        ensures store { result.0 ≡ self.files }
        ensures tops { under result.1 ≡ self.area }
        ensures valid { IsPart result.1 result.0 }
    {
        (self.store, self.tops)
    }

    // Whether the call is planned to fail at the path. If so, it counts as a fault.
    fn fails(&mut self, call: Call, path: &Path) -> bool
        ensures planned { result ≡ is_planned call path.now self.old.planned }
        ensures counted { self.new ≡ answered (is_planned call path.now self.old.planned) self.old }
        ensures count { RoseBy 0 self.old.count self.new.count }
        ensures cause { IsTrue result → RoseBy 1 self.old.count self.new.count }
    {
        let planned = has(&self.plan, call, path);
        if planned {
            self.count = self.count.saturating_add(1);
        }
        planned
    }

    // Makes a node, for the calls that write.
    fn make_node(
        &mut self,
        alloc: Global,
        call: Call,
        path: &Path,
        node: Node,
    ) -> Result<(), WriteError>
        requires { IsTrue (is_open self.old.area path.now) }
        ensures acts { Acts call path.now (make_refusal self.old.area self.old.files path.now) (map.insert self.old.files path.now (node_of node)) self.old result self.new }
        ensures named { IfErr result (λ e. IsTrue (may_make e)) }
        ensures count { RoseBy 0 self.old.count self.new.count }
        ensures cause { IsErrOf result WriteError.Failed → RoseBy 1 self.old.count self.new.count }
    {
        let _ = path.text(); // gives the proof that it is a path
        if self.fails(call, path) {
            return Err(WriteError::Failed);
        }
        let top = is_top(self.tops.paths(), path);
        if let Some(refused) = self.store.put_refusal(alloc, path, top)? {
            return Err(refused.into());
        }
        self.store.put(path.copy()?, node)?;
        Ok(())
    }
}

// Whether the path is one of the tops.
fn is_top(tops: &[Path], path: &Path) -> bool
    ensures { result ≡ is_top (under tops.now) path.now }
{
    tops.contains(path)
}

impl Looks for MemPart {
    fn look(&mut self, _alloc: Global, path: &Path) -> Result<Option<Stat>, OutOfMemory> {
        Ok(self.store.stat(path))
    }
}

impl Plot for MemPart {
    ghost use Rattle.std.specs.Prelude.{Some};
    ghost use Rattle.files_mem.specs.Steady.{StaysSteady};

    ghost tree = { λ g. Some g.files };

    ghost count = { λ g. g.count };

    ghost area = { λ g. g.area };

    /// Files that never fail stay so.
    ghost gives = { λ before _ _ result new. StaysSteady before result new };

    fn faults(&self) -> u64 {
        self.count
    }

    /// Makes an empty directory without a time. It fails exactly if that is planned, before any other refusal, and changes
    /// nothing then.
    fn make_dir(&mut self, alloc: Global, path: &Path) -> Result<(), WriteError>
        requires { IsTrue (is_open self.old.area path.now) }
        ensures acts { Acts Call.MakeDir path.now (make_refusal self.old.area self.old.files path.now) (map.insert self.old.files path.now empty_dir) self.old result self.new }
        ensures told { Answers path.now (make_refusal self.old.area self.old.files path.now) self.old.files (map.insert self.old.files path.now empty_dir) result (Some self.new.files) }
        ensures named { IfErr result (λ e. IsTrue (may_make e)) }
        ensures count { RoseBy 0 self.old.count self.new.count }
        ensures cause { IsErrOf result WriteError.Failed → RoseBy 1 self.old.count self.new.count }
    {
        let body = Body::Dir(0);
        self.make_node(alloc, Call::MakeDir, path, Node { body, mtime: None })
    }

    /// Makes an empty file without a time. It fails exactly if that is planned, before any other refusal, and changes nothing then.
    fn make_file(&mut self, alloc: Global, path: &Path) -> Result<(), WriteError>
        requires { IsTrue (is_open self.old.area path.now) }
        ensures acts { Acts Call.MakeFile path.now (make_refusal self.old.area self.old.files path.now) (map.insert self.old.files path.now (new_file [])) self.old result self.new }
        ensures told { Answers path.now (make_refusal self.old.area self.old.files path.now) self.old.files (map.insert self.old.files path.now (new_file [])) result (Some self.new.files) }
        ensures named { IfErr result (λ e. IsTrue (may_make e)) }
        ensures count { RoseBy 0 self.old.count self.new.count }
        ensures cause { IsErrOf result WriteError.Failed → RoseBy 1 self.old.count self.new.count }
    {
        let body = Body::File(Vec::new(alloc));
        self.make_node(alloc, Call::MakeFile, path, Node { body, mtime: None })
    }

    /// Makes a link with this text, without a time. It fails exactly if that is planned, before any other refusal, and changes
    /// nothing then.
    fn make_link(&mut self, alloc: Global, path: &Path, text: &LinkText) -> Result<(), WriteError>
        requires { IsTrue (is_open self.old.area path.now) }
        ensures acts { Acts Call.MakeLink path.now (make_refusal self.old.area self.old.files path.now) (map.insert self.old.files path.now (new_link text.now)) self.old result self.new }
        ensures told { Answers path.now (make_refusal self.old.area self.old.files path.now) self.old.files (map.insert self.old.files path.now (new_link text.now)) result (Some self.new.files) }
        ensures named { IfErr result (λ e. IsTrue (may_make e)) }
        ensures count { RoseBy 0 self.old.count self.new.count }
        ensures cause { IsErrOf result WriteError.Failed → RoseBy 1 self.old.count self.new.count }
    {
        let Ok(text) = text.copy() else {
            // a planned fault comes before out of memory
            if self.fails(Call::MakeLink, path) {
                return Err(WriteError::Failed);
            }
            return Err(WriteError::OutOfMemory);
        };
        let body = Body::Link(text);
        self.make_node(alloc, Call::MakeLink, path, Node { body, mtime: None })
    }

    /// Writes bytes over those of a file from a place on, also past its end. It fails exactly if that is planned, before any other
    /// refusal, and changes nothing then.
    fn write_at(
        &mut self,
        alloc: Global,
        path: &Path,
        at: u64,
        bytes: &[u8],
    ) -> Result<(), WriteError>
        requires open { IsTrue (is_open self.old.area path.now) }
        requires place { HasPlace at (map.get self.old.files path.now) }
        ensures acts { Acts Call.Write path.now (write_refusal (map.get self.old.files path.now)) (written self.old.files path.now at bytes.now) self.old result self.new }
        ensures told { Answers path.now (write_refusal (map.get self.old.files path.now)) self.old.files (written self.old.files path.now at bytes.now) result (Some self.new.files) }
        ensures named { IfErr result (λ e. IsTrue (may_change e)) }
        ensures count { RoseBy 0 self.old.count self.new.count }
        ensures cause { IsErrOf result WriteError.Failed → RoseBy 1 self.old.count self.new.count }
    {
        if self.fails(Call::Write, path) {
            return Err(WriteError::Failed);
        }
        if let Some(refused) = self.store.write_refusal(path) {
            return Err(refused);
        }
        self.store.write(path, at as usize, bytes)?;
        Ok(())
    }

    /// Removes a node that is not a directory. It fails exactly if that is planned, before any other refusal, and changes nothing then.
    fn remove_file(&mut self, alloc: Global, path: &Path) -> Result<(), WriteError>
        requires { IsTrue (is_open self.old.area path.now) }
        ensures acts { Acts Call.RemoveFile path.now (remove_file_refusal (map.get self.old.files path.now)) (map.remove self.old.files path.now) self.old result self.new }
        ensures told { Answers path.now (remove_file_refusal (map.get self.old.files path.now)) self.old.files (map.remove self.old.files path.now) result (Some self.new.files) }
        ensures named { IfErr result (λ e. IsTrue (may_change e)) }
        ensures count { RoseBy 0 self.old.count self.new.count }
        ensures cause { IsErrOf result WriteError.Failed → RoseBy 1 self.old.count self.new.count }
    {
        if self.fails(Call::RemoveFile, path) {
            return Err(WriteError::Failed);
        }
        if let Some(refused) = self.store.remove_file_refusal(path) {
            return Err(refused);
        }
        self.store.take(path);
        Ok(())
    }

    /// Removes an empty directory. It fails exactly if that is planned, before any other refusal, and changes nothing then.
    fn remove_dir(&mut self, alloc: Global, path: &Path) -> Result<(), WriteError>
        requires { IsTrue (is_open self.old.area path.now) }
        ensures acts { Acts Call.RemoveDir path.now (remove_dir_refusal self.old.files path.now) (map.remove self.old.files path.now) self.old result self.new }
        ensures told { Answers path.now (remove_dir_refusal self.old.files path.now) self.old.files (map.remove self.old.files path.now) result (Some self.new.files) }
        ensures named { IfErr result (λ e. IsTrue (may_empty e)) }
        ensures count { RoseBy 0 self.old.count self.new.count }
        ensures cause { IsErrOf result WriteError.Failed → RoseBy 1 self.old.count self.new.count }
    {
        if self.fails(Call::RemoveDir, path) {
            return Err(WriteError::Failed);
        }
        if let Some(refused) = self.store.remove_dir_refusal(alloc, path)? {
            return Err(refused);
        }
        self.store.take(path);
        Ok(())
    }
}
