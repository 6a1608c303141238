//! Files in memory.
ghost use Rattle.std.specs.Prelude.{◌≡◌, ◌⊎◌, ◌≤◌, ◌++◌, ◌∷◌, [], Some, None, true, false, length, is_some, IsTrue, OnOk, OnErr, IfOk, IfErr, IsErrOf};
ghost use Rattle.std.specs.Arc.{arc_value};
ghost use Rattle.std.specs.FinMap as map;
ghost use Rattle.std.specs.Prelude.{map as list_map, All};
ghost use Rattle.std.specs.List.{sum_by};
ghost use Rattle.outside.specs.Spans.{are_cuts, pieces, cuts_in, zeros_of, joined_bytes, area_cut, area_whole, IsEmptyFile, IsRejoined};
ghost use Rattle.files_mem.specs.Spanned.{piece_of, held_by, blank, bytes_of_all};
ghost use Rattle.std.specs.Option.{option_map};
ghost use Rattle.outside.specs.Count.{RoseBy, capped};
ghost use Rattle.outside.specs.Tree.{IsTree, dir, file, link, other, is_file, content};
ghost use Rattle.outside.specs.Lease.{CanLease, HaveParents, Joins, leased, kept, area_without, area_with, is_out, tops_of};
ghost use Rattle.outside.specs.Laid.{laid};
ghost use Rattle.outside.specs.Writes.{nothing_lent, under, is_open, make_refusal, write_refusal, remove_file_refusal, remove_dir_refusal};
ghost use Rattle.outside.specs.Writes.{empty_dir, new_file, new_link, written, HasPlace, Answers, may_make, may_change, may_empty};
ghost use Rattle.files_mem.specs.Stored.{node_of};
ghost use Rattle.files_mem.specs.Planned.{is_planned};
ghost use Rattle.files_mem.specs.Memory.{Memory, put_refusal, empty_files, with_node, with_planned, answered, Acts};

use crate::errors::PutError;
use crate::held::Held;
use crate::nodes::{Body, Node};
use crate::parts::MemPart;
use crate::plans::{Call, Plan, has};
use crate::readers::MemReader;
use crate::spans::{MemSpan, faults_of, room_for, spans_of};
use crate::stores::Store;
use crate::untold::Looks;
use outside::{Ground, LinkText, Plot, SpanError, Stat, Tree, Wide, WriteError};
use path_text::{OutOfMemory, Path, PathError};
use std::alloc::{AllocError, AllocFailed, Global};
use std::marker::Model;
use std::sync::Arc;

/// Files in memory, which tell their tree. They are seen as the nodes by their paths, the calls that are planned to fail, the
/// count of faults, and their area.
#[derive(Drop)]
pub struct MemGround {
    held: Held,
    plan: Arc<Plan>,
    count: u64,
}

impl Model for MemGround {
    ghost use Rattle.std.specs.Arc.{arc_value};
    ghost use Rattle.outside.specs.Writes.{all_but};
    ghost use Rattle.files_mem.specs.Memory.{Memory, memory_code};
    ghost use Rattle.files_mem.specs.PrivateHeld.{IsGround};

    ghost Value = { Memory };

    ghost coded = { memory_code };

    ghost view = { λ g. record { files = g.held.files; planned = (arc_value g.plan).items; count = g.count; area = all_but g.held.out g.held.cut } };

    ghost invariant = { λ g. IsGround g.held };
}

impl MemGround {
    /// Nothing but `/`, a directory without a time.
    pub fn empty(alloc: Global) -> Result<MemGround, OutOfMemory>
        ensures { IfOk result (λ made. made ≡ record { files = empty_files; planned = []; count = 0; area = nothing_lent }) }
    {
        let Ok(root) = Path::parse(alloc, "/") else {
            return Err(OutOfMemory);
        };
        let mut store = Store::empty(alloc);
        store.put(root, folder(0, None))?;
        Ok(MemGround {
            held: Held::make(alloc, store)?,
            plan: Arc::new(alloc, Vec::new(alloc))?,
            count: 0,
        })
    }

    /// Puts a directory. The path of `far` of its children would be too long, so they are in no map.
    pub fn put_dir(&mut self, path: &Path, far: u64, mtime: Option<u64>) -> Result<(), PutError>
        ensures put { OnOk result (self.new ≡ with_node self.old path.now (record { body = dir far; mtime = mtime })) }
        ensures free { OnOk result (put_refusal self.old.files path.now ≡ None) }
        ensures refused { IfErr result (λ e. (put_refusal self.old.files path.now ≡ Some e) ⊎ (e ≡ PutError.OutOfMemory)) }
        ensures same { OnErr result (self.new ≡ self.old) }
    {
        self.put(path, folder(far, mtime))
    }

    /// Puts a file with these bytes.
    pub fn put_file(
        &mut self,
        path: &Path,
        bytes: &[u8],
        mtime: Option<u64>,
    ) -> Result<(), PutError>
        ensures put { OnOk result (self.new ≡ with_node self.old path.now (record { body = file bytes.now; mtime = mtime })) }
        ensures free { OnOk result (put_refusal self.old.files path.now ≡ None) }
        ensures refused { IfErr result (λ e. (put_refusal self.old.files path.now ≡ Some e) ⊎ (e ≡ PutError.OutOfMemory)) }
        ensures same { OnErr result (self.new ≡ self.old) }
    {
        let bytes = Vec::from_slice(self.allocator(), bytes)?;
        let body = Body::File(bytes);
        self.put(path, Node { body, mtime })
    }

    /// Puts a symbolic link with this text.
    pub fn put_link(
        &mut self,
        path: &Path,
        text: &LinkText,
        mtime: Option<u64>,
    ) -> Result<(), PutError>
        ensures put { OnOk result (self.new ≡ with_node self.old path.now (record { body = link text.now; mtime = mtime })) }
        ensures free { OnOk result (put_refusal self.old.files path.now ≡ None) }
        ensures refused { IfErr result (λ e. (put_refusal self.old.files path.now ≡ Some e) ⊎ (e ≡ PutError.OutOfMemory)) }
        ensures same { OnErr result (self.new ≡ self.old) }
    {
        let body = Body::Link(text.copy()?);
        self.put(path, Node { body, mtime })
    }

    /// Puts a node that is neither a file, a directory nor a link.
    pub fn put_other(&mut self, path: &Path, mtime: Option<u64>) -> Result<(), PutError>
        ensures put { OnOk result (self.new ≡ with_node self.old path.now (record { body = other; mtime = mtime })) }
        ensures free { OnOk result (put_refusal self.old.files path.now ≡ None) }
        ensures refused { IfErr result (λ e. (put_refusal self.old.files path.now ≡ Some e) ⊎ (e ≡ PutError.OutOfMemory)) }
        ensures same { OnErr result (self.new ≡ self.old) }
    {
        let body = Body::Other;
        self.put(path, Node { body, mtime })
    }

    /// Plans the call to fail at the path, every time from now on, also in readers made from now on.
    pub fn plan(&mut self, call: Call, path: &Path) -> Result<(), OutOfMemory>
        ensures planned { OnOk result (self.new ≡ with_planned self.old call path.now) }
        ensures same { OnErr result (self.new ≡ self.old) }
    {
        add_to(&mut self.plan, call, path.copy()?)?;
        Ok(())
    }

    // The allocator of its memory.
    pub(crate) fn allocator(&self) -> Global {
        *self.plan.allocator()
    }

    // Whether the call is planned to fail at the path. If so, it counts as a fault.
    fn fails(&mut self, call: Call, path: &Path) -> bool
        ensures planned { result ≡ is_planned call path.now self.old.planned }
        ensures counted { self.new ≡ answered (is_planned call path.now self.old.planned) self.old }
        ensures count { RoseBy 0 self.old.count self.new.count }
        ensures cause { IsTrue result → RoseBy 1 self.old.count self.new.count }
    {
        let planned = has(&self.plan, call, path);
        if planned {
            self.count = self.count.saturating_add(1);
        }
        planned
    }

    // Lends a file in spans, which tell their bytes or not.
    pub(crate) fn cut(
        &mut self,
        alloc: Global,
        path: &Path,
        cuts: &[u64],
        tells: bool,
    ) -> Result<Vec<MemSpan>, SpanError>
        requires open { IsTrue (is_open self.old.area path.now) }
        requires empty { IsEmptyFile (map.get self.old.files path.now) }
        requires cuts { IsTrue (are_cuts cuts.now) }
        ensures spans { IfOk result (λ spans. spans.items ≡ list_map (blank tells (is_planned Call.Write path.now self.old.planned)) (pieces path.now cuts.now)) }
        ensures rest { OnOk result (self.new ≡ record self.old { files = kept (path.now ∷ []) self.old.files; area = area_cut path.now cuts.now self.old.area }) }
        ensures failed { IsErrOf result SpanError.Failed → (is_planned Call.Spans path.now self.old.planned ≡ true) × (self.new ≡ answered true self.old) }
        ensures memory { IsErrOf result SpanError.OutOfMemory → (is_planned Call.Spans path.now self.old.planned ≡ false) × (self.new ≡ self.old) }
        ensures unplanned { OnOk result (is_planned Call.Spans path.now self.old.planned ≡ false) }
        ensures cause { IsErrOf result SpanError.Failed → RoseBy 1 self.old.count self.new.count }
    {
        if self.fails(Call::Spans, path) {
            return Err(SpanError::Failed);
        }
        let fails = has(&self.plan, Call::Write, path);
        let spans = spans_of(alloc, path, cuts, tells, fails)?;
        let room = room_for(alloc, &spans)?;
        self.held.cut_out(alloc, path, cuts, room)?;
        Ok(spans)
    }

    // Takes the spans of a file back, whether they tell their bytes or not.
    pub(crate) fn rejoin(&mut self, path: &Path, spans: Vec<MemSpan>)
        requires { option_map (pieces path.now) (cuts_in path.now self.old.area) ≡ Some (list_map piece_of spans.items) }
        ensures tree { IsRejoined path.now (bytes_of_all spans.items) self.old.files self.new.files }
        ensures area { self.new.area ≡ area_whole path.now self.old.area }
        ensures planned { self.new.planned ≡ self.old.planned }
        ensures count { self.new.count ≡ capped self.old.count (sum_by (λ span. span.count) spans.items) }
        ensures rises { self.old.count ≤ self.new.count }
    {
        self.count = self.count.saturating_add(faults_of(&spans));
        self.held.rejoin(path, spans);
    }

    // Puts a node where none is, in a directory.
    fn put(&mut self, path: &Path, node: Node) -> Result<(), PutError>
        ensures put { OnOk result (self.new ≡ with_node self.old path.now (node_of node)) }
        ensures free { OnOk result (put_refusal self.old.files path.now ≡ None) }
        ensures refused { IfErr result (λ e. (put_refusal self.old.files path.now ≡ Some e) ⊎ (e ≡ PutError.OutOfMemory)) }
        ensures same { OnErr result (self.new ≡ self.old) }
    {
        let alloc = self.allocator();
        if let Some(refused) = self.held.put_refusal(alloc, path)? {
            return Err(refused);
        }
        let _ = path.text(); // gives the proof that it is a path
        self.held.put(alloc, path.copy()?, node)?;
        Ok(())
    }

    // Makes a node, for the calls that write.
    fn make(&mut self, call: Call, path: &Path, node: Node) -> Result<(), WriteError>
        ensures acts { Acts call path.now (make_refusal self.old.area self.old.files path.now) (map.insert self.old.files path.now (node_of node)) self.old result self.new }
        ensures named { IfErr result (λ e. IsTrue (may_make e)) }
        ensures count { RoseBy 0 self.old.count self.new.count }
        ensures cause { IsErrOf result WriteError.Failed → RoseBy 1 self.old.count self.new.count }
    {
        let _ = &self.held; // gives the proof that it is a ground, and not a part
        if self.fails(call, path) {
            return Err(WriteError::Failed);
        }
        self.put(path, node)?;
        Ok(())
    }
}

fn folder(far: u64, mtime: Option<u64>) -> Node
    ensures { node_of result ≡ record { body = dir far; mtime = mtime } }
{
    Node {
        body: Body::Dir(far),
        mtime,
    }
}

// Adds a call to the plan, or to a copy of it if readers hold this one.
fn add_to(plan: &mut Arc<Plan>, call: Call, path: Path) -> Result<(), AllocError>
    ensures ok { OnOk result ((arc_value plan.new).items ≡ (arc_value plan.old).items ++ (call, path) ∷ []) }
    ensures err { OnErr result ((arc_value plan.new).items ≡ (arc_value plan.old).items) }
{
    Arc::make_mut(plan)?.push((call, path))?;
    Ok(())
}

impl Looks for MemGround {
    fn look(&mut self, alloc: Global, path: &Path) -> Result<Option<Stat>, OutOfMemory> {
        Ok(self.held.store(alloc)?.stat(path))
    }
}

impl Plot for MemGround {
    ghost use Rattle.std.specs.Prelude.{Some};
    ghost use Rattle.files_mem.specs.Steady.{StaysSteady};

    ghost tree = { λ g. Some g.files };

    ghost count = { λ g. g.count };

    ghost area = { λ g. g.area };

    /// Files that never fail stay so.
    ghost gives = { λ before _ _ result new. StaysSteady before result new };

    fn faults(&self) -> u64 {
        self.count
    }

    /// Makes an empty directory without a time. It fails exactly if that is planned, before any other refusal, and changes
    /// nothing then.
    fn make_dir(&mut self, alloc: Global, path: &Path) -> Result<(), WriteError>
        requires { IsTrue (is_open self.old.area path.now) }
        ensures acts { Acts Call.MakeDir path.now (make_refusal self.old.area self.old.files path.now) (map.insert self.old.files path.now empty_dir) self.old result self.new }
        ensures told { Answers path.now (make_refusal self.old.area self.old.files path.now) self.old.files (map.insert self.old.files path.now empty_dir) result (Some self.new.files) }
        ensures named { IfErr result (λ e. IsTrue (may_make e)) }
        ensures count { RoseBy 0 self.old.count self.new.count }
        ensures cause { IsErrOf result WriteError.Failed → RoseBy 1 self.old.count self.new.count }
    {
        self.make(Call::MakeDir, path, folder(0, None))
    }

    /// Makes an empty file without a time. It fails exactly if that is planned, before any other refusal, and changes nothing then.
    fn make_file(&mut self, alloc: Global, path: &Path) -> Result<(), WriteError>
        requires { IsTrue (is_open self.old.area path.now) }
        ensures acts { Acts Call.MakeFile path.now (make_refusal self.old.area self.old.files path.now) (map.insert self.old.files path.now (new_file [])) self.old result self.new }
        ensures told { Answers path.now (make_refusal self.old.area self.old.files path.now) self.old.files (map.insert self.old.files path.now (new_file [])) result (Some self.new.files) }
        ensures named { IfErr result (λ e. IsTrue (may_make e)) }
        ensures count { RoseBy 0 self.old.count self.new.count }
        ensures cause { IsErrOf result WriteError.Failed → RoseBy 1 self.old.count self.new.count }
    {
        let body = Body::File(Vec::new(alloc));
        self.make(Call::MakeFile, path, Node { body, mtime: None })
    }

    /// Makes a link with this text, without a time. It fails exactly if that is planned, before any other refusal, and changes
    /// nothing then.
    fn make_link(&mut self, alloc: Global, path: &Path, text: &LinkText) -> Result<(), WriteError>
        requires { IsTrue (is_open self.old.area path.now) }
        ensures acts { Acts Call.MakeLink path.now (make_refusal self.old.area self.old.files path.now) (map.insert self.old.files path.now (new_link text.now)) self.old result self.new }
        ensures told { Answers path.now (make_refusal self.old.area self.old.files path.now) self.old.files (map.insert self.old.files path.now (new_link text.now)) result (Some self.new.files) }
        ensures named { IfErr result (λ e. IsTrue (may_make e)) }
        ensures count { RoseBy 0 self.old.count self.new.count }
        ensures cause { IsErrOf result WriteError.Failed → RoseBy 1 self.old.count self.new.count }
    {
        let Ok(text) = text.copy() else {
            // a planned fault comes before out of memory
            if self.fails(Call::MakeLink, path) {
                return Err(WriteError::Failed);
            }
            return Err(WriteError::OutOfMemory);
        };
        let body = Body::Link(text);
        self.make(Call::MakeLink, path, Node { body, mtime: None })
    }

    /// Writes bytes over those of a file from a place on, also past its end. It fails exactly if that is planned, before any other
    /// refusal, and changes nothing then.
    fn write_at(
        &mut self,
        alloc: Global,
        path: &Path,
        at: u64,
        bytes: &[u8],
    ) -> Result<(), WriteError>
        requires open { IsTrue (is_open self.old.area path.now) }
        requires place { HasPlace at (map.get self.old.files path.now) }
        ensures acts { Acts Call.Write path.now (write_refusal (map.get self.old.files path.now)) (written self.old.files path.now at bytes.now) self.old result self.new }
        ensures told { Answers path.now (write_refusal (map.get self.old.files path.now)) self.old.files (written self.old.files path.now at bytes.now) result (Some self.new.files) }
        ensures named { IfErr result (λ e. IsTrue (may_change e)) }
        ensures count { RoseBy 0 self.old.count self.new.count }
        ensures cause { IsErrOf result WriteError.Failed → RoseBy 1 self.old.count self.new.count }
    {
        if self.fails(Call::Write, path) {
            return Err(WriteError::Failed);
        }
        if let Some(refused) = self.held.write_refusal(alloc, path)? {
            return Err(refused);
        }
        self.held.write(alloc, path, at as usize, bytes)?;
        Ok(())
    }

    /// Removes a node that is not a directory. It fails exactly if that is planned, before any other refusal, and changes nothing then.
    fn remove_file(&mut self, alloc: Global, path: &Path) -> Result<(), WriteError>
        requires { IsTrue (is_open self.old.area path.now) }
        ensures acts { Acts Call.RemoveFile path.now (remove_file_refusal (map.get self.old.files path.now)) (map.remove self.old.files path.now) self.old result self.new }
        ensures told { Answers path.now (remove_file_refusal (map.get self.old.files path.now)) self.old.files (map.remove self.old.files path.now) result (Some self.new.files) }
        ensures named { IfErr result (λ e. IsTrue (may_change e)) }
        ensures count { RoseBy 0 self.old.count self.new.count }
        ensures cause { IsErrOf result WriteError.Failed → RoseBy 1 self.old.count self.new.count }
    {
        if self.fails(Call::RemoveFile, path) {
            return Err(WriteError::Failed);
        }
        if let Some(refused) = self.held.remove_file_refusal(alloc, path)? {
            return Err(refused);
        }
        self.held.take(alloc, path)?;
        Ok(())
    }

    /// Removes an empty directory. It fails exactly if that is planned, before any other refusal, and changes nothing then.
    fn remove_dir(&mut self, alloc: Global, path: &Path) -> Result<(), WriteError>
        requires { IsTrue (is_open self.old.area path.now) }
        ensures acts { Acts Call.RemoveDir path.now (remove_dir_refusal self.old.files path.now) (map.remove self.old.files path.now) self.old result self.new }
        ensures told { Answers path.now (remove_dir_refusal self.old.files path.now) self.old.files (map.remove self.old.files path.now) result (Some self.new.files) }
        ensures named { IfErr result (λ e. IsTrue (may_empty e)) }
        ensures count { RoseBy 0 self.old.count self.new.count }
        ensures cause { IsErrOf result WriteError.Failed → RoseBy 1 self.old.count self.new.count }
    {
        if self.fails(Call::RemoveDir, path) {
            return Err(WriteError::Failed);
        }
        if let Some(refused) = self.held.remove_dir_refusal(alloc, path)? {
            return Err(refused);
        }
        self.held.take(alloc, path)?;
        Ok(())
    }
}

impl Ground for MemGround {
    type Reader = MemReader;

    type Part = MemPart;

    /// It shares the nodes and the plan with the reader. A later call that changes them copies them first. The reader shows nothing
    /// of a part that is out.
    fn reader(&mut self, alloc: Global) -> Result<MemReader, OutOfMemory>
        ensures valid { IsTree self.old.files }
        ensures made { IfOk result (λ reader. reader ≡ record self.old { count = 0; area = nothing_lent }) }
        ensures same { self.new ≡ self.old }
    {
        let store = self.held.store(alloc)?;
        let plan = Arc::try_clone(&self.plan)?;
        Ok(MemReader::make(store, plan))
    }

    fn take_reader(&mut self, reader: MemReader)
        ensures counted { self.new ≡ record self.old { count = capped self.old.count reader.count } }
        ensures rises { self.old.count ≤ self.new.count }
    {
        self.count = self.count.saturating_add(reader.faults());
    }

    /// It moves the nodes at and under the tops to the part, and makes the place for their return. It costs these nodes, and not
    /// all, unless a reader is out.
    fn lease(&mut self, alloc: Global, tops: &[Path]) -> Result<MemPart, OutOfMemory>
        requires tops { CanLease self.old.area tops.now }
        requires parents { HaveParents tops.now self.old.files }
        ensures part { IfOk result (λ part. part ≡ record { files = leased tops.now self.old.files; planned = self.old.planned; count = 0; area = under tops.now }) }
        ensures rest { OnOk result (self.new ≡ record self.old { files = kept tops.now self.old.files; area = area_without tops.now self.old.area }) }
        ensures refused { OnErr result (self.new ≡ self.old) }
    {
        let plan = Arc::try_clone(&self.plan)?;
        let (store, tops) = self.held.lease(alloc, tops)?;
        Ok(MemPart::make(store, tops, plan))
    }

    /// The part waits in its place until the next call that may run out of memory joins it.
    fn give_back(&mut self, part: MemPart)
        requires { IsTrue (is_out part.area self.old.area) }
        ensures joins { Joins (tops_of part.area) part.files self.old.files self.new.files }
        ensures back { self.new ≡ record self.old { files = laid (tops_of part.area) part.files self.old.files; count = capped self.old.count part.count; area = area_with (tops_of part.area) self.old.area } }
        ensures rises { self.old.count ≤ self.new.count }
    {
        self.count = self.count.saturating_add(part.faults());
        let (store, tops) = part.into_parts();
        self.held.give_back(store, tops);
    }
}

impl Wide for MemGround {
    type Span = MemSpan;

    /// It fails exactly if that is planned, before it takes memory, and changes nothing then. It takes the memory of the spans,
    /// and that of the whole file for when they come back.
    fn lease_spans(
        &mut self,
        alloc: Global,
        path: &Path,
        cuts: &[u64],
    ) -> Result<Vec<MemSpan>, SpanError>
        requires open { IsTrue (is_open self.old.area path.now) }
        requires empty { IsEmptyFile (map.get self.old.files path.now) }
        requires cuts { IsTrue (are_cuts cuts.now) }
        ensures spans { IfOk result (λ spans. spans.items ≡ list_map (blank true (is_planned Call.Write path.now self.old.planned)) (pieces path.now cuts.now)) }
        ensures pieces { IfOk result (λ spans. list_map piece_of spans.items ≡ pieces path.now cuts.now) }
        ensures holds { IfOk result (λ spans. list_map held_by spans.items ≡ list_map (zeros_of (Some self.old.files)) (pieces path.now cuts.now)) }
        ensures zero { IfOk result (λ spans. All (λ span. span.count ≡ 0) spans.items) }
        ensures rest { OnOk result (self.new ≡ record self.old { files = kept (path.now ∷ []) self.old.files; area = area_cut path.now cuts.now self.old.area }) }
        ensures failed { IsErrOf result SpanError.Failed → (is_planned Call.Spans path.now self.old.planned ≡ true) × (self.new ≡ answered true self.old) }
        ensures memory { IsErrOf result SpanError.OutOfMemory → (is_planned Call.Spans path.now self.old.planned ≡ false) × (self.new ≡ self.old) }
        ensures unplanned { OnOk result (is_planned Call.Spans path.now self.old.planned ≡ false) }
        ensures cause { IsErrOf result SpanError.Failed → RoseBy 1 self.old.count self.new.count }
    {
        self.cut(alloc, path, cuts, true)
    }

    /// The file waits in its place, as a part does that came back.
    fn give_back_spans(&mut self, path: &Path, spans: Vec<MemSpan>)
        requires pieces { option_map (pieces path.now) (cuts_in path.now self.old.area) ≡ Some (list_map piece_of spans.items) }
        requires tells { All (λ span. is_some (held_by span) ≡ true) spans.items }
        ensures tree { IsRejoined path.now (joined_bytes (list_map held_by spans.items)) self.old.files self.new.files }
        ensures area { self.new.area ≡ area_whole path.now self.old.area }
        ensures planned { self.new.planned ≡ self.old.planned }
        ensures count { self.new.count ≡ capped self.old.count (sum_by (λ span. span.count) spans.items) }
        ensures rises { self.old.count ≤ self.new.count }
    {
        self.rejoin(path, spans);
    }
}
