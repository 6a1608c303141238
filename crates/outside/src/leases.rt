//! The tops of parts that are out. An implementation of `Ground` keeps them.
ghost use Rattle.std.specs.Prelude.{◌≡◌, ◌<◌, ◌++◌, ◌∷◌, [], ℕ, List, Some, None, length, slice_get, IfOk, OnErr, OnOk, IsTrue};
ghost use Rattle.std.specs.List.{list_any, remove};
ghost use Rattle.outside.specs.Lease.{without_tops, same_tops};
ghost use Rattle.path_text.specs.Path.{refusal};

use path_text::{OutOfMemory, Path};
use std::alloc::Global;
use std::marker::Model;
use std::sync::Arc;

/// The tops of a part. The part and its ground share them. A contract sees them as the list of their paths.
#[derive(Drop)]
pub struct Tops {
    paths: Arc<Vec<Path>>,
}

impl Model for Tops {
    ghost use Rattle.std.specs.Prelude.{List, ℕ};
    ghost use Rattle.std.specs.Arc.{arc_value};

    ghost Value = { List (List ℕ) };

    ghost view = { λ t. (arc_value t.paths).items };
}

impl Tops {
    /// The paths, in the order of the call that lent them.
    pub fn paths(&self) -> &[Path]
        ensures { result.now ≡ self.now }
    {
        self.paths.as_slice()
    }
}

/// The tops of all parts that are out, in the order in which they were lent. A contract sees them as the list of their lists.
#[derive(Drop)]
pub struct Lent {
    out: Vec<Tops>,
}

impl Model for Lent {
    ghost use Rattle.std.specs.Prelude.{List, ℕ};

    ghost Value = { List (List (List ℕ)) };

    ghost view = { λ l. l.out.items };
}

impl Lent {
    /// Makes a list without a part. It takes no memory.
    pub fn make(alloc: Global) -> Lent
        ensures { result ≡ [] }
    {
        Lent {
            out: Vec::new(alloc),
        }
    }

    /// Counts the parts that are out.
    pub fn len(&self) -> usize
        ensures { result ≡ length self.now }
    {
        self.out.len()
    }

    /// Lends these tops: it adds them after those that are out, and returns the tops for the part. It copies the paths once.
    /// An error changes nothing.
    pub fn lend(&mut self, alloc: Global, tops: &[Path]) -> Result<Tops, OutOfMemory>
        ensures lent { OnOk result (self.new ≡ self.old ++ tops.now ∷ []) }
        ensures tops { IfOk result (λ part. part ≡ tops.now) }
        ensures valid { OnOk result ((i : ℕ) (x : List ℕ) → slice_get tops.now i ≡ Some x → refusal x ≡ None) }
        ensures refused { OnErr result (self.new ≡ self.old) }
    {
        tell(tops);
        let paths = Arc::new(alloc, copies(alloc, tops)?)?;
        let theirs = Arc::try_clone(&paths)?;
        self.out.push(Tops { paths })?;
        Ok(Tops { paths: theirs })
    }

    /// Ends the lease of the part with these tops. It takes no memory.
    pub fn end(&mut self, tops: &Tops)
        requires { IsTrue (list_any (λ one. same_tops one tops.now) self.old) }
        ensures { self.new ≡ without_tops tops.now self.old }
    {
        let place = place_of(&self.out, tops.paths());
        self.out.remove(place);
    }
}

// Copies the paths.
fn copies(alloc: Global, paths: &[Path]) -> Result<Vec<Path>, OutOfMemory>
    ensures { IfOk result (λ copies. copies.items ≡ paths.now) }
{
    let mut copies = Vec::with_capacity(alloc, paths.len())?;
    for path in paths {
        copies.push(path.copy()?)?;
    }
    Ok(copies)
}

// Does nothing: its contract says that each of them is a path.
fn tell(paths: &[Path])
    ensures { (i : ℕ) (x : List ℕ) → slice_get paths.now i ≡ Some x → refusal x ≡ None }
{
    for path in paths {
        let _ = path.text(); // tells that it is a path
    }
}

// The index of the first list that is these tops.
fn place_of(out: &[Tops], tops: &[Path]) -> usize
    requires { IsTrue (list_any (λ one. same_tops one tops.now) out.now) }
    ensures inside { result < length out.now }
    ensures first { without_tops tops.now out.now ≡ remove out.now result }
{
    for k in 0..out.len() {
        if out[k].paths() == tops {
            return k;
        }
    }
    unreachable!()
}
