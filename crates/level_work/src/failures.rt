//! The paths of items that did not come to `Done`.
ghost use Rattle.std.specs.Prelude.{◌≡◌, ◌||◌, ℕ, List, [], false, nat_eq, IfOk, OnOk};
ghost use Rattle.std.specs.Cmp.Lexicographic.{pointwise};
ghost use Rattle.flat_list.specs.Prelude.{refusal, parent_of, is_root};
ghost use Rattle.level_work.specs.PathSets.{has_path};

use path_text::{OutOfMemory, Path};
use std::alloc::Global;
use std::collections::BTreeSet;

/// A set of paths: those of items that did not come to `Done`.
#[derive(Drop)]
pub struct Paths {
    /// The paths.
    pub set: BTreeSet<Path>,
}

impl Paths {
    /// None yet. This takes no memory.
    pub fn none(alloc: Global) -> Paths
        ensures { result.set.keys ≡ [] }
    {
        Paths {
            set: BTreeSet::new(alloc),
        }
    }

    /// Whether the parent of this path is among them. If there are none, this takes no memory.
    pub fn has_parent_of(&self, path: &Path) -> Result<bool, OutOfMemory>
        requires { is_root path.now ≡ false }
        ensures { IfOk result (λ has. has ≡ has_path self.now.set.keys (parent_of path.now)) }
    {
        if self.set.is_empty() {
            return Ok(false);
        }
        let _ = path.text(); // tells that it is a path
        let Some(parent) = path.parent()? else {
            unreachable!()
        };
        Ok(self.has(&parent))
    }

    // Whether the path is among them.
    fn has(&self, path: &Path) -> bool
        ensures { result ≡ has_path self.now.set.keys path.now }
    {
        self.set.contains(path)
    }

    /// One more.
    pub fn add(&mut self, path: &Path) -> Result<(), OutOfMemory>
        ensures { OnOk result ((q : List ℕ) → has_path self.new.set.keys q ≡ (pointwise nat_eq q path.now || has_path self.old.set.keys q)) }
    {
        self.set.insert(path.copy()?)?;
        Ok(())
    }
}
