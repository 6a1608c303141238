//! Paths on their way to a queue.
ghost use Rattle.std.specs.Prelude.{◌≡◌, ◌==◌, ◌++◌, ◌∷◌, [], length, OnOk, OnErr};

use path_text::{OutOfMemory, Path};
use std::alloc::Global;
use std::collections::VecDeque;
use std::marker::Model;

/// Paths on their way to a queue, seen as their list.
#[derive(Drop)]
pub struct Batch {
    pub(crate) paths: VecDeque<Path>,
}

impl Batch {
    /// A batch with no path.
    pub fn make(alloc: Global) -> Batch
        ensures { result ≡ [] }
    {
        Batch {
            paths: VecDeque::new(alloc),
        }
    }

    /// Adds a path. A refusal drops the path.
    pub fn push(&mut self, path: Path) -> Result<(), OutOfMemory>
        ensures ok { OnOk result (self.new ≡ self.old ++ path ∷ []) }
        ensures err { OnErr result (self.new ≡ self.old) }
    {
        self.paths.push_back(path)?;
        Ok(())
    }

    /// Drops all its paths, and keeps their memory for the next ones.
    pub fn clear(&mut self)
        ensures { self.new ≡ [] }
    {
        self.paths.clear()
    }

    /// Whether it holds none.
    pub fn is_empty(&self) -> bool
        ensures { result ≡ (length self.now == 0) }
    {
        self.paths.is_empty()
    }

    /// How many paths it holds.
    pub fn len(&self) -> usize
        ensures { result ≡ length self.now }
    {
        self.paths.len()
    }
}

impl Model for Batch {
    ghost use Rattle.std.specs.Prelude.{List, ℕ};

    ghost Value = { List (List ℕ) };

    ghost view = { λ b. b.paths.items };
}
