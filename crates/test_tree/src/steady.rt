//! Files that never fail.
ghost use Rattle.std.specs.Prelude.{◌≡◌, ◌≢◌, [], Some, Err, IsTrue, IfErr};
ghost use Rattle.std.specs.FinMap as map;
ghost use Rattle.outside.specs.Writes.{is_open, make_refusal, write_refusal, remove_file_refusal, remove_dir_refusal};
ghost use Rattle.outside.specs.Writes.{empty_dir, new_file, new_link, written, HasPlace, Answers, may_make, may_change, may_empty};

use files_mem::{MemGround, MemPart};
use outside::{LinkText, Plot, WriteError};
use path_text::Path;
use std::alloc::Global;
use std::marker::Model;

/// Files in memory that tell their nodes, and of which a contract can say that they never fail.
pub trait Nodes: Plot {
    ghost use Rattle.std.specs.Prelude.{◌≡◌, ◌≢◌, ℕ, List, Result, Some, Err};
    ghost use Rattle.outside.specs.Tree.{Files};
    ghost use Rattle.outside.specs.Asked.{Write};
    ghost use Rattle.outside.specs.declared.plots.WriteError.{WriteError};
    ghost use Rattle.outside.specs.declared.plots.WriteError.TheVariants as refused;

    /// The nodes by their paths.
    ghost files: { Self → Files };

    /// No call of them fails.
    ghost is_steady: { Self → Type 0 };

    /// The nodes are the tree that they tell.
    ghost told: { (x : Self) → Self.tree x ≡ Some (files x) };

    /// A call that writes does not fail, and leaves them as steady as they were.
    ghost stays: { (before : Self) (path : List ℕ) (write : Write) (result : Result (Unit {0}) WriteError) (new : Self) → Self.gives before path write result new → is_steady before → is_steady new × (result ≢ Err refused.Failed) };
}

impl Nodes for MemGround {
    ghost use Rattle.files_mem.specs.Steady.{IsSteady};
    ghost use Rattle.std.specs.Prelude.{refl};

    ghost files = { λ g. g.files };

    ghost is_steady = { IsSteady };

    ghost told = { λ _. refl };

    ghost stays = { λ _ _ _ _ _ given. given };
}

impl Nodes for MemPart {
    ghost use Rattle.files_mem.specs.Steady.{IsSteady};
    ghost use Rattle.std.specs.Prelude.{refl};

    ghost files = { λ p. p.files };

    ghost is_steady = { IsSteady };

    ghost told = { λ _. refl };

    ghost stays = { λ _ _ _ _ _ given. given };
}

/// Files in memory that never fail. A contract sees them as the nodes by their paths, and the area that may be written.
#[derive(Drop)]
pub struct Steady<N: Nodes> {
    pub(crate) nodes: N,
}

impl<N: Nodes> Model for Steady<N> {
    ghost use Rattle.std.specs.Coded.{coded×};
    ghost use Rattle.outside.specs.Tree.{Files};
    ghost use Rattle.outside.specs.Codes.{files_code, area_code};
    ghost use Rattle.outside.specs.Writes.{Area};

    ghost Value = { Files × Area };

    ghost coded = { coded× files_code area_code };

    ghost view = { λ s. (N.files s.nodes, N.area s.nodes) };

    ghost invariant = { λ s. N.is_steady s.nodes };
}

impl<N: Nodes> Plot for Steady<N> {
    ghost use Rattle.std.specs.Prelude.{Some};

    ghost tree = { λ s. Some s.0 };

    ghost count = { λ _. 0 };

    ghost area = { λ s. s.1 };

    /// It is 0. The contract also says that the nodes are a tree.
    fn faults(&self) -> u64 {
        let _ = self.nodes.faults();
        0
    }

    /// The call never fails.
    fn make_dir(&mut self, alloc: Global, path: &Path) -> Result<(), WriteError>
        requires { IsTrue (is_open self.old.1 path.now) }
        ensures told { Answers path.now (make_refusal self.old.1 self.old.0 path.now) self.old.0 (map.insert self.old.0 path.now empty_dir) result (Some self.new.0) }
        ensures named { IfErr result (λ e. IsTrue (may_make e)) }
        ensures area { self.new.1 ≡ self.old.1 }
        ensures works { result ≢ Err WriteError.Failed }
    {
        self.nodes.make_dir(alloc, path)
    }

    /// The call never fails.
    fn make_file(&mut self, alloc: Global, path: &Path) -> Result<(), WriteError>
        requires { IsTrue (is_open self.old.1 path.now) }
        ensures told { Answers path.now (make_refusal self.old.1 self.old.0 path.now) self.old.0 (map.insert self.old.0 path.now (new_file [])) result (Some self.new.0) }
        ensures named { IfErr result (λ e. IsTrue (may_make e)) }
        ensures area { self.new.1 ≡ self.old.1 }
        ensures works { result ≢ Err WriteError.Failed }
    {
        self.nodes.make_file(alloc, path)
    }

    /// The call never fails.
    fn make_link(&mut self, alloc: Global, path: &Path, text: &LinkText) -> Result<(), WriteError>
        requires { IsTrue (is_open self.old.1 path.now) }
        ensures told { Answers path.now (make_refusal self.old.1 self.old.0 path.now) self.old.0 (map.insert self.old.0 path.now (new_link text.now)) result (Some self.new.0) }
        ensures named { IfErr result (λ e. IsTrue (may_make e)) }
        ensures area { self.new.1 ≡ self.old.1 }
        ensures works { result ≢ Err WriteError.Failed }
    {
        self.nodes.make_link(alloc, path, text)
    }

    /// The call never fails.
    fn write_at(
        &mut self,
        alloc: Global,
        path: &Path,
        at: u64,
        bytes: &[u8],
    ) -> Result<(), WriteError>
        requires open { IsTrue (is_open self.old.1 path.now) }
        requires place { HasPlace at (map.get self.old.0 path.now) }
        ensures told { Answers path.now (write_refusal (map.get self.old.0 path.now)) self.old.0 (written self.old.0 path.now at bytes.now) result (Some self.new.0) }
        ensures named { IfErr result (λ e. IsTrue (may_change e)) }
        ensures area { self.new.1 ≡ self.old.1 }
        ensures works { result ≢ Err WriteError.Failed }
    {
        self.nodes.write_at(alloc, path, at, bytes)
    }

    /// The call never fails.
    fn remove_file(&mut self, alloc: Global, path: &Path) -> Result<(), WriteError>
        requires { IsTrue (is_open self.old.1 path.now) }
        ensures told { Answers path.now (remove_file_refusal (map.get self.old.0 path.now)) self.old.0 (map.remove self.old.0 path.now) result (Some self.new.0) }
        ensures named { IfErr result (λ e. IsTrue (may_change e)) }
        ensures area { self.new.1 ≡ self.old.1 }
        ensures works { result ≢ Err WriteError.Failed }
    {
        self.nodes.remove_file(alloc, path)
    }

    /// The call never fails.
    fn remove_dir(&mut self, alloc: Global, path: &Path) -> Result<(), WriteError>
        requires { IsTrue (is_open self.old.1 path.now) }
        ensures told { Answers path.now (remove_dir_refusal self.old.0 path.now) self.old.0 (map.remove self.old.0 path.now) result (Some self.new.0) }
        ensures named { IfErr result (λ e. IsTrue (may_empty e)) }
        ensures area { self.new.1 ≡ self.old.1 }
        ensures works { result ≢ Err WriteError.Failed }
    {
        self.nodes.remove_dir(alloc, path)
    }
}
