//! The act on each item.
ghost use Rattle.std.specs.Prelude.{◌≡◌, ◌≢◌, ◌⊎◌, ℕ, List, IsTrue, IfOk, IfSome, is_some};
ghost use Rattle.flat_list.specs.Prelude.{RoseBy, is_open, is_top};

use crate::items::Fate;
use flat_list::Entry;
use outside::Plot;
use path_text::{OutOfMemory, Path};
use std::alloc::Global;

/// An actor does one thing at paths of parts of a ground. It shows plain data, which no act changes. Its deed is a relation of that
/// data, a path, an entry, a fate, and the nodes at and under the path before and after. A second relation says which fates may
/// come after the answers that the actor got. The second one also holds over files that show no tree.
pub trait Act<P: Plot> {
    ghost use Rattle.outside.specs.Tree.{Files};
    ghost use Rattle.level_work.specs.Acts.{IsDone};
    ghost use Rattle.entry_pages.specs.declared.entries.Entry as entries;
    ghost use Rattle.level_work.specs.declared.items.Fate as fates;

    /// The type of its data.
    ghost Plain: { Type 0 };

    /// The data by which it acts.
    ghost plain: { Self → Plain };

    /// How often it, and what it holds, have failed.
    ghost count: { Self → ℕ };

    /// Which fate an item may come to, and what that leaves at and under its path.
    ghost deed: { Plain → List ℕ → entries.Entry → fates.Fate → Files → Files → Type 0 };

    /// The type of the names that distinguish the actors.
    ghost Who: { Type 0 };

    /// Who it is. No act changes that.
    ghost who: { Self → Who };

    /// Which fates an item may come to if this actor acts on it, by the answers that it gets there.
    ghost may_come: { Who → List ℕ → entries.Entry → fates.Fate → Type 0 };

    /// How often it, and what it holds, have failed.
    fn faults(&self) -> u64
        ensures { result ≡ count self.now };

    /// Acts at one path, a top of the part. Every other path is as before, also if it is out of memory.
    fn act(
        &mut self,
        alloc: Global,
        part: &mut P,
        path: &Path,
        entry: &Entry,
    ) -> Result<Fate, OutOfMemory>
        requires top { IsTrue (is_top (P.area part.old) path.now) }
        requires open { IsTrue (is_open (P.area part.old) path.now) }
        ensures told { IfSome (P.tree part.old) (λ before. IfSome (P.tree part.new) (IsDone (deed (plain self.old)) path.now entry.now result before)) }
        ensures may_come { IfOk result (may_come (who self.old) path.now entry.now) }
        ensures who { who self.new ≡ who self.old }
        ensures named { IfOk result (λ fate. fate ≢ Fate.ParentFailed) }
        ensures tells { is_some (P.tree part.new) ≡ is_some (P.tree part.old) }
        ensures area { P.area part.new ≡ P.area part.old }
        ensures plain { plain self.new ≡ plain self.old }
        ensures part_count { RoseBy 0 (P.count part.old) (P.count part.new) }
        ensures count { RoseBy 0 (count self.old) (count self.new) }
        ensures cause { IfOk result (λ fate. fate ≡ Fate.Failed
            → (RoseBy 1 (P.count part.old) (P.count part.new)) ⊎ (RoseBy 1 (count self.old) (count self.new))) };
}
