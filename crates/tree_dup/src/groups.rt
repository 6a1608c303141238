//! Files of equal content.
ghost use Rattle.std.specs.Prelude.{◌≡◌, ◌++◌, ◌∷◌, [], ◌<◌, ◌==◌, length, Some, OnOk, OnErr, slice_get};
ghost use Rattle.std.specs.List.Sorted.{IsPermutation, IsSorted, IsSortedByKey};
ghost use Rattle.path_text.specs.Order.{path_cmp};
ghost use Rattle.tree_dup.specs.Grouping.{first_path};
ghost use Rattle.tree_dup.specs.Shown.{told_of};
ghost use Rattle.tree_dup.specs.Private.Dealing.{with_missed};

use crate::errors::DupError;
use path_text::{Path, compare};
use std::alloc::Global;
use std::cmp::Ordering;
use std::marker::Model;
use tree_cmp::Missing;

/// Files of one content.
#[derive(Debug, Drop)]
pub struct Group {
    /// How many bytes each has.
    pub size: u64,
    /// Their SHA-256.
    pub digest: [u8; 32],
    /// Their paths, in path order.
    pub paths: Vec<Path>,
}

/// Files grouped by their content. Their value is the groups, the files whose reads failed, and the files that reads showed to have
/// changed.
#[derive(Debug, Drop)]
pub struct Groups {
    groups: Vec<Group>,
    failed: Vec<Path>,
    changed: Vec<Path>,
}

impl Model for Groups {
    ghost use Rattle.std.specs.Prelude.{map};
    ghost use Rattle.tree_dup.specs.Told.{Told, Grouping};

    ghost Value = { Grouping };

    ghost use Rattle.tree_dup.specs.Shown.{told_of};

    ghost view = { λ g. record { groups = map told_of g.groups.items; failed = g.failed.items; changed = g.changed.items } };
}

impl Groups {
    // No group, and nothing missed.
    pub(crate) fn new(alloc: Global) -> Groups
        ensures groups { result.groups ≡ [] }
        ensures failed { result.failed ≡ [] }
        ensures changed { result.changed ≡ [] }
    {
        Groups {
            groups: Vec::new(alloc),
            failed: Vec::new(alloc),
            changed: Vec::new(alloc),
        }
    }

    // A read of the file gave nothing.
    pub(crate) fn miss(&mut self, path: Path, why: Missing) -> Result<(), DupError>
        ensures ok { OnOk result (self.new ≡ with_missed why path self.old) }
        ensures err { OnErr result (self.new ≡ self.old) }
    {
        match why {
            Missing::Failed => Ok(self.failed.push(path)?),
            Missing::Changed => Ok(self.changed.push(path)?),
        }
    }

    pub(crate) fn add(&mut self, group: Group) -> Result<(), DupError>
        ensures ok { OnOk result (self.new ≡ record self.old { groups = self.old.groups ++ told_of group ∷ [] }) }
        ensures err { OnErr result (self.new ≡ self.old) }
    {
        self.groups.push(group)?;
        Ok(())
    }

    // Puts all in path order, the groups by their first paths.
    pub(crate) fn sort(&mut self)
        ensures groups { IsPermutation self.old.groups self.new.groups }
        ensures failed { IsPermutation self.old.failed self.new.failed }
        ensures changed { IsPermutation self.old.changed self.new.changed }
        ensures by_first { IsSortedByKey first_path path_cmp self.new.groups }
        ensures by_failed { IsSorted path_cmp self.new.failed }
        ensures by_changed { IsSorted path_cmp self.new.changed }
    {
        self.groups.sort_unstable_by(|a, b| by_first(a, b));
        self.failed.sort_unstable();
        self.changed.sort_unstable();
    }

    /// How many groups there are.
    pub fn len(&self) -> usize
        ensures { result ≡ length self.now.groups }
    {
        self.groups.len()
    }

    /// Whether there are no groups.
    pub fn is_empty(&self) -> bool
        ensures { result ≡ (length self.now.groups == 0) }
    {
        self.groups.is_empty()
    }

    /// The group at a place, in the order of first paths.
    pub fn group(&self, k: usize) -> &Group
        requires { k < length self.now.groups }
        ensures { slice_get self.now.groups k ≡ Some (told_of result.now) }
    {
        &self.groups[k]
    }

    /// The files whose reads failed, in path order.
    pub fn failed(&self) -> &[Path]
        ensures { result.now ≡ self.now.failed }
    {
        &self.failed
    }

    /// The files of which a read found fewer bytes than their stat gives, or no file, in path order.
    pub fn changed(&self) -> &[Path]
        ensures { result.now ≡ self.now.changed }
    {
        &self.changed
    }
}

// Groups by their first paths.
fn by_first(a: &Group, b: &Group) -> Ordering
    ensures { result ≡ path_cmp (first_path (told_of a.now)) (first_path (told_of b.now)) }
{
    compare(first_text(a), first_text(b))
}

fn first_text(group: &Group) -> &[u8]
    ensures { result.now ≡ first_path (told_of group.now) }
{
    match group.paths.first() {
        Some(path) => path.text().as_bytes(),
        None => &[],
    }
}
