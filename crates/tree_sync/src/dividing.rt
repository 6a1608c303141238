//! The entries of the source, divided by whether the destination has them already.
ghost use Rattle.std.specs.Prelude.{◌≡◌, ◌++◌, ◌∷◌, ◌+◌, ◌<◌, ◌&&◌, [], not, if◌then◌else◌, OnOk, IfOk, is_some, nat_eq};
ghost use Rattle.std.specs.Cmp.Lexicographic.{pointwise};
ghost use Rattle.std.specs.List.Sorted.{IsStrictlySortedBy};
ghost use Rattle.path_text.specs.Order.{path_cmp};
ghost use Rattle.tree_cmp.specs.Sides.{side, IsSide};
ghost use Rattle.tree_sync.specs.PrivateSteps.{IsDivision, row_paths};
ghost use Rattle.tree_sync.specs.Syncing.{has_other, is_there};

use crate::errors::SyncError;
use crate::searching::seek_row;
use crate::telling::{agrees_at, has_other};
use flat_list::{Entry, FlatList};
use path_text::{Path, below_keeps_order};
use std::alloc::Global;
use tree_cmp::Compared;

// The entries of the source that have a stat.
#[derive(Drop)]
pub(crate) struct Division {
    // How many of them the destination has.
    pub(crate) kept: u64,
    // Those that it does not have.
    pub(crate) copied: FlatList,
    // The paths below the top at which the source has a node that is never copied.
    pub(crate) masks: Vec<Path>,
}

/// Whether the top has a stat in its list.
pub(crate) fn is_there(list: &FlatList, top: &Path) -> Result<bool, SyncError>
    ensures { IfOk result (λ there. there ≡ is_there (side top.now list.now)) }
{
    let mut cursor = list.cursor()?;
    while cursor.advance()? {
        if is_told_top(cursor.entry(), top) {
            return Ok(true);
        }
    }
    Ok(false)
}

// Whether this is the top's entry, with a stat.
fn is_told_top(entry: &Entry, top: &Path) -> bool
    ensures { result ≡ (pointwise nat_eq entry.now.path top.now && is_some entry.now.stat) }
{
    entry.path == *top && entry.stat.is_some()
}

/// Divides the entries of the source by the rows of the comparison.
pub(crate) fn divided(
    alloc: Global,
    source: &FlatList,
    top: &Path,
    found: &Compared,
) -> Result<Division, SyncError>
    requires side { IsSide (side top.now source.now) }
    requires rows { IsStrictlySortedBy path_cmp (row_paths found.now.rows) }
    ensures { IfOk result (IsDivision (side top.now source.now) found.now.rows) }
{
    below_keeps_order();
    // A list has fewer entries than there are numbers.
    let _len = source.len();
    let mut kept = 0;
    let mut copied = FlatList::make(alloc);
    let mut masks = Vec::new(alloc);
    let mut at = 0;
    let mut cursor = source.cursor()?;
    while cursor.advance()? {
        let entry = cursor.entry();
        let below = entry.path.below(top)?;
        let (here, is_row) = seek_row(found, at, &below);
        at = here;
        let agrees = agrees_at(entry.stat, found, here, is_row);
        kept = with_kept(kept, entry, agrees);
        add_wanting(&mut copied, entry, agrees)?;
        add_mask(&mut masks, entry, below)?;
    }
    Ok(Division {
        kept,
        copied,
        masks,
    })
}

// The number of kept entries with one entry more.
fn with_kept(kept: u64, entry: &Entry, agrees: bool) -> u64
    requires { kept + 1 < 18446744073709551616 }
    ensures { result ≡ (if is_some entry.now.stat && agrees then kept + 1 else kept) }
{
    if entry.stat.is_some() && agrees {
        kept + 1
    } else {
        kept
    }
}

// Adds an entry with a stat that the destination does not have.
fn add_wanting(list: &mut FlatList, entry: &Entry, agrees: bool) -> Result<(), SyncError>
    ensures { OnOk result (list.new ≡ list.old ++ (if is_some entry.now.stat && not agrees then entry.now ∷ [] else [])) }
{
    if entry.stat.is_some() && !agrees {
        list.add(entry)?;
    }
    Ok(())
}

// Adds the path of an entry that is never copied.
fn add_mask(masks: &mut Vec<Path>, entry: &Entry, below: Path) -> Result<(), SyncError>
    ensures { OnOk result (masks.new.items ≡ masks.old.items ++ (if has_other entry.now then below ∷ [] else [])) }
{
    if has_other(entry) {
        masks.push(below)?;
    }
    Ok(())
}
