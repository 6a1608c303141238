//! The entries of the destination that do not belong there.
ghost use Rattle.std.specs.Prelude.{◌≡◌, ◌++◌, ◌∷◌, ◌&&◌, [], not, if◌then◌else◌, OnOk, IfOk, filter, is_some};
ghost use Rattle.std.specs.List.Sorted.{IsStrictlySortedBy};
ghost use Rattle.path_text.specs.Order.{path_cmp};
ghost use Rattle.tree_cmp.specs.Sides.{side, IsSide};
ghost use Rattle.tree_sync.specs.PrivateSteps.{is_chosen_off, row_paths};

use crate::errors::SyncError;
use crate::searching::{seek_mask, seek_row};
use crate::telling::is_foreign_at;
use flat_list::{Entry, FlatList};
use path_text::{Path, below_keeps_order, under_is_contiguous};
use std::alloc::Global;
use tree_cmp::Compared;

/// The entries of the destination that are removed: with `delete` those that do not belong there, and else none.
pub(crate) fn chosen(
    alloc: Global,
    dest: &FlatList,
    top: &Path,
    found: &Compared,
    masks: &[Path],
    delete: bool,
) -> Result<FlatList, SyncError>
    requires side { IsSide (side top.now dest.now) }
    requires rows { IsStrictlySortedBy path_cmp (row_paths found.now.rows) }
    requires masks { IsStrictlySortedBy path_cmp masks.now }
    ensures { IfOk result (λ chosen. chosen ≡ (if delete then filter (is_chosen_off masks.now (side top.now dest.now) found.now.rows) dest.now else [])) }
{
    if !delete {
        return Ok(FlatList::make(alloc));
    }
    foreign(alloc, dest, top, found, masks)
}

// The entries with a stat that do not belong in the destination, but those at and under masked paths.
fn foreign(
    alloc: Global,
    dest: &FlatList,
    top: &Path,
    found: &Compared,
    masks: &[Path],
) -> Result<FlatList, SyncError>
    requires side { IsSide (side top.now dest.now) }
    requires rows { IsStrictlySortedBy path_cmp (row_paths found.now.rows) }
    requires masks { IsStrictlySortedBy path_cmp masks.now }
    ensures { IfOk result (λ chosen. chosen ≡ filter (is_chosen_off masks.now (side top.now dest.now) found.now.rows) dest.now) }
{
    below_keeps_order();
    under_is_contiguous();
    let mut chosen = FlatList::make(alloc);
    let mut at = 0;
    let mut past = 0;
    let mut cursor = dest.cursor()?;
    while cursor.advance()? {
        let entry = cursor.entry();
        let below = entry.path.below(top)?;
        let (at_here, is_row) = seek_row(found, at, &below);
        let (past_here, is_masked) = seek_mask(masks, past, &below);
        at = at_here;
        past = past_here;
        let is_foreign = is_foreign_at(found, at_here, is_row);
        add_foreign(&mut chosen, entry, is_foreign, is_masked)?;
    }
    Ok(chosen)
}

// Adds an entry with a stat that does not belong there and is not masked.
fn add_foreign(
    list: &mut FlatList,
    entry: &Entry,
    is_foreign: bool,
    is_masked: bool,
) -> Result<(), SyncError>
    ensures { OnOk result (list.new ≡ list.old ++ (if is_some entry.now.stat && (is_foreign && not is_masked) then entry.now ∷ [] else [])) }
{
    if entry.stat.is_some() && is_foreign && !is_masked {
        list.add(entry)?;
    }
    Ok(())
}
