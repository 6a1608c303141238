//! Searches through ascending rows and paths, each of which goes on from its last place.
ghost use Rattle.std.specs.Prelude.{◌≡◌, ◌<◌, true, None, length};
ghost use Rattle.std.specs.List.{list_any};
ghost use Rattle.std.specs.List.Sorted.{IsStrictlySortedBy};
ghost use Rattle.flat_list.specs.Prelude.{refusal, path_cmp, is_within};
ghost use Rattle.tree_cmp.specs.Passes.{IsPassed};
ghost use Rattle.tree_sync.specs.PrivateSearch.{IsCleared};
ghost use Rattle.tree_sync.specs.PrivateSteps.{row_paths, row_if};
ghost use Rattle.tree_sync.specs.Syncing.{row_at};

use path_text::{Path, path_order_is_preorder};
use std::cmp::Ordering;
use tree_cmp::Compared;

/// Searches the rows from a place on, if all rows before that place come before the path. It answers the place of the first row that
/// does not come before the path, and whether it is the row of that path.
pub(crate) fn seek_row(found: &Compared, from: usize, sought: &Path) -> (usize, bool)
    requires ascend { IsStrictlySortedBy path_cmp (row_paths found.now.rows) }
    requires passed { IsPassed (row_paths found.now.rows) from sought.now }
    ensures passed { IsPassed (row_paths found.now.rows) result.0 sought.now }
    ensures row { row_at found.now.rows sought.now ≡ row_if result.1 found.now.rows result.0 }
    ensures inside { result.1 ≡ true → result.0 < length found.now.rows }
{
    for at in from..found.len() {
        match found.row(at).path.cmp(sought) {
            Ordering::Less => {}
            Ordering::Equal => return (at, true),
            Ordering::Greater => return (at, false),
        }
    }
    (found.len(), false)
}

/// Searches ascending paths from a place on: it goes past those that come before the path and that the path is not under. It also
/// answers whether the path is one of all, or under one.
pub(crate) fn seek_mask(masks: &[Path], from: usize, sought: &Path) -> (usize, bool)
    requires ascend { IsStrictlySortedBy path_cmp masks.now }
    requires cleared { IsCleared masks.now from sought.now }
    ensures cleared { IsCleared masks.now result.0 sought.now }
    ensures masked { result.1 ≡ list_any (is_within sought.now) masks.now }
    ensures valid { refusal sought.now ≡ None }
{
    path_order_is_preorder();
    let _ = sought.text(); // tells that it is a path
    for at in from..masks.len() {
        let mask = &masks[at];
        let _ = mask.text();
        if sought.is_within(mask) {
            return (at, true);
        }
        match mask.cmp(sought) {
            Ordering::Less => {}
            // The path itself is within it.
            Ordering::Equal => return (at, false),
            Ordering::Greater => return (at, false),
        }
    }
    (masks.len(), false)
}
