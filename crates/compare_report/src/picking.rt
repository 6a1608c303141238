//! The entries of a list at some paths.
ghost use Rattle.std.specs.Prelude.{◌≡◌, ◌++◌, ◌∷◌, ◌&&◌, if◌then◌else◌};
ghost use Rattle.compare_report.specs.Prelude.{[], not, OnOk, IfOk, filter, nat_eq, pointwise, list_any, IsStrictlySortedBy, path_cmp, paths, side, IsSide};
ghost use Rattle.compare_report.specs.Prelude.{IsPassed};
ghost use Rattle.compare_report.specs.Outputs.{picks, IsJoined};
ghost use Rattle.compare_report.specs.PrivatePicks.{picks_but};

use flat_list::{Entry, FlatList};
use path_text::{OutOfMemory, Path, below_keeps_order};
use run_entries::Sides;
use std::alloc::Global;
use std::cmp::Ordering;

/// The entries of both sides at these paths below their tops, in path order, each path once. Of two entries at one path it
/// has that of the source. The paths ascend, and each list is read once.
pub(crate) fn joined(
    alloc: Global,
    sides: &Sides,
    of_left: &[Path],
    of_right: &[Path],
) -> Result<FlatList, OutOfMemory>
    requires left { IsSide (side sides.now.left_top sides.now.left) }
    requires right { IsSide (side sides.now.right_top sides.now.right) }
    requires of_left { IsStrictlySortedBy path_cmp of_left.now }
    requires of_right { IsStrictlySortedBy path_cmp of_right.now }
    ensures { IfOk result (IsJoined (filter (picks sides.now.left_top of_left.now) sides.now.left) (filter
        (picks sides.now.right_top of_right.now) sides.now.right)) }
{
    let mut list = FlatList::make(alloc);
    add_picked(&mut list, &sides.left, &sides.left_top, of_left, &[])?;
    let given = paths_of(alloc, &list)?;
    add_picked(&mut list, &sides.right, &sides.right_top, of_right, &given)?;
    list.sort_path()?;
    Ok(list)
}

// The paths of the entries.
fn paths_of(alloc: Global, list: &FlatList) -> Result<Vec<Path>, OutOfMemory>
    ensures { IfOk result (λ all. all.items ≡ paths list.now) }
{
    let mut all = Vec::new(alloc);
    let mut cursor = list.cursor()?;
    while cursor.advance()? {
        all.push(cursor.entry().path.copy()?)?;
    }
    Ok(all)
}

// Adds the entries whose paths below the top are wanted, but for those whose own paths stand among others. One pass over all.
fn add_picked(
    list: &mut FlatList,
    entries: &FlatList,
    top: &Path,
    wanted: &[Path],
    but: &[Path],
) -> Result<(), OutOfMemory>
    requires side { IsSide (side top.now entries.now) }
    requires wanted { IsStrictlySortedBy path_cmp wanted.now }
    requires but { IsStrictlySortedBy path_cmp but.now }
    ensures { OnOk result (list.new ≡ list.old ++ filter (picks_but top.now wanted.now but.now) entries.now) }
{
    below_keeps_order();
    let mut at = 0;
    let mut past = 0;
    let mut cursor = entries.cursor()?;
    while cursor.advance()? {
        let entry = cursor.entry();
        let below = entry.path.below(top)?;
        let (at_here, is_wanted) = seek(wanted, at, &below);
        let (past_here, is_there) = seek(but, past, &entry.path);
        at = at_here;
        past = past_here;
        add_if(list, entry, is_wanted, is_there)?;
    }
    Ok(())
}

// Adds an entry that is wanted and does not stand among the others.
fn add_if(
    list: &mut FlatList,
    entry: &Entry,
    is_wanted: bool,
    is_there: bool,
) -> Result<(), OutOfMemory>
    ensures { OnOk result (list.new ≡ list.old ++ (if is_wanted && not is_there then entry.now ∷ [] else [])) }
{
    if is_wanted && !is_there {
        list.add(entry)?;
    }
    Ok(())
}

// Goes on among paths that ascend, from a place before which all paths come before the sought one. Gives the first place whose
// path does not come before it, and whether that path is the sought one.
fn seek(all: &[Path], from: usize, sought: &Path) -> (usize, bool)
    requires ascend { IsStrictlySortedBy path_cmp all.now }
    requires passed { IsPassed all.now from sought.now }
    ensures passed { IsPassed all.now result.0 sought.now }
    ensures found { result.1 ≡ list_any (pointwise nat_eq sought.now) all.now }
{
    for at in from..all.len() {
        match all[at].cmp(sought) {
            Ordering::Less => {}
            Ordering::Equal => return (at, true),
            Ordering::Greater => return (at, false),
        }
    }
    (all.len(), false)
}
