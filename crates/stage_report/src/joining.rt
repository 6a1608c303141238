//! The list of several stages.
ghost use Rattle.stage_report.specs.Prelude.{IfOk, IsStrictlySortedBy, path_cmp, IsJoined, paths_of};

use flat_list::FlatList;
use path_text::OutOfMemory;
use std::alloc::Global;

/// The entries of earlier stages and those of this one, together in path order. Each list is in path order, so they are merged.
pub(crate) fn joined(
    alloc: Global,
    done: FlatList,
    later: FlatList,
) -> Result<FlatList, OutOfMemory>
    requires ascend { IsStrictlySortedBy path_cmp (paths_of later) }
    ensures { IfOk result (IsJoined done later) }
{
    if done.is_empty() {
        return Ok(later);
    }
    let mut both = Vec::with_capacity(alloc, 2)?;
    both.push(done)?;
    both.push(later)?;
    FlatList::from_lists(alloc, both)
}
