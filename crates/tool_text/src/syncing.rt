//! The line of dsync.
ghost use Rattle.std.specs.Prelude.{};
ghost use Rattle.tool_text.specs.PrivateDrafts.{Adds};
ghost use Rattle.tool_text.specs.Synced.{synced_line};

use crate::drafts::Draft;
use crate::listing::put_count;
use path_text::OutOfMemory;

/// How many entries dsync copied, deleted and kept, and the number of its failure notes.
#[derive(Clone, Copy, Debug, Drop, PartialEq, Eq)]
pub struct SyncCounts {
    /// Entries of the source that were copied to the destination.
    pub copied: u64,
    /// Entries of the destination that were deleted.
    pub removed: u64,
    /// Entries of the source that the destination had already.
    pub kept: u64,
    /// Failure notes of the run.
    pub failed: u64,
}

/// Adds the line of dsync.
pub(crate) fn add_synced(draft: &mut Draft, counts: &SyncCounts) -> Result<(), OutOfMemory>
    ensures { Adds (synced_line counts.now) draft.old draft.new result }
{
    put_count(draft, "synced ", counts.copied)?;
    put_count(draft, " removed ", counts.removed)?;
    put_count(draft, " kept ", counts.kept)?;
    put_count(draft, " failed ", counts.failed)?;
    draft.push(b'\n')
}
