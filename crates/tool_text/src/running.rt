//! The lines of the reports on a run.
ghost use Rattle.std.specs.Prelude.{};
ghost use Rattle.std.specs.Fmt.{decimal};
ghost use Rattle.tool_text.specs.PrivateDrafts.{Adds};
ghost use Rattle.tool_text.specs.Runs.{trace_lines, share_line, share_lines, progress_line, progress_lines};

use crate::drafts::Draft;
use crate::listing::put_count;
use crate::numbers::put_wide;
use circle_run::Share;
use path_text::OutOfMemory;
use ring_core::Event;

/// Adds a line for each event.
pub(crate) fn add_trace(draft: &mut Draft, events: &[Event]) -> Result<(), OutOfMemory>
    ensures { Adds (trace_lines events.now) draft.old draft.new result }
{
    for event in events {
        draft.put_event(event)?;
    }
    Ok(())
}

/// Adds a line for each rank.
pub(crate) fn add_shares(draft: &mut Draft, shares: &[Share]) -> Result<(), OutOfMemory>
    ensures { Adds (share_lines shares.now) draft.old draft.new result }
{
    for (rank, share) in shares.iter().enumerate() {
        add_share(draft, rank as u64, share)?;
    }
    Ok(())
}

fn add_share(draft: &mut Draft, rank: u64, share: &Share) -> Result<(), OutOfMemory>
    ensures { Adds (share_line rank share.now) draft.old draft.new result }
{
    put_count(draft, "rank ", rank)?;
    put_count(draft, " handled ", share.handled)?;
    draft.extend(b" given ")?;
    put_wide(draft, share.given)?;
    draft.extend(b" taken ")?;
    put_wide(draft, share.taken)?;
    draft.push(b'\n')
}

/// Adds a line for each count.
pub(crate) fn add_progress(draft: &mut Draft, sums: &[u64]) -> Result<(), OutOfMemory>
    ensures { Adds (progress_lines sums.now) draft.old draft.new result }
{
    for sum in sums {
        add_sum(draft, *sum)?;
    }
    Ok(())
}

fn add_sum(draft: &mut Draft, sum: u64) -> Result<(), OutOfMemory>
    ensures { Adds (progress_line sum) draft.old draft.new result }
{
    put_count(draft, "progress ", sum)?;
    draft.push(b'\n')
}
