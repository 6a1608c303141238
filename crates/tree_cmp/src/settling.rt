//! The outcomes that workers found come beside their rows.
ghost use Rattle.std.specs.Prelude.{◌≡◌, map, All, OnOk, IfSome};
ghost use Rattle.shared_reads.specs.Counts.{KeepsUp};
ghost use Rattle.shared_reads.specs.Desks.{HasRoom};
ghost use Rattle.shared_reads.specs.Kept.{Holds, held, faults_of};
ghost use Rattle.tree_cmp.specs.Private.Reading.{counts};
ghost use Rattle.tree_cmp.specs.Private.Sharing.{IsOf, IsOfRow, IsSettled, unsettled, blames, some_counts};

use crate::drafts::Draft;
use crate::errors::CmpError;
use crate::reading::Outcome;
use crate::sharing::outcome_at;
use outside::Tree;
use path_text::Path;
use shared_reads::{Desk, Kept};

// Puts the outcomes that workers kept beside their rows, and lets the reader read the files of the other rows.
pub(crate) fn settle<R: Tree>(
    drafts: &mut Vec<Draft>,
    left: &Path,
    right: &Path,
    mut kept: Kept<Outcome>,
    reader: &mut R,
    desk: &mut Desk,
) -> Result<(), CmpError>
    requires room { HasRoom desk.old }
    requires unread { map unsettled drafts.old.items ≡ drafts.old.items }
    requires told { Holds (IsOfRow R.gives (R.tree reader.old) left.now right.now drafts.old.items) kept }
    ensures unsettled { map unsettled drafts.new.items ≡ drafts.old.items }
    ensures settled { OnOk result (All (IsSettled R.gives (R.tree reader.old) left.now right.now) drafts.new.items) }
    ensures counted { KeepsUp (held counts kept) (blames drafts.new.items) (R.count reader.old) (R.count reader.new) }
    ensures same { R.tree reader.new ≡ R.tree reader.old }
{
    let mut place = drafts.len();
    while place > 0 {
        place -= 1;
        let outcome = kept.take(place);
        settle_draft(&mut drafts[place], left, right, outcome, reader, desk)?;
    }
    Ok(())
}

// Puts an outcome beside a row, if its files are to be read: the one that a worker kept, or the one that the reader finds.
fn settle_draft<R: Tree>(
    draft: &mut Draft,
    left: &Path,
    right: &Path,
    kept: Option<Outcome>,
    reader: &mut R,
    desk: &mut Desk,
) -> Result<(), CmpError>
    requires room { HasRoom desk.old }
    requires unread { unsettled draft.old ≡ draft.old }
    requires told { IfSome kept (IsOf R.gives (R.tree reader.old) left.now right.now draft.old.row.path draft.old.unread) }
    ensures unsettled { unsettled draft.new ≡ draft.old }
    ensures settled { OnOk result (IsSettled R.gives (R.tree reader.old) left.now right.now draft.new) }
    ensures counted { KeepsUp (faults_of counts kept) (some_counts draft.new.outcome) (R.count reader.old) (R.count reader.new) }
    ensures same { R.tree reader.new ≡ R.tree reader.old }
    ensures room { HasRoom desk.new }
{
    let Some(size) = draft.unread else {
        return Ok(());
    };
    if let Some(outcome) = kept {
        draft.outcome = Some(outcome);
        return Ok(());
    }
    let outcome = outcome_at(left, right, &draft.row.path, size, reader, desk)?;
    draft.outcome = Some(outcome);
    Ok(())
}
