//! The findings of a comparison.
ghost use Rattle.std.specs.Prelude.{◌≡◌, ◌<◌, ◌==◌, ◌++◌, [], length, Some, slice_get, IfOk, OnOk, map};
ghost use Rattle.std.specs.List.{filter_map, cons_option};
ghost use Rattle.tree_cmp.specs.Private.Parts.{content_by, row_by, side_missed, missed_at, missed_by, findings_of};

use crate::drafts::{Draft, two_of};
use crate::errors::CmpError;
use crate::reading::{Missing, Outcome};
use crate::rows::{Missed, Row, Two};
use path_text::Path;
use std::alloc::Global;
use std::marker::Model;

/// The findings of a comparison. Their value is the rows, the files whose reads failed, and the files that reads showed to have changed.
#[derive(Debug, Drop)]
pub struct Compared {
    rows: Vec<Row>,
    failed: Vec<Missed>,
    changed: Vec<Missed>,
}

impl Model for Compared {
    ghost use Rattle.tree_cmp.specs.Rows.{Findings};

    ghost Value = { Findings };

    ghost view = { λ c. record { rows = c.rows.items; failed = c.failed.items; changed = c.changed.items } };
}

impl Compared {
    // The findings that the rows make after their files are read.
    pub(crate) fn of(
        alloc: Global,
        drafts: Vec<Draft>,
        left: &Path,
        right: &Path,
    ) -> Result<Compared, CmpError>
        ensures { IfOk result (λ found. found ≡ findings_of left.now right.now drafts.items) }
    {
        let failed = missed(alloc, &drafts, Missing::Failed, left, right)?;
        let changed = missed(alloc, &drafts, Missing::Changed, left, right)?;
        let rows = rows_of(alloc, drafts)?;
        Ok(Compared {
            rows,
            failed,
            changed,
        })
    }

    /// The files whose reads failed, in the order of the rows.
    pub fn failed(&self) -> &[Missed]
        ensures { result.now ≡ self.now.failed }
    {
        &self.failed
    }

    /// How many rows there are.
    pub fn len(&self) -> usize
        ensures { result ≡ length self.now.rows }
    {
        self.rows.len()
    }

    /// The files of which a read found fewer bytes than their stat gives, or no file, in the order of the rows.
    pub fn changed(&self) -> &[Missed]
        ensures { result.now ≡ self.now.changed }
    {
        &self.changed
    }

    /// The row at a place, in path order.
    pub fn row(&self, k: usize) -> &Row
        requires { k < length self.now.rows }
        ensures { slice_get self.now.rows k ≡ Some result.now }
    {
        &self.rows[k]
    }

    /// Whether there are no rows.
    pub fn is_empty(&self) -> bool
        ensures { result ≡ (length self.now.rows == 0) }
    {
        self.rows.is_empty()
    }
}

fn rows_of(alloc: Global, drafts: Vec<Draft>) -> Result<Vec<Row>, CmpError>
    ensures { IfOk result (λ rows. rows.items ≡ map row_by drafts.items) }
{
    Ok(drafts.into_iter().map(row_of).collect(alloc)?)
}

fn row_of(draft: Draft) -> Row
    ensures { result ≡ row_by draft }
{
    let content = content_of(draft.row.content, draft.outcome);
    Row {
        content,
        ..draft.row
    }
}

fn content_of(size: Two, outcome: Option<Outcome>) -> Two
    ensures { result ≡ content_by size outcome }
{
    match outcome {
        None => size,
        Some(Outcome::Same(same)) => two_of(same),
        Some(Outcome::Missed(_, _)) => Two::NoValue,
    }
}

// The files that were missed for this reason.
fn missed(
    alloc: Global,
    drafts: &[Draft],
    why: Missing,
    left: &Path,
    right: &Path,
) -> Result<Vec<Missed>, CmpError>
    ensures { IfOk result (λ missed. missed.items ≡ filter_map (missed_by why left.now right.now) drafts.now) }
{
    let mut missed = Vec::new(alloc);
    for draft in drafts {
        add_missed(&mut missed, draft, why, left, right)?;
    }
    Ok(missed)
}

fn add_missed(
    missed: &mut Vec<Missed>,
    draft: &Draft,
    why: Missing,
    left: &Path,
    right: &Path,
) -> Result<(), CmpError>
    ensures { OnOk result (missed.new.items ≡ missed.old.items ++ cons_option (missed_by why left.now right.now draft.now) []) }
{
    let Some(dest) = side_missed(why, draft.outcome) else {
        return Ok(());
    };
    let file = missed_at(left, right, &draft.row.path, dest)?;
    missed.push(file)?;
    Ok(())
}

fn missed_at(left: &Path, right: &Path, path: &Path, dest: bool) -> Result<Missed, CmpError>
    ensures { IfOk result (λ m. m ≡ missed_at left.now right.now path.now dest) }
{
    let top = if dest { right } else { left };
    let path = Path::graft(top, path)?;
    Ok(Missed { path, dest })
}

fn side_missed(why: Missing, outcome: Option<Outcome>) -> Option<bool>
    ensures { result ≡ side_missed why outcome }
{
    match (why, outcome) {
        (Missing::Failed, Some(Outcome::Missed(dest, Missing::Failed))) => Some(dest),
        (Missing::Changed, Some(Outcome::Missed(dest, Missing::Changed))) => Some(dest),
        _ => None,
    }
}
