//! The report of a sync.
ghost use Rattle.std.specs.Prelude.{◌≡◌};
ghost use Rattle.std.specs.List.{count_by};
ghost use Rattle.level_work.specs.Counts.{is_done};
ghost use Rattle.tree_sync.specs.PrivateSteps.{results_of};

use crate::planning::Plan;
use level_work::{Fate, number_done};
use path_text::Path;
use std::marker::Model;
use tree_copy::CopyReport;
use tree_remove::RemoveReport;

/// The report of a sync. It has the fates of the copies by the paths of the source, and those of the removals by the paths of the
/// destination. It also has the number of kept entries, and the files whose reads failed or showed a change.
#[derive(Debug, Drop)]
pub struct SyncReport {
    copies: Vec<(Path, Fate)>,
    removals: Vec<(Path, Fate)>,
    kept: u64,
    failed: Vec<Path>,
    changed: Vec<Path>,
}

impl Model for SyncReport {
    ghost use Rattle.tree_sync.specs.Results.{Results};

    ghost Value = { Results };

    ghost view = { λ r. record { copies = r.copies.items; removals = r.removals.items; kept = r.kept; failed = r.failed.items; changed = r.changed.items } };
}

impl SyncReport {
    // The report of a plan that was carried out. The rows are moved.
    pub(crate) fn of(plan: Plan, removed: RemoveReport, copied: CopyReport) -> SyncReport
        ensures { result ≡ results_of plan removed.0 copied.0 }
    {
        SyncReport {
            copies: copied.into_rows(),
            removals: removed.into_rows(),
            kept: plan.kept,
            failed: plan.failed,
            changed: plan.changed,
        }
    }

    /// How many entries were copied.
    pub fn copied(&self) -> u64
        ensures { result ≡ count_by (λ row. is_done row.1) self.now.copies }
    {
        number_done(&self.copies)
    }

    /// How many paths were removed.
    pub fn removed(&self) -> u64
        ensures { result ≡ count_by (λ row. is_done row.1) self.now.removals }
    {
        number_done(&self.removals)
    }

    /// How many entries the destination had already.
    pub fn kept(&self) -> u64
        ensures { result ≡ self.now.kept }
    {
        self.kept
    }

    /// The fate of each entry that was to be copied, by its path, in path order.
    pub fn copies(&self) -> &[(Path, Fate)]
        ensures { result.now ≡ self.now.copies }
    {
        &self.copies
    }

    /// The fate of each path that was to be removed, in path order.
    pub fn removals(&self) -> &[(Path, Fate)]
        ensures { result.now ≡ self.now.removals }
    {
        &self.removals
    }

    /// The files whose reads failed, in the order of the rows of the comparison.
    pub fn failed(&self) -> &[Path]
        ensures { result.now ≡ self.now.failed }
    {
        &self.failed
    }

    /// The files of which a read found fewer bytes than their stat's size, or no file, in the order of the rows of the comparison.
    pub fn changed(&self) -> &[Path]
        ensures { result.now ≡ self.now.changed }
    {
        &self.changed
    }
}
