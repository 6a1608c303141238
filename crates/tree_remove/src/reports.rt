//! The fates of chosen paths.
ghost use Rattle.std.specs.Prelude.{◌≡◌, ◌<◌, length, Some, slice_get};
ghost use Rattle.std.specs.Option.{option_map};

use level_work::{Fate, number_done};
use path_text::Path;
use std::marker::Model;

/// The fates of chosen paths, seen as the paths with their fates, in path order, and how many of them are gone.
#[derive(Debug, Drop)]
pub struct RemoveReport {
    pub(crate) rows: Vec<(Path, Fate)>,
}

impl Model for RemoveReport {
    ghost use Rattle.std.specs.Prelude.{ℕ, List};
    ghost use Rattle.std.specs.List.{count_by};
    ghost use Rattle.level_work.specs.declared.items.Fate.{Fate};
    ghost use Rattle.level_work.specs.Counts.{is_done};

    ghost Value = { List (List ℕ × Fate) × ℕ };

    ghost view = { λ r. (r.rows.items, count_by (λ row. is_done row.1) r.rows.items) };
}

impl RemoveReport {
    /// The fate of the path at a place.
    pub fn fate(&self, k: usize) -> Fate
        requires { k < length self.now.0 }
        ensures { option_map (λ row. row.1) (slice_get self.now.0 k) ≡ Some result }
    {
        self.rows[k].1
    }

    /// The path at a place.
    pub fn path(&self, k: usize) -> &Path
        requires { k < length self.now.0 }
        ensures { option_map (λ row. row.0) (slice_get self.now.0 k) ≡ Some result.now }
    {
        &self.rows[k].0
    }

    /// How many paths were chosen.
    pub fn len(&self) -> usize
        ensures { result ≡ length self.now.0 }
    {
        self.rows.len()
    }

    /// How many of the paths are gone.
    pub fn removed(&self) -> u64
        ensures { result ≡ self.now.1 }
    {
        number_done(&self.rows)
    }

    /// The paths with their fates, in path order. They are moved.
    pub fn into_rows(self) -> Vec<(Path, Fate)>
        ensures { result.items ≡ self.0 }
    {
        let RemoveReport { rows } = self;
        rows
    }
}
