//! The report of a copy.
ghost use Rattle.std.specs.Prelude.{◌≡◌, ◌<◌, length, Some, slice_get};
ghost use Rattle.std.specs.Option.{option_map};

use level_work::Fate;
use path_text::Path;
use std::marker::Model;

/// The report of a copy, seen as three parts. The first has the paths of the entries with their fates, in path order. The others are
/// the number of entries that came to `Done`, and the number of bytes of the copied files.
#[derive(Debug, Drop)]
pub struct CopyReport {
    pub(crate) rows: Vec<(Path, Fate)>,
    pub(crate) copied: u64,
    pub(crate) bytes: u128,
}

impl Model for CopyReport {
    ghost use Rattle.std.specs.Prelude.{ℕ, List};
    ghost use Rattle.level_work.specs.declared.items.Fate.{Fate};

    ghost Value = { List (List ℕ × Fate) × ℕ × ℕ };

    ghost view = { λ r. (r.rows.items, r.copied, r.bytes) };
}

impl CopyReport {
    /// A report of these paths with their fates, and of these numbers of copied entries and bytes.
    pub fn make(rows: Vec<(Path, Fate)>, copied: u64, bytes: u128) -> CopyReport
        ensures { result ≡ (rows.items, copied, bytes) }
    {
        CopyReport {
            rows,
            copied,
            bytes,
        }
    }

    /// How many entries were to be copied.
    pub fn len(&self) -> usize
        ensures { result ≡ length self.now.0 }
    {
        self.rows.len()
    }

    /// The path of the entry at a place.
    pub fn path(&self, k: usize) -> &Path
        requires { k < length self.now.0 }
        ensures { option_map (λ row. row.0) (slice_get self.now.0 k) ≡ Some result.now }
    {
        &self.rows[k].0
    }

    /// The fate of the entry at a place.
    pub fn fate(&self, k: usize) -> Fate
        requires { k < length self.now.0 }
        ensures { option_map (λ row. row.1) (slice_get self.now.0 k) ≡ Some result }
    {
        self.rows[k].1
    }

    /// The paths of the entries with their fates, in path order. They are moved.
    pub fn into_rows(self) -> Vec<(Path, Fate)>
        ensures { result.items ≡ self.0 }
    {
        let CopyReport { rows, .. } = self;
        rows
    }

    /// How many entries came to `Done`.
    pub fn copied(&self) -> u64
        ensures { result ≡ self.now.1 }
    {
        self.copied
    }

    /// The number of bytes of the copied files, by the sizes of their entries.
    pub fn bytes(&self) -> u128
        ensures { result ≡ self.now.2 }
    {
        self.bytes
    }
}
