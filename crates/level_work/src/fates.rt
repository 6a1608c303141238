//! Fates that came to `Done`.
ghost use Rattle.std.specs.Prelude.{◌≡◌};
ghost use Rattle.std.specs.List.{count_by};
ghost use Rattle.level_work.specs.Counts.{is_done};

use crate::items::Fate;
use path_text::Path;

impl Fate {
    /// Whether it is `Done`.
    pub fn is_done(self) -> bool
        ensures { result ≡ is_done self }
    {
        match self {
            Fate::Done => true,
            Fate::Failed
            | Fate::Conflict
            | Fate::Skipped
            | Fate::ParentFailed
            | Fate::Changed
            | Fate::NotEmpty
            | Fate::TooLong => false,
        }
    }
}

/// How many of the rows, which are paths with their fates, came to `Done`.
pub fn number_done(rows: &[(Path, Fate)]) -> u64
    ensures { result ≡ count_by (λ row. is_done row.1) rows.now }
{
    rows.iter().filter(|row| row.1.is_done()).count() as u64
}
