//! The task of dsync.
use path_text::Path;
use tool_words::Common;

/// The task of dsync.
#[derive(Debug, Drop)]
pub struct SyncTask {
    /// The settings of each of the two walks, and the number of ranks and hosts that copy and remove entries.
    pub common: Common,
    /// The source.
    pub source: Path,
    /// The destination, which is made equal to the source.
    pub dest: Path,
    /// Whether entries that only the destination has are removed.
    pub delete: bool,
}
