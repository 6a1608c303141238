//! The task of drm.
use path_text::Path;
use tool_words::{Common, Tests};

/// The task of drm.
#[derive(Debug, Drop)]
pub struct RemoveTask {
    /// The settings of the walk, and the number of ranks and hosts that remove entries.
    pub common: Common,
    /// Where the walk starts.
    pub roots: Vec<Path>,
    /// The tests that choose entries.
    pub tests: Tests,
    /// Whether it is a dry run, which removes nothing.
    pub dryrun: bool,
}
