//! The task of dcp.
use path_text::Path;
use tool_words::Common;

/// The task of dcp.
#[derive(Debug, Drop)]
pub struct CopyTask {
    /// The settings of the walk, and the number of ranks and hosts that copy entries.
    pub common: Common,
    /// The sources, which are copied with everything below them.
    pub sources: Vec<Path>,
    /// The destination: an existing directory, into which they go, or, for one source, the path of its copy.
    pub dest: Path,
    /// A file of more bytes than this is copied in ranges. Without it no file is.
    pub range: Option<u64>,
}
