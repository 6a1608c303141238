//! The task of a dwalk in stages.
use flat_list::Field;
use path_text::Path;
use tool_words::Common;

/// The task of a dwalk that may stop, or that continues.
#[derive(Debug, Drop)]
pub struct StageTask {
    /// The settings of the walk.
    pub common: Common,
    /// The paths at which it begins. They may be nested, or given twice. Without them it continues from the checkpoint.
    pub starts: Option<Vec<Path>>,
    /// After how many paths of one rank it stops.
    pub stop_after: Option<u64>,
    /// The directory of the checkpoint.
    pub lists: Path,
    /// The field by which the list is sorted, and whether it descends. Without it the list is in path order.
    pub sort: Option<(Field, bool)>,
    /// The file to which the list is written when it is whole.
    pub output: Option<Path>,
}
