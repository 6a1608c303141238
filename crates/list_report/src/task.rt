//! The task of dwalk or dfind.
use flat_list::Field;
use path_text::Path;
use tool_words::{Common, Start, Tests};

/// The task of dwalk or dfind.
#[derive(Debug, Drop)]
pub struct ListTask {
    /// The settings of the walk.
    pub common: Common,
    /// Where it starts.
    pub start: Start,
    /// The tests that choose entries. Without them all are chosen.
    pub tests: Option<Tests>,
    /// The field by which the list is sorted, and whether it descends. Without it the list is in path order.
    pub sort: Option<(Field, bool)>,
    /// The file to which the chosen entries are written.
    pub output: Option<Path>,
}
