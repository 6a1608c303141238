//! The entries that a run finds, and their summary.
ghost use Rattle.std.specs.Prelude.{◌≡◌};
ghost use Rattle.run_entries.specs.Prelude.{summary_of};

use crate::accounts::Account;
use crate::naming::counted_failures;
use flat_list::{FlatList, Summary};
use path_text::OutOfMemory;
use std::alloc::Global;
use tool_text::Note;

/// The entries that a run finds.
#[derive(Drop)]
pub struct Findings {
    /// The chosen entries.
    pub chosen: FlatList,
    /// The summary of the chosen entries.
    pub summary: Summary,
    /// The notes of all failures.
    pub notes: Vec<Note>,
    /// The reports on the walk.
    pub account: Account,
    pub ghost counted: { summary ≡ summary_of chosen },
}

impl Findings {
    ghost use Rattle.std.specs.Prelude.{[], IfOk};
    ghost use Rattle.tool_text.specs.NoteOrder.{AreInOrder};
    ghost use Rattle.run_entries.specs.Naming.{failures_in};

    /// Chooses all entries: makes their summary, and the notes of their failures.
    pub fn of_all(alloc: Global, list: FlatList, account: Account) -> Result<Findings, OutOfMemory>
        ensures chosen { IfOk result (λ found. found.chosen ≡ list) }
        ensures names { IfOk result (λ found. AreInOrder (failures_in [] list) found.notes.items) }
        ensures account { IfOk result (λ found. found.account ≡ account) }
    {
        let summary = list.summary();
        let notes = counted_failures(alloc, &list, summary.failed)?;
        Ok(Findings {
            chosen: list,
            summary,
            notes,
            account,
        })
    }
}
