//! The reports on a walk, beside its list.
ghost use Rattle.std.specs.Prelude.{◌≡◌, ◌++◌, if◌then◌else◌};
ghost use Rattle.run_entries.specs.Prelude.{[], OnOk};
ghost use Rattle.run_entries.specs.Tells.{told_text};

use circle_run::Share;
use flat_list::FlatList;
use path_text::OutOfMemory;
use ring_core::Event;
use std::alloc::Global;
use tool_text::{Text, put_progress, put_shares, put_trace};
use tool_words::Common;

/// The work of the ranks on a walk.
#[derive(Drop)]
pub struct Account {
    /// The events, in order, if they were kept.
    pub events: Vec<Event>,
    /// The work of each rank.
    pub shares: Vec<Share>,
    /// The numbers of progress.
    pub sums: Vec<u64>,
}

/// The entries of a walk or of a list file, and the reports on the walk.
#[derive(Drop)]
pub struct Entries {
    /// The entries.
    pub list: FlatList,
    /// The work of the ranks, if there was a walk.
    pub account: Account,
}

impl Account {
    // The account if nothing is walked.
    pub(crate) fn of_nothing(alloc: Global) -> Account
        ensures events { result.events.items ≡ [] }
        ensures shares { result.shares.items ≡ [] }
        ensures sums { result.sums.items ≡ [] }
    {
        Account {
            events: Vec::new(alloc),
            shares: Vec::new(alloc),
            sums: Vec::new(alloc),
        }
    }

    /// Adds the reports that are asked for: the trace, the shares, the progress.
    pub fn put(&self, text: &mut Text, common: &Common) -> Result<(), OutOfMemory>
        ensures { OnOk result (text.new ≡ text.old ++ told_text common.now self.now) }
    {
        put_trace(text, where_asked(common.trace, &self.events))?;
        put_shares(text, where_asked(common.shares, &self.shares))?;
        put_progress(text, where_asked(common.progress, &self.sums))
    }
}

// A report if it is asked for, or nothing.
fn where_asked<T>(asked: bool, list: &[T]) -> &[T]
    ensures { result.now ≡ (if asked then list.now else []) }
{
    if asked { list } else { &list[..0] }
}
