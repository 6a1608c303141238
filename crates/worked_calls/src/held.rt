//! The values that lines keep for later lines, and the answers.
use flat_list::{Entry, FlatList};
use rank_queue::{Batch, RankQueue};
use std::alloc::{AllocError, Global};
use tool_text::Note;

/// A text, a list, the logs of ranks, notes, a queue, the strings that it gave, and the lines so far with their answers.
#[derive(Drop)]
pub struct Held {
    pub text: String,
    pub list: FlatList,
    pub found: Vec<Vec<Entry>>,
    pub notes: Vec<Note>,
    pub queue: RankQueue,
    pub given: Batch,
    pub told: String,
}

impl Held {
    /// Nothing.
    pub fn nothing(alloc: Global) -> Held {
        Held {
            text: String::new(alloc),
            list: FlatList::make(alloc),
            found: Vec::new(alloc),
            notes: Vec::new(alloc),
            queue: RankQueue::make(alloc),
            given: Batch::make(alloc),
            told: String::new(alloc),
        }
    }

    /// Adds to the text.
    pub fn add_text(&mut self, line: &str, end: &str) -> Result<(), AllocError> {
        self.text.push_str(line)?;
        self.text.push_str(end)
    }
}
