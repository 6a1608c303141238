//! The book of a rank: its events, counts and numbers of progress.
ghost use Rattle.std.specs.Prelude.{◌≡◌, ◌<◌, ◌≤◌, ◌+◌, ◌++◌, ◌∷◌, [], true, false};
ghost use Rattle.circle_run.specs.Books.{counted_one};
ghost use Rattle.circle_run.specs.Private.Books.{Writes};
ghost use Rattle.circle_run.specs.Progress.{newest};

use crate::outcomes::Share;
use ring_core::Event;

/// The book of a rank: its events, counts and numbers of progress, and whether it ever ran out of memory.
#[derive(Drop)]
pub struct Book {
    /// The events, if they are kept.
    pub events: Vec<Event>,
    /// How many strings it handled, gave and took.
    pub share: Share,
    /// The numbers of progress.
    pub sums: Vec<u64>,
    /// Whether it ever ran out of memory.
    pub lost: bool,
}

impl Book {
    /// Counts an event, and keeps it if `trace` is set.
    pub(crate) fn note(&mut self, trace: bool, event: Event)
        ensures { Writes trace (event ∷ []) self.old self.new }
    {
        self.share = counted(self.share, &event);
        if trace && self.events.push(event).is_err() {
            self.lost = true;
        }
    }

    /// Keeps a number of progress, if it is at least 1,000 above the newest that was kept.
    pub(crate) fn keep(&mut self, shown: u64)
        ensures same { self.new ≡ record self.old { sums = self.new.sums; lost = self.new.lost } }
        ensures lost { self.old.lost ≡ true → self.new.lost ≡ true }
        ensures more { self.new.lost ≡ false → newest 0 self.old.sums.items + 1000 ≤ shown → self.new.sums.items ≡ self.old.sums.items ++ shown ∷ [] }
        ensures few { self.new.lost ≡ false → shown < newest 0 self.old.sums.items + 1000 → self.new.sums.items ≡ self.old.sums.items }
    {
        if shown.saturating_sub(newest_of(&self.sums)) < 1000 {
            return;
        }
        self.keep_last(shown);
    }

    /// Keeps a number of progress.
    pub(crate) fn keep_last(&mut self, shown: u64)
        ensures same { self.new ≡ record self.old { sums = self.new.sums; lost = self.new.lost } }
        ensures lost { self.old.lost ≡ true → self.new.lost ≡ true }
        ensures kept { self.new.lost ≡ false → self.new.sums.items ≡ self.old.sums.items ++ shown ∷ [] }
    {
        if self.sums.push(shown).is_err() {
            self.lost = true;
        }
    }
}

// The last of the numbers, or 0 if there is none.
fn newest_of(numbers: &[u64]) -> u64
    ensures { result ≡ newest 0 numbers.now }
{
    let count = numbers.len();
    if count == 0 { 0 } else { numbers[count - 1] }
}

// The counts with one event more.
fn counted(share: Share, event: &Event) -> Share
    ensures { result ≡ counted_one event.now share }
{
    match event {
        Event::Handle { .. } => Share {
            handled: share.handled.saturating_add(1),
            ..share
        },
        Event::Give { count, .. } => Share {
            given: share.given.saturating_add(*count as u128),
            ..share
        },
        Event::Take { count, .. } => Share {
            taken: share.taken.saturating_add(*count as u128),
            ..share
        },
        _ => share,
    }
}
