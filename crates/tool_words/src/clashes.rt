//! Options of a command line that cannot be combined.
ghost use Rattle.std.specs.Prelude.{◌≡◌, Some, None, find, if◌then◌else◌};
ghost use Rattle.tool_words.specs.Clashes.{place_of, trace_on_hosts, trace_and_stop, input_and_restart};
ghost use Rattle.tool_words.specs.Clashes.{first_of, no_lists, lists_alone, input_and_stop, clash_in};
ghost use Rattle.tool_words.specs.Table.{text_of};
ghost use Rattle.tool_words.specs.Value.{is};

use crate::lines::Line;
use crate::tables::{OptionName, Placed};

impl Line {
    /// The number of the word that is reported if options cannot be combined: the first line that applies.
    pub(crate) fn clash(&self) -> Option<usize>
        ensures { result ≡ clash_in self.now.options self.now.settings }
    {
        self.trace_on_hosts()
            .or(self.trace_and_stop())
            .or(self.input_and_restart())
            .or(self.no_lists())
            .or(self.lists_alone())
            .or(self.input_and_stop())
    }

    // `--trace` with more than one host.
    fn trace_on_hosts(&self) -> Option<usize>
        ensures { result ≡ trace_on_hosts self.now.options self.now.settings }
    {
        self.place_if(self.settings.common.hosts > 1, OptionName::Trace)
    }

    // `--trace` with a stop.
    fn trace_and_stop(&self) -> Option<usize>
        ensures { result ≡ trace_and_stop self.now.options self.now.settings }
    {
        self.place_if(self.settings.stop_after.is_some(), OptionName::Trace)
    }

    // A list that is read, with a walk that goes on.
    fn input_and_restart(&self) -> Option<usize>
        ensures { result ≡ input_and_restart self.now.options self.now.settings }
    {
        self.place_if(self.settings.input.is_some(), OptionName::Restart)
    }

    // A walk that stops or goes on, without a folder of lists.
    fn no_lists(&self) -> Option<usize>
        ensures { result ≡ no_lists self.now.options self.now.settings }
    {
        if self.settings.lists.is_some() {
            None
        } else {
            first_of(
                self.place_of(OptionName::StopAfter),
                self.place_of(OptionName::Restart),
            )
        }
    }

    // A folder of lists, with a walk that neither stops nor goes on.
    fn lists_alone(&self) -> Option<usize>
        ensures { result ≡ lists_alone self.now.options self.now.settings }
    {
        if self.settings.stop_after.is_none() && !self.settings.restart {
            self.place_of(OptionName::Lists)
        } else {
            None
        }
    }

    // A list that is read, with a stop.
    fn input_and_stop(&self) -> Option<usize>
        ensures { result ≡ input_and_stop self.now.options self.now.settings }
    {
        self.place_if(self.settings.input.is_some(), OptionName::StopAfter)
    }

    // The number of the word in which an option stands first, if it was given.
    fn place_of(&self, option: OptionName) -> Option<usize>
        ensures { result ≡ place_of option self.now.options }
    {
        Some(self.first(option)?.place)
    }

    // The same, where this applies.
    fn place_if(&self, applies: bool, option: OptionName) -> Option<usize>
        ensures { result ≡ (if applies then place_of option self.now.options else None) }
    {
        if applies { self.place_of(option) } else { None }
    }

    // The option as it was given first.
    fn first(&self, option: OptionName) -> Option<Placed>
        ensures { result ≡ find (λ given. is (text_of option) (text_of given.option)) self.now.options }
    {
        self.options
            .iter()
            .copied()
            .find(|given| given.option.text() == option.text())
    }
}

// The first of two places.
fn first_of(one: Option<usize>, other: Option<usize>) -> Option<usize>
    ensures { result ≡ first_of one other }
{
    match (one, other) {
        (None, _) => other,
        (Some(place), None) => Some(place),
        (Some(place), Some(other)) => Some(place.min(other)),
    }
}
