//! A command line, as far as it was read.
ghost use Rattle.std.specs.Prelude.{◌≡◌, OnOk};
ghost use Rattle.std.specs.Option.{option_copied};
ghost use Rattle.tool_words.specs.Parts.{Leaves};
ghost use Rattle.tool_words.specs.Table.{option_named, text_of, Set, set, raise};
ghost use Rattle.tool_words.specs.Value.{is, number_in, path_in, lower_path_in};
ghost use Rattle.tool_words.specs.Words.{Given, nothing, ends_options, is_option, name_in, value_in, with_path, with_lower, with_number};
ghost use Rattle.tool_words.specs.Words.{with_plain, was_given, is_repeated, with_another, with_own_value};
ghost use Rattle.tool_words.specs.Words.{with_next_value, with_flag, with_option, with_word, at_end};

use crate::errors::WordsError;
use crate::settings::Settings;
use crate::tables::{OptionName, Placed, Tool};
use crate::turns::Turn;
use crate::values::{lower_path_in, number_in, path_in};
use path_text::Path;
use std::alloc::Global;
use std::marker::Model;

/// The most nodes that a made-up tree has.
const MOST_NODES: u64 = 1_000_000;

/// The settings and paths of the words so far.
#[derive(Debug, Drop)]
pub(crate) struct Line {
    alloc: Global,
    next: Turn,
    pub(crate) options: Vec<Placed>,
    pub(crate) settings: Settings,
    pub(crate) paths: Vec<Path>,
    pub(crate) lower: Vec<Path>,
    pub(crate) numbers: Vec<u64>,
    pub(crate) places: Vec<usize>,
}

impl Model for Line {
    ghost use Rattle.tool_words.specs.Words.{Given};

    ghost Value = { Given };

    ghost view = { λ l. record { next = l.next; options = l.options.items; settings = l.settings; paths = l.paths.items; lower = l.lower.items; numbers = l.numbers.items; places = l.places.items } };
}

impl Line {
    pub(crate) fn nothing(alloc: Global) -> Line
        ensures { result ≡ nothing }
    {
        Line {
            alloc,
            next: Turn::Any,
            options: Vec::new(alloc),
            settings: Settings::unset(alloc),
            paths: Vec::new(alloc),
            lower: Vec::new(alloc),
            numbers: Vec::new(alloc),
            places: Vec::new(alloc),
        }
    }

    /// Reads a word of the tool, which has this number. After a refusal the line is not read further.
    pub(crate) fn read(&mut self, tool: Tool, word: &str, place: usize) -> Result<(), WordsError>
        ensures { Leaves (with_word tool self.old.next self.old place word.now) self.new result }
    {
        match self.next {
            Turn::Any => self.read_any(tool, word, place),
            Turn::Value(option, at) => self.read_next_value(option, at, word, place),
            Turn::Plain => self.read_plain(tool, word, place),
        }
    }

    fn read_any(&mut self, tool: Tool, word: &str, place: usize) -> Result<(), WordsError>
        ensures { Leaves (with_word tool Turn.Any self.old place word.now) self.new result }
    {
        if ends_options(word) {
            self.next = Turn::Plain;
            Ok(())
        } else if is_option(word) {
            self.read_option(tool, word, place)
        } else {
            self.read_plain(tool, word, place)
        }
    }

    fn read_option(&mut self, tool: Tool, word: &str, place: usize) -> Result<(), WordsError>
        ensures { Leaves (with_option self.old place (option_named tool (name_in word.now)) (value_in word.now)) self.new result }
    {
        let (name, value) = divided(word);
        let Some(option) = tool.option(name) else {
            return Err(WordsError::UnknownOption(place));
        };
        match value {
            Some(text) => self.read_own(option, text, place),
            None => self.read_flag(option, place),
        }
    }

    fn read_own(&mut self, option: OptionName, text: &str, place: usize) -> Result<(), WordsError>
        ensures { Leaves (with_own_value self.old place option text.now) self.new result }
    {
        self.settings.set(self.alloc, option, text, place)?;
        self.add(option, place)
    }

    // The option's word has the number `at`, and the value's the number `place`.
    fn read_next_value(
        &mut self,
        option: OptionName,
        at: usize,
        word: &str,
        place: usize,
    ) -> Result<(), WordsError>
        ensures { Leaves (with_next_value self.old at option place word.now) self.new result }
    {
        self.add(option, at)?;
        self.settings.set(self.alloc, option, word, place)
    }

    // A flag, or an option whose value is to be the next word.
    fn read_flag(&mut self, option: OptionName, place: usize) -> Result<(), WordsError>
        ensures { Leaves (with_flag self.old place option (raise option self.old.settings)) self.new result }
    {
        if self.settings.raise(option) {
            self.add(option, place)
        } else {
            self.next = Turn::Value(option, place);
            Ok(())
        }
    }

    // Adds an option whose word has this number, unless it may not be given again.
    fn add(&mut self, option: OptionName, place: usize) -> Result<(), WordsError>
        ensures read { Leaves (with_another self.old place option) self.new result }
        ensures kept { OnOk result (self.new.settings ≡ self.old.settings) }
    {
        if self.is_repeated(option) {
            return Err(WordsError::Clash(place));
        }
        self.options.push(Placed { option, place })?;
        self.next = Turn::Any;
        Ok(())
    }

    fn is_repeated(&self, option: OptionName) -> bool
        ensures { result ≡ is_repeated option self.now.options }
    {
        !option.adds_up() && self.was_given(option)
    }

    fn was_given(&self, option: OptionName) -> bool
        ensures { result ≡ was_given option self.now.options }
    {
        self.options
            .iter()
            .any(|other| other.option.text() == option.text())
    }

    fn read_plain(&mut self, tool: Tool, word: &str, place: usize) -> Result<(), WordsError>
        ensures { Leaves (with_plain tool self.old place word.now) self.new result }
    {
        match tool {
            Tool::Walk | Tool::Find | Tool::Cmp | Tool::Copy | Tool::Sync | Tool::Dup => {
                self.read_path(word, place)
            }
            Tool::Remove => self.read_lower(word, place),
            Tool::Test => self.read_number(word, place),
        }
    }

    fn read_path(&mut self, word: &str, place: usize) -> Result<(), WordsError>
        ensures { Leaves (with_path self.old place (path_in word.now)) self.new result }
    {
        self.paths.push(path_in(self.alloc, word, place)?)?;
        self.places.push(place)?;
        Ok(())
    }

    fn read_number(&mut self, word: &str, place: usize) -> Result<(), WordsError>
        ensures { Leaves (with_number self.old place (number_in 1 1000000 word.now)) self.new result }
    {
        let number = number_in(1, MOST_NODES, word).ok_or(WordsError::BadValue(place))?;
        self.numbers.push(number)?;
        self.places.push(place)?;
        Ok(())
    }

    fn read_lower(&mut self, word: &str, place: usize) -> Result<(), WordsError>
        ensures { Leaves (with_lower self.old place (lower_path_in word.now)) self.new result }
    {
        self.lower.push(lower_path_in(self.alloc, word, place)?)?;
        self.places.push(place)?;
        Ok(())
    }

    /// Ends the reading.
    pub(crate) fn end(&self) -> Result<(), WordsError>
        ensures { Leaves (at_end self.now.next self.now) self.now result }
    {
        match self.next {
            Turn::Value(_, place) => Err(WordsError::NoValue(place)),
            Turn::Any | Turn::Plain => Ok(()),
        }
    }
}

// The name of an option, and its value if it stands in the same word.
fn divided(word: &str) -> (&str, Option<&str>)
    ensures name { result.0.now ≡ name_in word.now }
    ensures value { option_copied result.1 ≡ value_in word.now }
{
    match word.split_once('=') {
        Some((name, value)) => (name, Some(value)),
        None => (word, None),
    }
}

// Whether the word is `--`.
fn ends_options(word: &str) -> bool
    ensures { result ≡ ends_options word.now }
{
    word == "--"
}

// Whether the word begins with `-` and has another byte.
fn is_option(word: &str) -> bool
    ensures { result ≡ is_option word.now }
{
    word.len() > 1 && word.starts_with('-')
}
