//! The settings of the options.
ghost use Rattle.std.specs.Prelude.{◌≡◌, ◌⊎◌, Some, None, OnOk, IfErr};
ghost use Rattle.std.specs.Bool.{OnTrue, OnFalse};
ghost use Rattle.tool_words.specs.Table.{unset, set, raise};

use crate::commands::{Common, Want};
use crate::errors::WordsError;
use crate::tables::OptionName;
use crate::values::{number_in, order_in, path_in, small_number_in, split_in, test_in, want_in};
use find_tests::Test;
use flat_list::Field;
use path_text::Path;
use std::alloc::Global;
use std::marker::Model;

/// The largest number of paths or of bytes.
const MOST_COUNT: u64 = 9_223_372_036_854_775_807;

/// The settings of the options, for every tool.
#[derive(Debug, Drop)]
pub(crate) struct Settings {
    pub(crate) common: Common,
    pub(crate) sort: Option<(Field, bool)>,
    pub(crate) input: Option<Path>,
    pub(crate) output: Option<Path>,
    pub(crate) tests: Vec<Test>,
    pub(crate) newer: Vec<Path>,
    pub(crate) wants: Vec<Want>,
    pub(crate) dryrun: bool,
    pub(crate) delete: bool,
    pub(crate) range: Option<u64>,
    pub(crate) stop_after: Option<u64>,
    pub(crate) lists: Option<Path>,
    pub(crate) restart: bool,
}

impl Model for Settings {
    ghost use Rattle.tool_words.specs.Table.{Set};

    ghost Value = { Set };

    ghost view = { λ s. record { common = s.common; sort = s.sort; input = s.input; output = s.output; tests = s.tests.items; newer = s.newer.items; wants = s.wants.items; dryrun = s.dryrun; delete = s.delete; range = s.range; stop_after = s.stop_after; lists = s.lists; restart = s.restart } };
}

impl Settings {
    /// The settings without any option.
    pub(crate) fn unset(alloc: Global) -> Settings
        ensures { result ≡ unset }
    {
        Settings {
            common: Common::standard(),
            sort: None,
            input: None,
            output: None,
            tests: Vec::new(alloc),
            newer: Vec::new(alloc),
            wants: Vec::new(alloc),
            dryrun: false,
            delete: false,
            range: None,
            stop_after: None,
            lists: None,
            restart: false,
        }
    }

    /// Sets an option by the text of its value, which is in the word of this number.
    pub(crate) fn set(
        &mut self,
        alloc: Global,
        option: OptionName,
        text: &str,
        place: usize,
    ) -> Result<(), WordsError>
        ensures set { OnOk result (set option text.now self.old ≡ Some self.new) }
        ensures refused { IfErr result (λ e. ((e ≡ WordsError.BadValue place) × (set option text.now self.old ≡ None)) ⊎ (e ≡ WordsError.OutOfMemory)) }
    {
        let bad = WordsError::BadValue(place);
        match option {
            OptionName::Ranks => self.common.ranks = small_number_in(1, 64, text).ok_or(bad)?,
            OptionName::Hosts => self.common.hosts = small_number_in(1, 64, text).ok_or(bad)?,
            OptionName::Split => self.common.split = split_in(text).ok_or(bad)?,
            OptionName::Seed => self.common.seed = number_in(0, u64::MAX, text).ok_or(bad)?,
            OptionName::Width => self.common.width = small_number_in(2, 64, text).ok_or(bad)?,
            OptionName::Trace | OptionName::Shares | OptionName::Progress => return Err(bad),
            OptionName::Dryrun | OptionName::Delete | OptionName::Restart => return Err(bad),
            OptionName::Sort => self.sort = Some(order_in(text).ok_or(bad)?),
            OptionName::Input => self.input = Some(path_in(alloc, text, place)?),
            OptionName::Output => self.output = Some(path_in(alloc, text, place)?),
            OptionName::Test(name) => self.tests.push(test_in(alloc, name, text, place)?)?,
            OptionName::Newer => self.newer.push(path_in(alloc, text, place)?)?,
            OptionName::Want => self.wants.push(want_in(alloc, text, place)?)?,
            OptionName::Range => self.range = Some(number_in(1, MOST_COUNT, text).ok_or(bad)?),
            OptionName::StopAfter => {
                self.stop_after = Some(number_in(1, MOST_COUNT, text).ok_or(bad)?)
            }
            OptionName::Lists => self.lists = Some(path_in(alloc, text, place)?),
        }
        Ok(())
    }

    /// Sets a flag, and answers whether the option is one.
    pub(crate) fn raise(&mut self, option: OptionName) -> bool
        ensures flag { OnTrue result (raise option self.old ≡ Some self.new) }
        ensures other { OnFalse result ((raise option self.old ≡ None) × (self.new ≡ self.old)) }
    {
        match option {
            OptionName::Trace => self.common.trace = true,
            OptionName::Shares => self.common.shares = true,
            OptionName::Progress => self.common.progress = true,
            OptionName::Dryrun => self.dryrun = true,
            OptionName::Delete => self.delete = true,
            OptionName::Restart => self.restart = true,
            _ => return false,
        }
        true
    }
}
