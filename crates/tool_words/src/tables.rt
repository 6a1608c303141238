//! The tools and their options, by their names.
ghost use Rattle.std.specs.Prelude.{◌≡◌, find};
ghost use Rattle.tool_words.specs.Value.{is};
ghost use Rattle.tool_words.specs.Table.{tool_named, text_of, options_in, groups_of, option_named, adds_up};

use find_tests::TestName;

/// A tool.
#[derive(Clone, Copy, Debug, Drop, PartialEq, Eq)]
pub(crate) enum Tool {
    /// `dwalk`
    Walk,
    /// `dfind`
    Find,
    /// `dcmp`
    Cmp,
    /// `dcp`
    Copy,
    /// `dsync`
    Sync,
    /// `ddup`
    Dup,
    /// `drm`
    Remove,
    /// `dtest`
    Test,
}

impl Tool {
    /// The tool of this name.
    pub(crate) fn named(text: &str) -> Option<Tool>
        ensures { result ≡ tool_named text.now }
    {
        match text {
            "dwalk" => Some(Tool::Walk),
            "dfind" => Some(Tool::Find),
            "dcmp" => Some(Tool::Cmp),
            "dcp" => Some(Tool::Copy),
            "dsync" => Some(Tool::Sync),
            "ddup" => Some(Tool::Dup),
            "drm" => Some(Tool::Remove),
            "dtest" => Some(Tool::Test),
            _ => None,
        }
    }

    fn groups(self) -> &'static [Group]
        ensures { result.now ≡ groups_of self }
    {
        match self {
            Tool::Walk => &[
                Group::Common,
                Group::Telling,
                Group::Listing,
                Group::Stopping,
            ],
            Tool::Find => &[
                Group::Common,
                Group::Telling,
                Group::Listing,
                Group::Testing,
            ],
            Tool::Cmp => &[Group::Common, Group::Comparing],
            Tool::Copy => &[Group::Common, Group::Cutting],
            Tool::Sync => &[Group::Common, Group::Deleting],
            Tool::Dup => &[Group::Common],
            Tool::Remove => &[Group::Common, Group::Testing, Group::Removing],
            Tool::Test => &[Group::Common, Group::Telling, Group::Testing],
        }
    }

    /// Its option of this name.
    pub(crate) fn option(self, text: &str) -> Option<OptionName>
        ensures { result ≡ option_named self text.now }
    {
        for group in self.groups() {
            let option = option_among(group.options(), text);
            if option.is_some() {
                return option;
            }
        }
        None
    }
}

fn option_among(options: &[OptionName], text: &str) -> Option<OptionName>
    ensures { result ≡ find (λ option. is (text_of option) text.now) options.now }
{
    options.iter().copied().find(|option| option.text() == text)
}

/// Options that tools take together.
#[derive(Clone, Copy, Debug, Drop, PartialEq, Eq)]
pub(crate) enum Group {
    /// The settings of a walk.
    Common,
    /// Reports on a walk.
    Telling,
    /// Where a list comes from, in which order it is printed, and where it is saved.
    Listing,
    /// The tests that choose entries.
    Testing,
    /// The lists that are saved of a comparison.
    Comparing,
    /// Whether entries that only the destination has are deleted.
    Deleting,
    /// Whether nothing is deleted.
    Removing,
    /// Above how many bytes a file is copied in ranges.
    Cutting,
    /// After how many paths a walk stops, where its checkpoint is, and whether it continues from one.
    Stopping,
}

impl Group {
    fn options(self) -> &'static [OptionName]
        ensures { result.now ≡ options_in self }
    {
        match self {
            Group::Common => &[
                OptionName::Ranks,
                OptionName::Hosts,
                OptionName::Split,
                OptionName::Seed,
                OptionName::Width,
            ],
            Group::Telling => &[OptionName::Trace, OptionName::Shares, OptionName::Progress],
            Group::Listing => &[OptionName::Sort, OptionName::Input, OptionName::Output],
            Group::Testing => &[
                OptionName::Test(TestName::Name),
                OptionName::Test(TestName::Path),
                OptionName::Test(TestName::Kind),
                OptionName::Test(TestName::Size),
                OptionName::Test(TestName::Days),
                OptionName::Test(TestName::Minutes),
                OptionName::Newer,
            ],
            Group::Comparing => &[OptionName::Want],
            Group::Deleting => &[OptionName::Delete],
            Group::Removing => &[OptionName::Dryrun],
            Group::Cutting => &[OptionName::Range],
            Group::Stopping => &[
                OptionName::StopAfter,
                OptionName::Lists,
                OptionName::Restart,
            ],
        }
    }
}

/// An option that was given, and the number of its word.
#[derive(Clone, Copy, Debug, Drop, PartialEq, Eq)]
pub(crate) struct Placed {
    pub(crate) option: OptionName,
    pub(crate) place: usize,
}

/// An option, whatever the tool.
#[derive(Clone, Copy, Debug, Drop, PartialEq, Eq)]
pub(crate) enum OptionName {
    Ranks,
    Hosts,
    Split,
    Seed,
    Width,
    Trace,
    Shares,
    Progress,
    Sort,
    Input,
    Output,
    Test(TestName),
    Newer,
    Want,
    Dryrun,
    Delete,
    Range,
    StopAfter,
    Lists,
    Restart,
}

impl OptionName {
    /// Its name.
    #[tactic(auto, unfolding(crate::specs::Table::text_of))]
    pub(crate) fn text(self) -> &'static str
        ensures { result.now ≡ text_of self }
    {
        match self {
            OptionName::Ranks => "--ranks",
            OptionName::Hosts => "--hosts",
            OptionName::Split => "--split",
            OptionName::Seed => "--seed",
            OptionName::Width => "--width",
            OptionName::Trace => "--trace",
            OptionName::Shares => "--shares",
            OptionName::Progress => "--progress",
            OptionName::Sort => "--sort",
            OptionName::Input => "--input",
            OptionName::Output => "--output",
            OptionName::Test(TestName::Name) => "--name",
            OptionName::Test(TestName::Path) => "--path",
            OptionName::Test(TestName::Kind) => "--type",
            OptionName::Test(TestName::Size) => "--size",
            OptionName::Test(TestName::Days) => "--mtime",
            OptionName::Test(TestName::Minutes) => "--mmin",
            OptionName::Newer => "--newer",
            OptionName::Want => "-o",
            OptionName::Dryrun => "--dryrun",
            OptionName::Delete => "--delete",
            OptionName::Range => "--range",
            OptionName::StopAfter => "--stop-after",
            OptionName::Lists => "--lists",
            OptionName::Restart => "--restart",
        }
    }

    /// Whether it may be given again.
    pub(crate) fn adds_up(self) -> bool
        ensures { result ≡ adds_up self }
    {
        matches!(
            self,
            OptionName::Test(_) | OptionName::Newer | OptionName::Want
        )
    }
}
