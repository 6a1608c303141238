//! The command that a command line gives.
use circle_run::Split;
use find_tests::Test;
use flat_list::Field;
use path_text::Path;
use tree_cmp::Expr;

/// The settings of a walk, for every tool.
#[derive(Clone, Copy, Debug, Drop, PartialEq, Eq)]
pub struct Common {
    /// The number of ranks.
    pub ranks: u32,
    /// The number of threads in which the ranks run.
    pub hosts: u32,
    /// How much a rank gives to a rank that asks.
    pub split: Split,
    /// The seed of the random numbers.
    pub seed: u64,
    /// How many ranks report their counts to one other rank.
    pub width: u32,
    /// Whether the events of the walk are printed.
    pub trace: bool,
    /// Whether the work of each rank is printed.
    pub shares: bool,
    /// Whether the counts of the walk are printed.
    pub progress: bool,
}

impl Common {
    ghost use Rattle.std.specs.Prelude.{◌≡◌};
    ghost use Rattle.tool_words.specs.Table.{standard};

    /// The defaults.
    pub const fn standard() -> Common
        ensures { result ≡ standard }
    {
        Common {
            ranks: 4,
            hosts: 1,
            split: Split::Equal,
            seed: 0,
            width: 64,
            trace: false,
            shares: false,
            progress: false,
        }
    }
}

/// Where a walk starts.
#[derive(Debug, Drop)]
pub enum Start {
    /// At these paths. They may be nested, or given twice.
    Roots(Vec<Path>),
    /// Nowhere: the list is read from this file.
    Input(Path),
    /// At no path: the walk continues an earlier one that stopped.
    Restart,
}

/// The tests that choose entries of a list.
#[derive(Debug, Drop)]
pub struct Tests {
    /// An entry must pass all of these.
    pub tests: Vec<Test>,
    /// It must also have changed after each of these paths, which may be given twice.
    pub newer: Vec<Path>,
}

/// A list that is saved of a comparison.
#[derive(Debug, Drop)]
pub struct Want {
    /// The rows whose entries are saved.
    pub expr: Expr,
    /// The file to which they are written.
    pub file: Path,
}

/// The command that a command line gives.
#[derive(Debug, Drop)]
pub enum Command {
    /// A list of the entries at and below the start.
    Walk {
        /// The settings of the walk.
        common: Common,
        /// Where it starts.
        start: Start,
        /// The field by which the list is sorted, and whether it descends. Without it the list is in path order.
        sort: Option<(Field, bool)>,
        /// The file to which the list is written.
        output: Option<Path>,
        /// After how many paths of one rank the walk stops.
        stop_after: Option<u64>,
        /// The directory of the checkpoint that a walk leaves when it stops, and from which another one continues.
        lists: Option<Path>,
    },
    /// A list of the chosen entries.
    Find {
        /// The settings of the walk.
        common: Common,
        /// Where it starts.
        start: Start,
        /// The tests that choose entries.
        tests: Tests,
        /// The field by which the list is sorted, and whether it descends.
        sort: Option<(Field, bool)>,
        /// The file to which the chosen entries are written.
        output: Option<Path>,
    },
    /// A comparison of two trees.
    Cmp {
        /// The settings of each of the two walks.
        common: Common,
        /// The source.
        left: Path,
        /// The destination.
        right: Path,
        /// The lists to save, in the order of the words.
        wants: Vec<Want>,
    },
    /// A copy of the sources and everything below them.
    Copy {
        /// The settings of the walk.
        common: Common,
        /// The sources: one path or more. They may be nested, or given twice.
        sources: Vec<Path>,
        /// The destination.
        dest: Path,
        /// A file of more bytes than this is copied in ranges of at least so many bytes. Without it no file is.
        range: Option<u64>,
    },
    /// A destination is made equal to a source.
    Sync {
        /// The settings of each of the two walks.
        common: Common,
        /// The source.
        source: Path,
        /// The destination.
        dest: Path,
        /// Whether entries that only the destination has are deleted.
        delete: bool,
    },
    /// The groups of files with equal contents.
    Dup {
        /// The settings of the walk.
        common: Common,
        /// The paths below which files are looked for: one or more. They may be nested, or given twice.
        roots: Vec<Path>,
    },
    /// The chosen entries are deleted.
    Remove {
        /// The settings of the walk.
        common: Common,
        /// Where it starts: paths other than `/`. They may be nested, or given twice.
        roots: Vec<Path>,
        /// The tests that choose entries.
        tests: Tests,
        /// Whether nothing is deleted.
        dryrun: bool,
    },
    /// A walk of a made-up tree, and the summary of the chosen entries.
    Test {
        /// The settings of the walk.
        common: Common,
        /// The number of nodes of the tree.
        nodes: u64,
        /// The tests that choose entries.
        tests: Tests,
    },
}
