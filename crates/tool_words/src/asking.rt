//! The command of a line that was read to its end.
ghost use Rattle.std.specs.Prelude.{◌≡◌, Some, IfOk};
ghost use Rattle.tool_words.specs.Asked.{start_in, begin_in, asked_by};
ghost use Rattle.tool_words.specs.Parts.{Reads};
ghost use Rattle.tool_words.specs.Words.{start_by, begin_by, sides_by, sources_by, roots_by, nodes_by, asked_of, command_of};
ghost use Rattle.tool_words.specs.Words.{compare_of, copy_of, sync_of, dup_of, remove_of, test_of};

use crate::commands::{Command, Start, Tests};
use crate::errors::WordsError;
use crate::lines::Line;
use crate::settings::Settings;
use crate::tables::Tool;
use path_text::Path;

impl Line {
    /// The command of the tool. The number is that of the first word after the last one, at which a missing path is reported.
    /// Options that cannot be combined are reported after everything else.
    pub(crate) fn command(self, tool: Tool, wanting: usize) -> Result<Command, WordsError>
        ensures { Reads (command_of wanting tool self) asked_by result }
    {
        let clash = self.clash();
        let command = self.asked(tool, wanting)?;
        match clash {
            Some(place) => Err(WordsError::Clash(place)),
            None => Ok(command),
        }
    }

    // What the tool was asked for, if no options clash.
    fn asked(self, tool: Tool, wanting: usize) -> Result<Command, WordsError>
        ensures { Reads (asked_of wanting tool self) asked_by result }
    {
        match tool {
            Tool::Walk => self.walk(wanting),
            Tool::Find => self.find(wanting),
            Tool::Cmp => {
                let sides = sides_of(self.paths, &self.places, wanting)?;
                Ok(self.settings.compare(sides))
            }
            Tool::Copy => Ok(self.settings.copy(sources_of(self.paths, wanting)?)),
            Tool::Sync => {
                let sides = sides_of(self.paths, &self.places, wanting)?;
                Ok(self.settings.sync(sides))
            }
            Tool::Dup => Ok(self.settings.dup(roots_of(self.paths, wanting)?)),
            Tool::Remove => Ok(self.settings.remove(roots_of(self.lower, wanting)?)),
            Tool::Test => {
                let nodes = nodes_of(&self.numbers, &self.places, wanting)?;
                Ok(self.settings.test(nodes))
            }
        }
    }

    fn walk(self, wanting: usize) -> Result<Command, WordsError>
        ensures { Reads (asked_of wanting Tool.Walk self) asked_by result }
    {
        let settings = self.settings;
        let (input, restart) = (settings.input, settings.restart);
        Ok(Command::Walk {
            common: settings.common,
            start: begin_of(input, restart, self.paths, &self.places, wanting)?,
            sort: settings.sort,
            output: settings.output,
            stop_after: settings.stop_after,
            lists: settings.lists,
        })
    }

    fn find(self, wanting: usize) -> Result<Command, WordsError>
        ensures { Reads (asked_of wanting Tool.Find self) asked_by result }
    {
        let settings = self.settings;
        Ok(Command::Find {
            common: settings.common,
            start: start_of(settings.input, self.paths, &self.places, wanting)?,
            tests: Tests {
                tests: settings.tests,
                newer: settings.newer,
            },
            sort: settings.sort,
            output: settings.output,
        })
    }
}

// What the settings ask of a tool whose paths, or whose number, were read.
impl Settings {
    fn compare(self, sides: (Path, Path)) -> Command
        ensures { asked_by result ≡ compare_of self sides.0 sides.1 }
    {
        Command::Cmp {
            common: self.common,
            left: sides.0,
            right: sides.1,
            wants: self.wants,
        }
    }

    fn copy(self, ends: (Vec<Path>, Path)) -> Command
        ensures { asked_by result ≡ copy_of self ends.0.items ends.1 }
    {
        Command::Copy {
            common: self.common,
            sources: ends.0,
            dest: ends.1,
            range: self.range,
        }
    }

    fn sync(self, sides: (Path, Path)) -> Command
        ensures { asked_by result ≡ sync_of self sides.0 sides.1 }
    {
        let (source, dest) = sides;
        Command::Sync {
            common: self.common,
            source,
            dest,
            delete: self.delete,
        }
    }

    fn dup(self, roots: Vec<Path>) -> Command
        ensures { asked_by result ≡ dup_of self roots.items }
    {
        Command::Dup {
            common: self.common,
            roots,
        }
    }

    fn remove(self, roots: Vec<Path>) -> Command
        ensures { asked_by result ≡ remove_of self roots.items }
    {
        Command::Remove {
            common: self.common,
            roots,
            dryrun: self.dryrun,
            tests: Tests {
                tests: self.tests,
                newer: self.newer,
            },
        }
    }

    fn test(self, nodes: u64) -> Command
        ensures { asked_by result ≡ test_of self nodes }
    {
        Command::Test {
            common: self.common,
            nodes,
            tests: Tests {
                tests: self.tests,
                newer: self.newer,
            },
        }
    }
}

// Where a walk begins, or that it goes on, where the paths stand in words of these numbers.
fn begin_of(
    input: Option<Path>,
    restart: bool,
    paths: Vec<Path>,
    places: &[usize],
    wanting: usize,
) -> Result<Start, WordsError>
    ensures { Reads (begin_by wanting input restart paths.items places.now) begin_in result }
{
    if !restart {
        return start_of(input, paths, places, wanting);
    }
    match places.first() {
        Some(place) => Err(WordsError::TooManyPaths(*place)),
        None => Ok(Start::Restart),
    }
}

// Where a list comes from: from these paths, or from a file, where the paths stand in words of these numbers.
fn start_of(
    input: Option<Path>,
    paths: Vec<Path>,
    places: &[usize],
    wanting: usize,
) -> Result<Start, WordsError>
    ensures start { Reads (start_by wanting input paths.items places.now) start_in result }
    ensures begin { IfOk result (λ start. begin_in start ≡ Some (start_in start)) }
{
    match input {
        None if paths.is_empty() => Err(WordsError::NoPath(wanting)),
        None => Ok(Start::Roots(paths)),
        Some(file) => match places.first() {
            Some(place) => Err(WordsError::TooManyPaths(*place)),
            None => Ok(Start::Input(file)),
        },
    }
}

// The source and the destination, where the paths stand in words of these numbers.
fn sides_of(paths: Vec<Path>, places: &[usize], wanting: usize) -> Result<(Path, Path), WordsError>
    ensures { Reads (sides_by wanting paths.items places.now) (λ sides. sides) result }
{
    match places {
        [_, _, another, ..] => return Err(WordsError::TooManyPaths(*another)),
        [_, _] => {}
        _ => return Err(WordsError::NoPath(wanting)),
    }
    let mut paths = paths.into_iter();
    match (paths.next(), paths.next()) {
        (Some(left), Some(right)) => Ok((left, right)),
        _ => Err(WordsError::NoPath(wanting)),
    }
}

// The sources, one or more, and the destination, which is the last of the paths.
fn sources_of(paths: Vec<Path>, wanting: usize) -> Result<(Vec<Path>, Path), WordsError>
    ensures { Reads (sources_by wanting paths.items) (λ ends. (ends.0.items, ends.1)) result }
{
    let mut sources = paths;
    match sources.pop() {
        Some(dest) if !sources.is_empty() => Ok((sources, dest)),
        _ => Err(WordsError::NoPath(wanting)),
    }
}

// The paths where a walk starts: one or more.
fn roots_of(paths: Vec<Path>, wanting: usize) -> Result<Vec<Path>, WordsError>
    ensures { Reads (roots_by wanting paths.items) (λ roots. roots.items) result }
{
    if paths.is_empty() {
        return Err(WordsError::NoPath(wanting));
    }
    Ok(paths)
}

// How many nodes a made-up tree has, where the numbers stand in words of these numbers.
fn nodes_of(numbers: &[u64], places: &[usize], wanting: usize) -> Result<u64, WordsError>
    ensures { Reads (nodes_by wanting numbers.now places.now) (λ n. n) result }
{
    match (numbers, places) {
        (_, [_, another, ..]) => Err(WordsError::TooManyPaths(*another)),
        ([nodes, ..], [_]) => Ok(*nodes),
        _ => Err(WordsError::NoPath(wanting)),
    }
}
